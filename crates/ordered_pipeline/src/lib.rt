//! The ordered pipeline: items are drawn in order, worked by many callers at once, and copied one after
//! another in their order, by whoever finishes the item whose turn it is.
//!
//! A ring of copy objects bounds how many items are under way. No call but `run_ordered`, and
//! [`run_job`], which makes a pipeline and its hands and runs them, waits, and none takes a lock.
#![tactic(auto)]

mod crew;
mod hands;
mod job;
mod laws;
mod pass;
mod pipeline;
mod rule;
mod run;
mod slots;
mod steps;
mod turn;
mod view;

pub use hands::{Hand, run_ordered};
pub use job::Job;
pub use laws::{pipeline_states_are_ordered, pipeline_steps_are_events};
pub use pass::{Drawn, Handed, Next, Pass, Start};
pub use pipeline::{Ended, Pipeline};
pub use run::{DataOf, JobData, run_job};
pub use turn::{Turn, Worked};
