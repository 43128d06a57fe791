//! What a job of a batch comes to, over the texts that were read: what a run of its words over them writes, or how it ends.
#![tactic(auto)]

mod answer;
mod outcome;

pub use answer::{Answer, answer_job};
pub use outcome::Outcome;
