//! Rows that are written in rounds, each by the one item that names it.
#![tactic(auto)]

mod crew;
mod driver;
mod job;
mod moves;
mod pass;
mod places;
mod round;
mod rule;
mod steps;
mod tools;
mod turn;
mod view;

pub use crew::{Crew, run_round};
pub use driver::{ColorHand, run_colored};
pub use job::RowJob;
pub use pass::RoundPass;
pub use round::{Claimed, Round};
pub use steps::rounds_are_machines;
pub use turn::{RowTurn, RowWorked};
