//! Batch texts: one job a line, each the words of a run of its own.
#![tactic(auto)]

mod fault;
mod job;
mod reader;

pub use fault::{BatchFault, BatchKind};
pub use job::Job;
pub use reader::{one_reading, read_batch};
