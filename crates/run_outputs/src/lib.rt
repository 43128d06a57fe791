//! The texts that a run writes, and where: to standard output by puts, or under a name by one write.
#![tactic(auto)]

mod target;
mod write;

pub use target::{Target, first_target};
pub use write::write_targets;
