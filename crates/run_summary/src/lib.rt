//! The summary of a run: how large a system is, and sums of its values in which each entry has a weight by its place, so
//! that two systems can be compared by six numbers.
//!
//! Values are whole numbers, in units of 2^-32.
#![tactic(auto)]

mod laws;
mod sums;
mod text;
mod weighted;

pub use laws::sums_are_summable;
pub use text::summary_text;
