//! What a batch reads: its text, and the texts that its jobs name, in the order of the work and each name once.
#![tactic(auto)]

mod ending;
mod laws;
mod lines;
mod names;
mod read;

pub use ending::{BatchEnding, BatchRefusal, BatchRole};
pub use laws::{sources_have_a_reading, sources_have_one_reading};
pub use read::{BatchSources, read_batch_sources};
