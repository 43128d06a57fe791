//! The jobs of a batch, run by workers that take one after another, and the text of what they come to, in the order of the jobs.
#![tactic(auto)]

mod tasks;
mod text;

pub use text::batch_text;
