//! The texts that a run reads or generates, and the mesh, the problem and the vector that they are of.
#![tactic(auto)]

mod endings;
mod formats;
mod read;
mod source;
mod vector;

pub use source::read_source;
pub use vector::read_vector_text;
