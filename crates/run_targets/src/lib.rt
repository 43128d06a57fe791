//! From what the words ask for to the texts that a run writes: the mesh, the problem and a vector are read, and of them a system
//! is set up, assembled and written in texts, or the text of the mesh alone, or what is made of the vector.
#![tactic(auto)]

mod make;
mod mesh;
mod read;
mod system;
mod vector;

pub use read::{all_targets, plain_targets};
