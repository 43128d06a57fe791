//! The program `assemble`: it reads a mesh and a problem, and writes the system of the problem, its summary, its pattern,
//! the colours of its cells, or the mesh; or it reads a vector too, and writes its product with the operator of the system, or
//! refines the mesh where its gradient jumps most. Or it reads a batch of such jobs, and writes what they come to, one behind the other.
#![tactic(auto)]

mod ask;
mod batch;
mod program;
mod top;

pub use program::run_program;
pub use top::{run, run_chosen, run_plain};
