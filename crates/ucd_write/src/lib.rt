//! Mesh texts in AVS UCD are written.
#![tactic(auto)]

mod cells;
mod coordinates;
mod laws;
mod nodes;
mod sizes;
mod writer;

pub use laws::written_meshes_are_read_back;
pub use writer::ucd_text;
