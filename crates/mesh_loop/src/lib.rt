//! One place that says which workers run on which cells and faces, what each block adds where, and in which
//! order it is summed, after `MeshWorker::mesh_loop` of deal.II.
//!
//! A [`Setup`] holds the visits of each cell, the rows that it writes and the pattern of the system.
//! [`assemble_serial`] adds cell after cell; [`conflicts`] gives what a colouring needs.
#![tactic(auto)]

mod gather;
mod limits;
mod masters;
mod plan;
mod serial;
mod setup;
mod source;
mod visited;
mod written;

pub use cell_blocks::{CellCopy, CellScratch};
pub use fixed_q1::Part;
pub use mesh_visits::{Flags, Interior, Visit};
pub use plan::Plan;
pub use serial::assemble_serial;
pub use serial_sum::AssembleFault;
pub use setup::Setup;
pub use written::conflicts;
