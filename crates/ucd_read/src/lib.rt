//! Mesh texts in AVS UCD: quadrilaterals, and lines that carry boundary ids.
#![tactic(auto)]

mod cells;
mod fault;
mod header;
mod nodes;
mod reader;

pub use cells::Cell;
pub use fault::{UcdFault, UcdKind};
pub use header::Header;
pub use reader::{one_reading, read_ucd};
