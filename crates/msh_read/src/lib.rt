//! Mesh texts in the format MSH 2.2 of Gmsh: quadrilaterals, and lines that carry boundary ids.
#![tactic(auto)]

mod element_line;
mod elements;
mod fault;
mod format;
mod nodes;
mod numbers;
mod others;
mod reader;
mod sections;
mod shape;

pub use fault::{MshFault, MshKind};
pub use reader::{
    one_reading, other_sections_are_passed_over, quadrilaterals_have_four_corners, read_msh,
};
