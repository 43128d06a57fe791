//! The blocks that the visits of a cell give: the dofs and the local form of the cell itself, of its faces at
//! the boundary and of its parts of interior faces, with shape functions of degree 1 or 2.
#![tactic(auto)]

mod block;
mod copy;
mod fill;
mod forms;
mod linear;
mod local;
mod quadratic;
mod setting;
mod sides;
mod systems;

pub use block::Block;
pub use copy::{CellCopy, CellScratch};
pub use fill::fill_blocks;
pub use setting::Setting;
