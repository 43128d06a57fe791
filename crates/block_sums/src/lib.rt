//! What a cell adds to the rows of a system: the local matrices and loads of its blocks, spread over the masters of
//! their dofs, as `AffineConstraints::distribute_local_to_global` of deal.II does it, or its fault.
//!
//! One walk serves all adders. A cell is added to all rows, as a pipeline's copier does it, or to one row alone, as the
//! rounds of a colour do it.
#![tactic(auto)]

mod cells;
mod laws;
mod row_writing;
mod shares;
mod system;
mod walk;

pub use cells::{add_cell, add_cell_to_state};
pub use laws::{closed_lines_are_small, contributions_may_be_added, parts_may_be_added};
pub use row_writing::write_row;
pub use system::System;
pub use walk::add_block;
