//! The product of the system's operator with a list of values, with no matrix: each cell's blocks are made anew,
//! multiplied with the values and spread over the masters of its rows, colour after colour, as a matrix-free operator
//! of deal.II does it.
#![tactic(auto)]

mod cell_rows;
mod colored;
mod crew;
mod fault;
mod laws;
mod local_row;
mod product_row;
mod products;
mod row_job;
mod shares;

pub use cell_rows::CellRows;
pub use colored::apply;
pub use fault::{ApplyFault, CellFault};
pub use laws::the_matrix_is_one;
pub use local_row::LocalRow;
pub use product_row::{ProductMark, ProductRow};
pub use row_job::ProductRowJob;
