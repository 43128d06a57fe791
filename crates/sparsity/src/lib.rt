//! Sparsity patterns in compressed rows: which pairs of degrees of freedom (dofs) couple, and the rows of values over
//! them. After `DynamicSparsityPattern` and `SparsityPattern` of the deal.II manual.
//!
//! Lists of dofs that couple are gathered in [`Couplings`], [`Pattern::build`] makes the rows from them in several
//! threads, and [`Rows`] holds a value for each pair of the pattern, with a right side a row.
#![tactic(auto)]

mod chains;
mod couplings;
mod fault;
mod gather;
mod limit;
mod lists;
mod pattern;
mod pieces;
mod rows;
mod values;

pub use couplings::Couplings;
pub use fault::PatternFault;
pub use pattern::Pattern;
pub use rows::{Mark, MarkKind, Row, Rows};
pub use values::RowValues;
