//! The lumped mass matrix of degree 1 on a refined mesh: a program of a physics of its own over the crates below.
//!
//! The matrix is diagonal, by the quadrature whose points are the vertices of a cell, and the integral of a function
//! with given values at the dofs is the sum of each mass times its value. All is counted in quarters of a square tick,
//! so nothing is rounded. The masses are summed in the order of the cells by a pipeline, or colour after colour by
//! rounds: both give the same sums.
#![tactic(auto)]

mod by_color;
mod cells;
mod color;
mod in_order;
mod masses;
mod rows;
mod shares;

pub use by_color::masses_by_color;
pub use cells::Cells;
pub use color::Color;
pub use in_order::masses_in_order;
pub use masses::Masses;
