//! Affine constraints on degrees of freedom, x_i = sum of c_ij x_j + k_i, as on the page
//! `AffineConstraints` of the deal.II manual, and closing: constrained masters are replaced by their own
//! lines until only free ones are left.
//!
//! Weights and constants are whole numbers of ticks of 2^-16.
#![tactic(auto)]

mod closed;
mod closing;
mod cycle;
mod fault;
mod forming;
mod laws;
mod line;
mod line_set;
mod search;
mod table;
mod term;

pub use closed::Closed;
pub use fault::{CloseFault, LineFault};
pub use laws::{lines_can_be_closed, lines_have_an_answer, lines_have_one_answer};
pub use line_set::LineSet;
pub use term::Term;
