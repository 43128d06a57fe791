//! Lists that lie one behind the other in one array, as the rows of a matrix in compressed form.
#![tactic(auto)]

mod lists;

pub use lists::Lists;
