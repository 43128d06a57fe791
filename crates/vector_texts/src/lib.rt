//! Texts of a vector on a refined mesh: its product with the operator of a system, without a matrix, and the cells across
//! whose faces its gradient jumps most.
#![tactic(auto)]

mod endings;
mod fitting;
mod marks;
mod product;
mod text;

pub use marks::{Marked, mark_cells, marks_targets};
pub use product::product_targets;
pub use text::marks_text;
