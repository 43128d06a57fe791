//! From the set-up of a system to the texts that are asked for: its sums, and the texts of the matrix and the right side,
//! or their summary; or the pattern; or the colours of the cells.
#![tactic(auto)]

mod endings;
mod sums;
mod targets;

pub use endings::local_kind;
pub use sums::{colors_of, plan_of, sum_rows, sum_rows_by_pipeline};
pub use targets::make_targets;
