//! Problem texts: coefficients, boundary data, the weight of jumps, refinement steps and constraints.
#![tactic(auto)]

mod fault;
mod keyword;
mod lists;
mod problem;
mod reader;
mod tables;
mod ties;

pub use fault::{ProblemFault, ProblemKind};
pub use problem::Problem;
pub use reader::{one_reading, read_problem};
pub use ties::TieTerm;
