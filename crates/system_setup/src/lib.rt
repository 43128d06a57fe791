//! From a mesh and a problem to the set-up of their system, or why there is none: the coarse mesh, its steps of
//! refinement, the degrees of freedom, the constraint lines and the pattern, in this order.
#![tactic(auto)]

mod endings;
mod scheme;
mod steps;

pub use scheme::{Degree, Scheme};
pub use steps::{refined_further, refined_mesh, set_up, set_up_on};
