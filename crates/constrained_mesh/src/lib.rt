//! From a coarse mesh and a problem text to a refined mesh and its closed constraint lines: the refinement
//! steps, the Dirichlet lines of boundary values, the lines of hanging dofs, the constraints of the problem,
//! and closing.
#![tactic(auto)]

mod closed_lines;
mod dirichlet;
mod fault;
mod laws;
mod mesh_lines;
mod nodes;
mod refinement;
mod ties;

pub use closed_lines::constraint_lines;
pub use fault::ConstraintFault;
pub use laws::{
    answers_are_never_for_memory, meshes_have_an_answer, meshes_have_one_answer,
    the_least_id_decides,
};
pub use refinement::refine_by_steps;
