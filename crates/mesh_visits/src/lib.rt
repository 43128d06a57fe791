//! Which workers run on which cells and faces of a refined mesh, and in which order, as
//! `MeshWorker::mesh_loop` of deal.II says: on the cell, on its faces at the boundary, and on its parts of
//! interior faces; in the run of one subdomain on its cells and, where that is asked for, on the parts that
//! they share with ghosts and on the ghosts.
#![tactic(auto)]

mod flags;
mod laws;
mod run;
mod side;
mod visit;
mod visits;

pub use flags::{Flags, Interior};
pub use laws::{runs_add_up, sums_add_up, tests_are_exact, visits_are_exact};
pub use visit::Visit;
pub use visits::make_visits;
