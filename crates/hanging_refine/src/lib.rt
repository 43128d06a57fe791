//! Refined cells over a coarse mesh, with hanging corners: the active cells, their corners by name, and
//! what lies on the other side of each face.
#![tactic(auto)]

mod children;
mod closure;
mod faces;
mod fault;
mod forest;
mod geometry;
mod laws;
mod refusals;
mod sides;
mod step;
mod stored;

pub use fault::RefineFault;
pub use forest::Forest;
pub use laws::faces_are_covered_once;
pub use sides::ActiveSide;
