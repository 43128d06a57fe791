//! How a run of the program ends: its status, and its one line on the diagnostics.
#![tactic(auto)]

mod ending;
mod kinds;
mod line;
mod refusal;

pub use ending::{Ending, Output, Role, put_word};
pub use kinds::{
    ConstraintKind, LimitKind, LocalKind, MeshKind, MeshTextKind, ProblemTextKind, VectorFault,
    VectorTextKind,
};
pub use refusal::{Refusal, put_fault};
