//! Local forms of quadrilateral cells with biquadratic shape functions on a bilinear geometry, in fixed point,
//! bit for bit by the definitions in `specs/`: the diffusion matrix and the load of a cell, the mass matrix
//! and the load of a boundary face, and the penalty of the jumps across a part of an interior face.
#![tactic(auto)]

mod boundary;
mod cell;
mod flux;
mod jump;
mod laws;
mod penalty;
mod sample;
mod shapes;
mod sharing;
mod sums;
mod tables;

pub use boundary::boundary_matrix2;
pub use cell::{Q2Scratch, cell_matrix2};
pub use jump::jump_matrix2;
pub use laws::{normal_has_no_sign, sides_may_change_places};
