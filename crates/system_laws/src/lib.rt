//! Laws of set-ups: a mesh and a problem have one outcome at most, as far as a system shows it, and one at least.
#![tactic(auto)]

mod laws;

pub use laws::{
    a_mesh_can_be_refined, a_mesh_has_a_set_up, a_mesh_has_one_system, refined_meshes_are_one,
    texts_have_quadrilaterals,
};
