ghost use Rattle.ucd_read.specs.Ucd.{Ucd};
ghost use Rattle.msh_read.specs.Msh.{Msh};
ghost use Rattle.system_laws.specs.Laws.{HasOneSystem, HasASetUp, HasOneForest, HasOneFinerForest, HasOneSystemOn, HasAForest, TextsHaveQuadrilaterals};

use msh_read::quadrilaterals_have_four_corners;

/// A mesh and a problem have at most one system: two outcomes of their set-up are one refusal, or two set-ups with
/// the same cells, dofs and closed lines, the same pattern, the same part of each cell, and the same rows that each
/// cell writes. Only the numbers of corners may differ.
pub fn a_mesh_has_one_system()
    ensures { HasOneSystem }
{}

/// A mesh of quadrilaterals and a problem have an outcome of their set-up, so what is said of outcomes is never
/// empty.
pub fn a_mesh_has_a_set_up()
    ensures { HasASetUp }
{}

/// The refinement of a mesh by the steps of a problem has one outcome at most, and so has one more step on it, and the set-up
/// on what these give: one refusal, or refined meshes with the same cells, and set-ups of one system.
pub fn refined_meshes_are_one()
    ensures forest { HasOneForest }
    ensures finer { HasOneFinerForest }
    ensures system { HasOneSystemOn }
{}

/// The refinement of a mesh of quadrilaterals has an outcome, and so has one more step on it, of any cells, and the set-up on
/// what that gives.
pub fn a_mesh_can_be_refined()
    ensures { HasAForest }
{}

/// Each cell that a mesh text in UCD or in MSH calls a quadrilateral has four corners.
pub fn texts_have_quadrilaterals()
    ensures ucd { TextsHaveQuadrilaterals Ucd }
    ensures msh { TextsHaveQuadrilaterals Msh }
{
    quadrilaterals_have_four_corners();
}
