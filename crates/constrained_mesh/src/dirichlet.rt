ghost use Rattle.std.specs.Prelude.{◌≡◌, ℕ, ◌<◌, ◌++◌, ◌∷◌, [], List, length, slice_set, slice_index, slice_index_or, true, false, None, Some, IfOk, OnOk, MatchOption};
ghost use Rattle.corner_names.specs.Cells as cells;
ghost use Rattle.hanging_refine.specs.Grown.{IsGrown};
ghost use Rattle.affine_constraints.specs.Lines.{lines_in};
ghost use Rattle.dof_numbers.specs.Dofs.{IsNumberingOf};
ghost use Rattle.mesh_visits.specs.Meeting.{Face, all_faces};
ghost use Rattle.mesh_visits.specs.Visits.{id_of};
ghost use Rattle.constrained_mesh.specs.Dirichlet.{has_value, line_on, dirichlet_line, lesser as lesser_of};
ghost use Rattle.constrained_mesh.specs.LeastIds.{HoldsLeast};
ghost use Rattle.constrained_mesh.specs.MeshLines.{HangingHaveNone};

use affine_constraints::{LineFault, LineSet};
use dof_numbers::Dofs;
use fem_fixed::NoMemory;
use hanging_refine::{ActiveSide, Forest};
use problem_read::Problem;
use std::alloc::Global;

/// The lines of the dofs of boundary faces whose id has a value: no terms, and the value of the least such id. A
/// face has the dofs of its ends, and with degree 2 that of its middle.
pub fn dirichlet_lines(
    alloc: Global,
    forest: &Forest,
    dofs: &Dofs,
    problem: &Problem,
) -> Result<LineSet, NoMemory>
    requires { IsNumberingOf forest.now dofs.now }
    ensures size { IfOk result (λ lines. length lines ≡ dofs.now.size) }
    ensures lines { IfOk result (λ lines. (dof : ℕ) → dof < dofs.now.size → lines_in lines dof ≡ dirichlet_line dofs.now.degree forest.now problem.now dof) }
    ensures hanging { OnOk result (HangingHaveNone dofs.now.degree forest.now problem.now) }
    ensures grown { OnOk result (IsGrown forest.now) }
{
    let ids = least_ids(alloc, forest, dofs, problem)?;
    let mut lines = LineSet::new(alloc, dofs.size())?;
    for dof in 0..dofs.size() {
        add_value(&mut lines, problem, dof, ids[dof as usize])?;
    }
    Ok(lines)
}

/// Adds the line of the value that is listed for an id.
fn add_value(
    lines: &mut LineSet,
    problem: &Problem,
    dof: u32,
    id: Option<u32>,
) -> Result<(), NoMemory>
    requires dof { dof < length lines.old }
    requires free { lines_in lines.old dof ≡ None }
    ensures { OnOk result (lines.new ≡ slice_set lines.old dof (line_on problem.now id)) }
{
    let Some(id) = id else {
        return Ok(());
    };
    let Some(value) = problem.dirichlet(id) else {
        return Ok(());
    };
    match lines.add(dof, &[], value) {
        Ok(()) => Ok(()),
        Err(LineFault::Twice(_)) => unreachable!(),
        Err(LineFault::NoMemory) => Err(NoMemory),
    }
}

/// For each dof, the least id with a value of the faces on which it lies.
fn least_ids(
    alloc: Global,
    forest: &Forest,
    dofs: &Dofs,
    problem: &Problem,
) -> Result<Vec<Option<u32>>, NoMemory>
    requires { IsNumberingOf forest.now dofs.now }
    ensures size { IfOk result (λ ids. length ids.items ≡ dofs.now.size) }
    ensures ids { IfOk result (λ ids. HoldsLeast dofs.now.degree forest.now problem.now (all_faces forest.now) ids.items) }
    ensures hanging { OnOk result (HangingHaveNone dofs.now.degree forest.now problem.now) }
    ensures grown { OnOk result (IsGrown forest.now) }
{
    let mut ids = vec![in alloc; None; dofs.size() as usize]?;
    for cell in 0..forest.cells() {
        note_cell(&mut ids, forest, dofs, problem, cell);
    }
    Ok(ids)
}

/// Notes the ids of the faces of a cell.
fn note_cell(ids: &mut Vec<Option<u32>>, forest: &Forest, dofs: &Dofs, problem: &Problem, cell: u32)
    requires grown { IsGrown forest.now }
    requires numbered { IsNumberingOf forest.now dofs.now }
    requires cell { cell < length forest.now.cells }
    requires size { length ids.old.items ≡ dofs.now.size }
    ensures noted { (seen : List Face) → HoldsLeast dofs.now.degree forest.now problem.now seen ids.old.items → HoldsLeast dofs.now.degree forest.now problem.now (seen ++ (cell, 0) ∷ (cell, 1) ∷ (cell, 2) ∷ (cell, 3) ∷ []) ids.new.items }
    ensures size { length ids.new.items ≡ length ids.old.items }
{
    note_face(ids, forest, dofs, problem, cell, 0);
    note_face(ids, forest, dofs, problem, cell, 1);
    note_face(ids, forest, dofs, problem, cell, 2);
    note_face(ids, forest, dofs, problem, cell, 3);
}

/// Notes the id of a face at its dofs, where it has a value.
fn note_face(
    ids: &mut Vec<Option<u32>>,
    forest: &Forest,
    dofs: &Dofs,
    problem: &Problem,
    cell: u32,
    face: u8,
)
    requires grown { IsGrown forest.now }
    requires numbered { IsNumberingOf forest.now dofs.now }
    requires cell { cell < length forest.now.cells }
    requires face { face < 4 }
    requires size { length ids.old.items ≡ dofs.now.size }
    ensures noted { (seen : List Face) → HoldsLeast dofs.now.degree forest.now problem.now seen ids.old.items → HoldsLeast dofs.now.degree forest.now problem.now (seen ++ (cell, face) ∷ []) ids.new.items }
    ensures size { length ids.new.items ≡ length ids.old.items }
{
    match id_with_value(forest, problem, cell, face) {
        None => {}
        Some(id) => {
            let row = dofs.of_cell(cell);
            note_id(ids, row[start_of(face)], id);
            note_id(ids, row[end_of(face)], id);
            if dofs.degree() == 2 {
                note_id(ids, row[4 + face as usize], id);
            }
        }
    }
}

/// Notes an id at a dof, where none is noted there or only greater ones.
fn note_id(ids: &mut Vec<Option<u32>>, dof: u32, id: u32)
    requires { dof < length ids.old.items }
    ensures noted { ids.new.items ≡ slice_set ids.old.items dof (Some (lesser_of (slice_index_or ids.old.items dof None) id)) }
    ensures size { length ids.new.items ≡ length ids.old.items }
{
    ids[dof as usize] = Some(lesser(ids[dof as usize], id));
}

/// The lesser of two ids, where there are two.
fn lesser(noted: Option<u32>, id: u32) -> u32
    ensures { result ≡ lesser_of noted id }
{
    match noted {
        None => id,
        Some(other) => other.min(id),
    }
}

/// The id of a face, where it is on the boundary and a value is listed for its id.
fn id_with_value(forest: &Forest, problem: &Problem, cell: u32, face: u8) -> Option<u32>
    requires grown { IsGrown forest.now }
    requires cell { cell < length forest.now.cells }
    requires face { face < 4 }
    ensures { MatchOption result (has_value forest.now problem.now (cell, face) ≡ false) (λ id. (has_value forest.now problem.now (cell, face) ≡ true) × (id ≡ id_of forest.now (cell, face))) }
{
    match forest.side(cell, face) {
        ActiveSide::Boundary(id) => {
            if problem.dirichlet(id).is_some() {
                Some(id)
            } else {
                None
            }
        }
        ActiveSide::Equal { .. } => None,
        ActiveSide::Coarser { .. } => None,
        ActiveSide::Finer { .. } => None,
    }
}

/// The vertex at which a face starts.
fn start_of(face: u8) -> usize
    requires { face < 4 }
    ensures value { result ≡ cells.face_start face }
    ensures small { result < 4 }
{
    match face {
        1 => 1,
        3 => 2,
        _ => 0,
    }
}

/// The vertex at which a face ends.
fn end_of(face: u8) -> usize
    requires { face < 4 }
    ensures value { result ≡ cells.face_end face }
    ensures small { result < 4 }
{
    match face {
        0 => 2,
        2 => 1,
        _ => 3,
    }
}
