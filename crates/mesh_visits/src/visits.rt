ghost use Rattle.std.specs.Prelude.{◌≡◌, ◌<◌, ◌++◌, ◌∷◌, [], ℕ, filter, length, map, IfOk, OnOk};
ghost use Rattle.std.specs.List.{range_with_len, list_any};
ghost use Rattle.hanging_refine.specs.Grown.{IsGrown};
ghost use Rattle.mesh_visits.specs.Within.{IsFit};
ghost use Rattle.mesh_visits.specs.Visits.{all_visits, faces_visits, face_visits};
ghost use Rattle.mesh_visits.specs.Runs.{visits_of, subdomain_in, outer_visits};
ghost use Rattle.mesh_visits.specs.Steps.{subdomain_by, has_own, chooses, leads_to_own, run_visits};

use crate::run::{Run, is_own};
use crate::side::{is_beside_own, push_chosen, push_side};
use crate::{Flags, Visit};
use compressed_lists::Lists;
use fem_fixed::NoMemory;
use hanging_refine::Forest;
use std::alloc::Global;

/// The visits of each active cell, in order, as the flags ask for them: of the cell itself, of its faces at
/// the boundary and of its parts of interior faces. The list has the subdomain of each active cell; a cell
/// that it doesn't have belongs to subdomain 0. It is read only where the flags name a subdomain.
///
/// It takes one pass over the cells.
pub fn make_visits(
    alloc: Global,
    forest: &Forest,
    flags: Flags,
    subdomains: &[u32],
) -> Result<Lists<Visit>, NoMemory>
    ensures visits { IfOk result (λ lists. lists ≡ map (visits_of (subdomain_in subdomains.now) flags forest.now) (range_with_len 0 (length forest.now.cells))) }
    ensures fit { IfOk result (λ lists. (cell : ℕ) → cell < length forest.now.cells → IsFit forest.now 9 4 8 (visits_of (subdomain_in subdomains.now) flags forest.now cell)) }
{
    let run = Run { flags, subdomains };
    let mut lists = Lists::new(alloc);
    let mut room = Vec::new(alloc);
    for cell in 0..forest.cells() {
        room.clear();
        push_cell(&mut room, &run, forest, cell)?;
        lists.push(&room)?;
    }
    Ok(lists)
}

/// Adds the visits of a cell.
fn push_cell(visits: &mut Vec<Visit>, run: &Run, forest: &Forest, cell: u32) -> Result<(), NoMemory>
    requires grown { IsGrown forest.now }
    requires cell { cell < length forest.now.cells }
    ensures visits { OnOk result (visits.new.items ≡ visits.old.items ++ run_visits run.now forest.now cell) }
    ensures fit { OnOk result (IsFit forest.now 9 4 8 (run_visits run.now forest.now cell)) }
{
    if is_own(run, cell) {
        push_own_cell(visits, run, forest, cell)
    } else {
        push_other_cell(visits, run, forest, cell)
    }
}

/// Adds the chosen visits of an own cell.
fn push_own_cell(
    visits: &mut Vec<Visit>,
    run: &Run,
    forest: &Forest,
    cell: u32,
) -> Result<(), NoMemory>
    requires grown { IsGrown forest.now }
    requires cell { cell < length forest.now.cells }
    ensures visits { OnOk result (visits.new.items ≡ visits.old.items ++ filter (chooses run.now cell) (all_visits run.now.flags.cells_after_faces forest.now cell)) }
    ensures fit { OnOk result (IsFit forest.now 9 4 8 (all_visits run.now.flags.cells_after_faces forest.now cell)) }
{
    if run.flags.cells_after_faces {
        push_faces(visits, run, forest, cell)?;
        push_chosen(visits, run, cell, Visit::Cell)
    } else {
        push_chosen(visits, run, cell, Visit::Cell)?;
        push_faces(visits, run, forest, cell)
    }
}

/// Adds the chosen visits of the faces of an own cell.
fn push_faces(
    visits: &mut Vec<Visit>,
    run: &Run,
    forest: &Forest,
    cell: u32,
) -> Result<(), NoMemory>
    requires grown { IsGrown forest.now }
    requires cell { cell < length forest.now.cells }
    ensures visits { OnOk result (visits.new.items ≡ visits.old.items ++ filter (chooses run.now cell) (faces_visits forest.now cell)) }
    ensures fit { OnOk result (IsFit forest.now 8 4 8 (faces_visits forest.now cell)) }
{
    push_face(visits, run, forest, cell, 0)?;
    push_face(visits, run, forest, cell, 1)?;
    push_face(visits, run, forest, cell, 2)?;
    push_face(visits, run, forest, cell, 3)
}

/// Adds the chosen visits of a face of an own cell.
#[tactic(auto, using(crate::proofs::BySide::face_by_side, crate::proofs::Fits::face_fit))]
fn push_face(
    visits: &mut Vec<Visit>,
    run: &Run,
    forest: &Forest,
    cell: u32,
    face: u8,
) -> Result<(), NoMemory>
    requires grown { IsGrown forest.now }
    requires cell { cell < length forest.now.cells }
    requires face { face < 4 }
    ensures visits { OnOk result (visits.new.items ≡ visits.old.items ++ filter (chooses run.now cell) (face_visits forest.now (cell, face))) }
    ensures fit { IsFit forest.now 2 1 2 (face_visits forest.now (cell, face)) }
{
    let side = forest.side(cell, face);
    push_side(visits, run, cell, face, side)
}

/// Adds the visit of a cell that isn't own, where it is a ghost and ghosts are visited.
fn push_other_cell(
    visits: &mut Vec<Visit>,
    run: &Run,
    forest: &Forest,
    cell: u32,
) -> Result<(), NoMemory>
    requires grown { IsGrown forest.now }
    requires cell { cell < length forest.now.cells }
    ensures { OnOk result (visits.new.items ≡ visits.old.items ++ outer_visits (subdomain_by run.now) run.now.flags (all_visits run.now.flags.cells_after_faces forest.now cell)) }
{
    if run.flags.ghost_cells && is_ghost(run, forest, cell) {
        visits.push(Visit::Cell)?;
    }
    Ok(())
}

/// Whether a cell meets an own one at a part of a face.
fn is_ghost(run: &Run, forest: &Forest, cell: u32) -> bool
    requires grown { IsGrown forest.now }
    requires cell { cell < length forest.now.cells }
    ensures { result ≡ list_any (leads_to_own run.now) (faces_visits forest.now cell) }
{
    for face in 0..4 {
        if meets_own(run, forest, cell, face) {
            return true;
        }
    }
    false
}

/// Whether a cell meets an own one at a part of this face.
#[tactic(auto, using(crate::proofs::BySide::face_by_side))]
fn meets_own(run: &Run, forest: &Forest, cell: u32, face: u8) -> bool
    requires grown { IsGrown forest.now }
    requires cell { cell < length forest.now.cells }
    requires face { face < 4 }
    ensures { result ≡ list_any (leads_to_own run.now) (face_visits forest.now (cell, face)) }
{
    let side = forest.side(cell, face);
    is_beside_own(run, face, side)
}
