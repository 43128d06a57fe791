ghost use Rattle.std.specs.Prelude.{◌≡◌, ◌≤◌, ◌<◌, ◌+◌, ◌^◌, ℕ, length, All, IfOk, OnOk, OnErr, slice_index, slice_index_or, true};
ghost use Rattle.corner_names.specs.Names.{child as child_of};
ghost use Rattle.corner_names.specs.Table.{first, AreOneEach, IsMore, IsNumbered};
ghost use Rattle.quad_mesh.specs.Mesh.{CoarseMesh};
ghost use Rattle.hanging_refine.specs.Stored.{IsStored, stored_name, stored_names};
ghost use Rattle.hanging_refine.specs.Step.{IsDivisible, AreMiddles, AreChildren, IsNext, centre_name, stored_at, is_marked as has_mark, refined_below};

use crate::geometry::split;
use crate::stored::StoredCell;
use corner_names::CornerTable;
use fem_fixed::{NoMemory, Point};
use std::alloc::Global;

/// The next active cells: each marked cell is replaced by its four children. Where memory runs out, the
/// numbers that were given on the way are taken back.
pub fn next_cells(
    alloc: Global,
    cells: &[StoredCell],
    marks: &[bool],
    table: &mut CornerTable,
) -> Result<Vec<StoredCell>, NoMemory>
    requires marks { length marks.now ≡ length cells.now }
    requires divisible { (i : ℕ) → has_mark marks.now i ≡ true → IsDivisible table.old (stored_at cells.now i) }
    requires one { AreOneEach table.old }
    ensures names { IfOk result (λ next. stored_names next.items ≡ refined_below (has_mark marks.now) (stored_names cells.now) (length cells.now)) }
    ensures stored { IfOk result (λ next. (mesh : CoarseMesh) → All (IsStored mesh table.old) cells.now → All (IsStored mesh table.new) next.items) }
    ensures more { IsMore table.old table.new }
    ensures one { AreOneEach table.new }
    ensures same { OnErr result (table.new ≡ table.old) }
{
    let known = table.len();
    match divided_cells(alloc, cells, marks, table) {
        Ok(next) => Ok(next),
        Err(fault) => {
            table.truncate(known);
            Err(fault)
        }
    }
}

/// The next active cells, with a number for each new corner.
fn divided_cells(
    alloc: Global,
    cells: &[StoredCell],
    marks: &[bool],
    table: &mut CornerTable,
) -> Result<Vec<StoredCell>, NoMemory>
    requires marks { length marks.now ≡ length cells.now }
    requires divisible { (i : ℕ) → has_mark marks.now i ≡ true → IsDivisible table.old (stored_at cells.now i) }
    requires one { AreOneEach table.old }
    ensures names { IfOk result (λ next. stored_names next.items ≡ refined_below (has_mark marks.now) (stored_names cells.now) (length cells.now)) }
    ensures stored { IfOk result (λ next. (mesh : CoarseMesh) → All (IsStored mesh table.old) cells.now → All (IsStored mesh table.new) next.items) }
    ensures more { IsMore table.old table.new }
    ensures one { AreOneEach table.new }
{
    let mut next = Vec::new(alloc);
    for at in 0..cells.len() {
        push_next(&mut next, &cells[at], marks[at], table)?;
    }
    Ok(next)
}

/// Adds what stands in place of a cell after the step.
fn push_next(
    next: &mut Vec<StoredCell>,
    cell: &StoredCell,
    is_marked: bool,
    table: &mut CornerTable,
) -> Result<(), NoMemory>
    requires divisible { is_marked ≡ true → IsDivisible table.old cell.now }
    requires one { AreOneEach table.old }
    ensures next { OnOk result (IsNext table.old table.new cell.now is_marked next.old.items next.new.items) }
    ensures more { IsMore table.old table.new }
    ensures one { AreOneEach table.new }
{
    if is_marked {
        let four = children(cell, table)?;
        next.extend_from_slice(&four)?;
        return Ok(());
    }
    next.push(*cell)?;
    Ok(())
}

/// The four children of a cell.
fn children(cell: &StoredCell, table: &mut CornerTable) -> Result<[StoredCell; 4], NoMemory>
    requires divisible { IsDivisible table.old cell.now }
    requires one { AreOneEach table.old }
    ensures children { IfOk result (λ four. AreChildren table.old table.new cell.now four) }
    ensures more { IsMore table.old table.new }
    ensures one { AreOneEach table.new }
{
    let [a, b, c, d] = cell.corners;
    let [left, right, bottom, top] = middles(&cell.corners, table)?;
    let centre = centre(cell, table)?;
    let points = split(&cell.points);
    Ok([
        child(cell, 0, [a, bottom, left, centre], points[0]),
        child(cell, 1, [bottom, b, centre, right], points[1]),
        child(cell, 2, [left, centre, c, top], points[2]),
        child(cell, 3, [centre, right, top, d], points[3]),
    ])
}

/// The middles of the four faces.
fn middles(corners: &[u32; 4], table: &mut CornerTable) -> Result<[u32; 4], NoMemory>
    requires known { (v : ℕ) → v < 4 → slice_index corners.now v < first + length table.old }
    requires apart { (v w : ℕ) → v < 4 → w < 4 → slice_index corners.now v ≡ slice_index corners.now w → v ≡ w }
    requires one { AreOneEach table.old }
    ensures middles { IfOk result (λ numbers. AreMiddles table.old table.new corners.now numbers) }
    ensures more { IsMore table.old table.new }
    ensures one { AreOneEach table.new }
{
    let [a, b, c, d] = *corners;
    let left = table.middle(a, c)?;
    let right = table.middle(b, d)?;
    let bottom = table.middle(a, b)?;
    let top = table.middle(c, d)?;
    Ok([left, right, bottom, top])
}

/// The centre of a cell: a coarse cell has a number of its own, and each other cell is known by the
/// centre of the cell above, at which it stands.
fn centre(cell: &StoredCell, table: &mut CornerTable) -> Result<u32, NoMemory>
    requires divisible { IsDivisible table.old cell.now }
    ensures centre { IfOk result (λ n. IsNumbered table.old table.new (centre_name table.old cell.now) n) }
    ensures more { IsMore table.old table.new }
    ensures one { AreOneEach table.new }
{
    if cell.level == 0 {
        return table.coarse_centre(cell.coarse);
    }
    let number = cell.path[cell.level as usize - 1];
    table.child_centre(cell.corners[3 - number as usize], number as u32)
}

/// A child of a cell, with its corners and their points.
fn child(cell: &StoredCell, number: u8, corners: [u32; 4], points: [Point; 4]) -> StoredCell
    requires level { cell.now.level < 12 }
    requires room { length cell.now.path ≡ 12 }
    ensures name { stored_name result ≡ child_of (stored_name cell.now) number }
    ensures corners { result.corners ≡ corners }
    ensures points { result.points ≡ points }
    ensures level { result.level ≡ cell.now.level + 1 }
    ensures room { length result.path ≡ 12 }
{
    let mut path = cell.path;
    path[cell.level as usize] = number;
    StoredCell {
        coarse: cell.coarse,
        level: cell.level + 1,
        path,
        corners,
        points,
    }
}
