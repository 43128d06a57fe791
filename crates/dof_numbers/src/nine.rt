ghost use Rattle.std.specs.Prelude.{◌≡◌, ◌+◌, ◌<◌, ◌≤◌, ◌^◌, length, IfOk, OnOk};
ghost use Rattle.hanging_refine.specs.Grown.{IsGrown};
ghost use Rattle.hanging_refine.specs.Numbered.{AreNamedBy};
ghost use Rattle.dof_numbers.specs.Dofs.{middle_dof as middle_dof_of};
ghost use Rattle.dof_numbers.specs.Table.{told, Holds, seen_below, seen_faces, HaveMiddles, IsRow};

use crate::middle::middle_number;
use crate::table::Table;
use fem_fixed::NoMemory;
use hanging_refine::{ActiveSide, Forest};

/// The dofs of degree 2 of a cell, from those of the cells before it: of the vertices, of the middles of the
/// faces, and of the centre.
pub fn nine_dofs(
    table: &mut Table,
    forest: &Forest,
    rows: &[[u32; 9]],
    cell: u32,
) -> Result<[u32; 9], NoMemory>
    requires grown { IsGrown forest.now }
    requires cell { cell < length forest.now.cells }
    requires rows { length rows.now ≡ cell }
    requires room { table.old.size + 9 < 2 ^ 32 }
    requires middles { HaveMiddles forest.now cell rows.now }
    requires holds { Holds forest.now (seen_below 2 forest.now cell) (told table.old.nodes.items table.old.others.items) table.old.size }
    ensures nine { IfOk result (λ row. length row ≡ 9) }
    ensures small { table.new.size ≤ table.old.size + 9 }
    ensures holds { OnOk result (Holds forest.now (seen_below 2 forest.now (cell + 1)) (told table.new.nodes.items table.new.others.items) table.new.size) }
    ensures row { IfOk result (IsRow forest.now cell) }
{
    let vertices = table.cell(forest.corners(cell))?;
    let left = middle_dof(table, forest, rows, cell, 0)?;
    let right = middle_dof(table, forest, rows, cell, 1)?;
    let bottom = middle_dof(table, forest, rows, cell, 2)?;
    let top = middle_dof(table, forest, rows, cell, 3)?;
    let [a, b, c, d] = vertices;
    Ok([a, b, c, d, left, right, bottom, top, table.next()])
}

/// The dof of the middle of a face. Where an earlier cell has the same face, it is the one that this cell has
/// there; where two smaller cells lie at the face, it is that of their common corner; else it is the next one.
fn middle_dof(
    table: &mut Table,
    forest: &Forest,
    rows: &[[u32; 9]],
    cell: u32,
    face: u8,
) -> Result<u32, NoMemory>
    requires grown { IsGrown forest.now }
    requires named { AreNamedBy forest.now }
    requires cell { cell < length forest.now.cells }
    requires face { face < 4 }
    requires rows { length rows.now ≡ cell }
    requires room { table.old.size + 1 < 2 ^ 32 }
    requires middles { HaveMiddles forest.now cell rows.now }
    requires holds { Holds forest.now (seen_faces forest.now cell face) (told table.old.nodes.items table.old.others.items) table.old.size }
    ensures small { table.new.size ≤ table.old.size + 1 }
    ensures holds { OnOk result (Holds forest.now (seen_faces forest.now cell (face + 1)) (told table.new.nodes.items table.new.others.items) table.new.size) }
    ensures dof { IfOk result (λ dof. dof ≡ middle_dof_of forest.now cell face) }
{
    match forest.side(cell, face) {
        ActiveSide::Boundary(_) => Ok(table.next()),
        ActiveSide::Equal {
            cell: there,
            face: beyond,
        } => {
            if there < cell {
                return Ok(rows[there as usize][4 + beyond as usize]);
            }
            Ok(table.next())
        }
        ActiveSide::Coarser { .. } => Ok(table.next()),
        ActiveSide::Finer { cells, faces } => {
            let dof = table.corner(middle_number(forest, cell, face, cells[0], faces[0]))?;
            Ok(dof)
        }
    }
}
