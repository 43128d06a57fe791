ghost use Rattle.std.specs.Prelude.{◌≡◌, ◌<◌, ◌≤◌, ◌++◌, ◌∷◌, [], ℕ, All, length, map, IfOk, IfErr, OnOk};
ghost use Rattle.std.specs.List.{flat_map};
ghost use Rattle.std.specs.List.Sorted.{IsStrictlyIncreasing};
ghost use Rattle.cell_blocks.specs.Blocks.{visit_dofs, face_dofs};
ghost use Rattle.mesh_visits.specs.Within.{IsVisitWithin, IsFit};
ghost use Rattle.sparsity.specs.Coupled.{has, pairs_of};
ghost use Rattle.sparsity.specs.declared.fault.PatternFault.TheVariants.{Limit as AboveLimit};
ghost use Rattle.mesh_loop.specs.Setup.{IsMatched, cells_of, cell_visits, visit_masters, visit_rows, coupled_dofs, written_rows};
ghost use Rattle.mesh_loop.specs.Parts.{shown, IsVisitBelow, IsCellFit, ArePartsOf};

use crate::limits::look_up;
use crate::masters::push_masters;
use crate::source::Source;
use crate::visited::visits_by_cell;
use compressed_lists::Lists;
use fem_fixed::NoMemory;
use mesh_visits::Visit;
use sparsity::{Couplings, Pattern, PatternFault};
use std::alloc::Global;
use std::thread::Threads;

/// What comes of a source: the visits of each cell, the rows that it writes, and the pattern.
#[derive(Drop)]
pub struct Parts {
    pub visits: Lists<Visit>,
    pub rows: Lists<u32>,
    pub pattern: Pattern,
}

/// Makes the parts of a source.
pub fn make_parts(
    rt: &(impl Threads + Sync),
    alloc: Global,
    source: &Source,
) -> Result<Parts, PatternFault>
    requires { IsMatched (shown source.now) }
    ensures parts { IfOk result (ArePartsOf (shown source.now)) }
    ensures within { OnOk result (pairs_of (coupled_dofs (shown source.now)) ≤ 33554432) }
    ensures limit { IfErr result (λ fault. fault ≡ AboveLimit → 33554432 < pairs_of (coupled_dofs (shown source.now))) }
{
    let visits = visits_by_cell(alloc, source)?;
    let gathered = gather(alloc, source, &visits)?;
    let pattern = Pattern::build(rt, alloc, &gathered.couplings)?;
    Ok(Parts {
        visits,
        rows: gathered.rows,
        pattern,
    })
}

/// The lists of dofs that couple, and the rows that each cell writes.
#[derive(Drop)]
struct Gathered {
    couplings: Couplings,
    rows: Lists<u32>,
}

/// Gathers over all cells, in one pass.
fn gather(alloc: Global, source: &Source, visits: &Lists<Visit>) -> Result<Gathered, NoMemory>
    requires matched { IsMatched (shown source.now) }
    requires visits { visits.now ≡ map (cell_visits (shown source.now)) (cells_of (shown source.now)) }
    requires fit { (cell : ℕ) → cell < length (shown source.now).given.forest.cells → IsFit (shown source.now).given.forest 9 4 8 (cell_visits (shown source.now) cell) }
    ensures couplings { IfOk result (λ gathered. gathered.couplings ≡ coupled_dofs (shown source.now)) }
    ensures rows { IfOk result (λ gathered. gathered.rows ≡ map (written_rows (shown source.now)) (cells_of (shown source.now))) }
    ensures below { OnOk result ((cell : ℕ) → cell < length (shown source.now).given.forest.cells → All (IsVisitBelow (shown source.now) cell) (cell_visits (shown source.now) cell)) }
{
    let mut couplings = Couplings::new(alloc, source.setting.dofs.size());
    let mut rows = Lists::new(alloc);
    let mut room = Room {
        dofs: Vec::new(alloc),
        masters: Vec::new(alloc),
        rows: Vec::new(alloc),
    };
    for cell in 0..source.setting.forest.cells() {
        room.rows.clear();
        add_cell(
            &mut couplings,
            &mut room,
            source,
            cell,
            visits.get(cell as usize),
        )?;
        sort_unique(&mut room.rows);
        rows.push(&room.rows)?;
    }
    Ok(Gathered { couplings, rows })
}

/// Room for the dofs of a visit, for their masters, and for the rows of a cell.
#[derive(Drop)]
struct Room {
    dofs: Vec<u32>,
    masters: Vec<u32>,
    rows: Vec<u32>,
}

/// Adds what the visits of a cell couple, and the rows that they write.
fn add_cell(
    couplings: &mut Couplings,
    room: &mut Room,
    source: &Source,
    cell: u32,
    visits: &[Visit],
) -> Result<(), NoMemory>
    requires matched { IsMatched (shown source.now) }
    requires cell { cell < length (shown source.now).given.forest.cells }
    requires visits { All (IsVisitWithin (shown source.now).given.forest) visits.now }
    requires size { couplings.old.size ≡ (shown source.now).given.dofs.size }
    ensures couplings { OnOk result (couplings.new ≡ record { size = couplings.old.size; lists = couplings.old.lists ++ map (visit_masters (shown source.now) cell) visits.now }) }
    ensures rows { OnOk result (room.new.rows.items ≡ room.old.rows.items ++ flat_map (visit_rows (shown source.now) cell) visits.now) }
    ensures below { OnOk result (All (IsVisitBelow (shown source.now) cell) visits.now) }
{
    for visit in visits {
        add_visit(couplings, room, source, cell, *visit)?;
    }
    Ok(())
}

/// Adds what a visit of a cell couples, and the rows that it writes.
fn add_visit(
    couplings: &mut Couplings,
    room: &mut Room,
    source: &Source,
    cell: u32,
    visit: Visit,
) -> Result<(), NoMemory>
    requires matched { IsMatched (shown source.now) }
    requires cell { cell < length (shown source.now).given.forest.cells }
    requires visit { IsVisitWithin (shown source.now).given.forest visit }
    requires size { couplings.old.size ≡ (shown source.now).given.dofs.size }
    ensures couplings { OnOk result (couplings.new ≡ record { size = couplings.old.size; lists = couplings.old.lists ++ visit_masters (shown source.now) cell visit ∷ [] }) }
    ensures rows { OnOk result (room.new.rows.items ≡ room.old.rows.items ++ visit_rows (shown source.now) cell visit) }
    ensures below { OnOk result (IsVisitBelow (shown source.now) cell visit) }
{
    look_up(&source.setting, cell, visit);
    room.dofs.clear();
    push_dofs(&mut room.dofs, source, cell, visit)?;
    room.masters.clear();
    push_masters(&mut room.masters, source.closed, &room.dofs)?;
    couplings.add(&room.masters)?;
    room.rows.extend_from_slice(&room.dofs)?;
    room.rows.extend_from_slice(&room.masters)?;
    Ok(())
}

/// Adds the dofs of a visit of a cell.
fn push_dofs(list: &mut Vec<u32>, source: &Source, cell: u32, visit: Visit) -> Result<(), NoMemory>
    requires matched { IsMatched (shown source.now) }
    requires cell { cell < length (shown source.now).given.forest.cells }
    requires visit { IsVisitWithin (shown source.now).given.forest visit }
    ensures value { OnOk result (list.new.items ≡ list.old.items ++ visit_dofs (shown source.now).given cell visit) }
    ensures below { OnOk result (All (λ dof. dof < (shown source.now).given.dofs.size) (visit_dofs (shown source.now).given cell visit)) }
{
    match visit {
        Visit::Cell => push_cell_dofs(list, source, cell),
        Visit::Boundary { face, .. } => push_face_dofs(list, source, cell, face),
        Visit::Interior { other, .. } => {
            push_cell_dofs(list, source, cell)?;
            push_cell_dofs(list, source, other)?;
            Ok(())
        }
    }
}

/// Adds the dofs of a cell.
fn push_cell_dofs(list: &mut Vec<u32>, source: &Source, cell: u32) -> Result<(), NoMemory>
    requires matched { IsMatched (shown source.now) }
    requires cell { cell < length (shown source.now).given.forest.cells }
    ensures value { OnOk result (list.new.items ≡ list.old.items ++ visit_dofs (shown source.now).given cell Visit.Cell) }
    ensures below { OnOk result (All (λ dof. dof < (shown source.now).given.dofs.size) (visit_dofs (shown source.now).given cell Visit.Cell)) }
{
    list.extend_from_slice(source.setting.dofs.of_cell(cell))?;
    Ok(())
}

/// Adds the dofs of a face of a cell.
fn push_face_dofs(list: &mut Vec<u32>, source: &Source, cell: u32, face: u8) -> Result<(), NoMemory>
    requires matched { IsMatched (shown source.now) }
    requires cell { cell < length (shown source.now).given.forest.cells }
    requires face { face < 4 }
    ensures value { OnOk result (list.new.items ≡ list.old.items ++ face_dofs (shown source.now).given cell face) }
    ensures below { OnOk result (All (λ dof. dof < (shown source.now).given.dofs.size) (face_dofs (shown source.now).given cell face)) }
{
    if source.setting.dofs.degree() == 2 {
        let dofs = source.setting.end_and_middle_dofs(cell, face);
        list.extend_from_slice(&dofs)?;
        return Ok(());
    }
    let ends = source.setting.end_dofs(cell, face);
    list.extend_from_slice(&ends)?;
    Ok(())
}

/// Sorts numbers and leaves each once.
fn sort_unique(list: &mut Vec<u32>)
    ensures rises { IsStrictlyIncreasing list.new.items }
    ensures same { (d : ℕ) → has list.new.items d ≡ has list.old.items d }
{
    list.sort_unstable();
    list.dedup();
}
