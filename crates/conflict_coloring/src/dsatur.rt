ghost use Rattle.std.specs.Prelude.{ℕ, ◌+◌, ◌-◌, ◌<◌, ◌≤◌, ◌≡◌, ◌≢◌, ◌==◌, ◌&&◌, ◌||◌, not, true, false, OnOk, IfOk, All, ◌∷◌, [], length, slice_index, slice_set};
ghost use Rattle.std.specs.BTreeSet.{contains};
ghost use Rattle.conflict_coloring.specs.Conflict.{has};
ghost use Rattle.conflict_coloring.specs.Colours.{IsColoured, cells_of, degree};
ghost use Rattle.conflict_coloring.specs.Links.{IsLinked, is_bare};
ghost use Rattle.conflict_coloring.specs.Near.{AreNear, near_of};
ghost use Rattle.conflict_coloring.specs.Board.{IsBoard, IsShort, pair_cmp};

use crate::Conflicts;
use crate::cut::list_at;
use fem_fixed::NoMemory;
use std::alloc::Global;
use std::collections::BTreeSet;

/// No colour so far.
pub const BARE: u32 = u32::MAX;

// How many neighbours a cell has in its zone.
#[tactic(auto, unfolding(crate::specs::Colours::degree))]
fn degree_at(
    conflicts: &Conflicts,
    zones: &[u32],
    ends: &[usize],
    items: &[u32],
    zone: u32,
    cell: u32,
) -> usize
    requires within { cell < length conflicts.now }
    requires near { AreNear conflicts.now zones.now (length conflicts.now) ends.now items.now }
    requires zone { slice_index zones.now cell ≡ zone }
    ensures { result ≡ degree conflicts.now (cells_of zones.now zone) cell }
{
    let _cells = conflicts.len();
    list_at(ends, items, cell as usize).len()
}

// Notes that a cell has a neighbour of a colour, and mends its key.
fn note(
    conflicts: &Conflicts,
    zones: &[u32],
    ends: &[usize],
    items: &[u32],
    zone: u32,
    colours: &[u32],
    counts: &mut [usize],
    used: &mut BTreeSet<(u32, u32)>,
    keys: &mut BTreeSet<(usize, usize, u32)>,
    other: u32,
    colour: u32,
) -> Result<(), NoMemory>
    requires within { other < length conflicts.now }
    requires near { AreNear conflicts.now zones.now (length conflicts.now) ends.now items.now }
    requires coloured { length colours.now ≡ length conflicts.now }
    requires sized { length counts.old ≡ length conflicts.now }
    requires few { length conflicts.now ≤ BARE }
    requires real { colour < BARE }
    requires zone { slice_index zones.now other ≡ zone }
    requires inside { has (cells_of zones.now zone) other ≡ true }
    requires board { IsBoard conflicts.now (cells_of zones.now zone) (is_bare (cells_of zones.now zone) colours.now BARE) counts.old used.old keys.old }
    ensures board { OnOk result (IsBoard conflicts.now (cells_of zones.now zone) (is_bare (cells_of zones.now zone) colours.now BARE) counts.new used.new keys.new) }
    ensures used { OnOk result ((d k : ℕ) → contains pair_cmp used.new (d, k) ≡ (contains pair_cmp used.old (d, k) || (is_bare (cells_of zones.now zone) colours.now BARE other && (other == d && colour == k)))) }
    ensures kept { OnOk result ((d : ℕ) → d ≢ other → slice_index counts.new d ≡ slice_index counts.old d) }
{
    if colours[other as usize] != BARE {
        return Ok(());
    }
    if used.contains(&(other, colour)) {
        return Ok(());
    }
    let degree = degree_at(conflicts, zones, ends, items, zone, other);
    let count = counts[other as usize];
    let more = count + 1;
    keys.remove(&(count, degree, u32::MAX - other));
    used.insert((other, colour))?;
    counts[other as usize] = more;
    keys.insert((more, degree, u32::MAX - other))?;
    Ok(())
}

// The least colour that is not noted for a cell.
fn least_free(used: &BTreeSet<(u32, u32)>, cell: u32) -> u32
    requires { IsShort used.now cell BARE }
    ensures free { contains pair_cmp used.now (cell, result) ≡ false }
    ensures least { (j : ℕ) → j < result → contains pair_cmp used.now (cell, j) ≡ true }
    ensures real { result < BARE }
{
    let mut colour = 0;
    while used.contains(&(cell, colour)) {
        colour += 1;
    }
    colour
}

// Colours one cell, whose key is out, and mends the keys of its neighbours.
fn pick(
    conflicts: &Conflicts,
    zones: &[u32],
    ends: &[usize],
    items: &[u32],
    zone: u32,
    cell: u32,
    colours: &mut [u32],
    counts: &mut [usize],
    used: &mut BTreeSet<(u32, u32)>,
    keys: &mut BTreeSet<(usize, usize, u32)>,
) -> Result<u32, NoMemory>
    requires within { cell < length conflicts.now }
    requires near { AreNear conflicts.now zones.now (length conflicts.now) ends.now items.now }
    requires each { length zones.now ≡ length conflicts.now }
    requires coloured { length colours.old ≡ length conflicts.now }
    requires sized { length counts.old ≡ length conflicts.now }
    requires few { length conflicts.now ≤ BARE }
    requires zone { slice_index zones.now cell ≡ zone }
    requires is_short { IsShort used.old cell BARE }
    requires board { IsBoard conflicts.now (cells_of zones.now zone) (λ d. is_bare (cells_of zones.now zone) colours.old BARE d && not (has (cell ∷ []) d)) counts.old used.old keys.old }
    ensures real { IfOk result (λ colour. colour < BARE) }
    ensures colours { IfOk result (λ colour. colours.new ≡ slice_set colours.old cell colour) }
    ensures free { IfOk result (λ colour. contains pair_cmp used.old (cell, colour) ≡ false) }
    ensures least { IfOk result (λ colour. (j : ℕ) → j < colour → contains pair_cmp used.old (cell, j) ≡ true) }
    ensures board { OnOk result (IsBoard conflicts.now (cells_of zones.now zone) (is_bare (cells_of zones.now zone) colours.new BARE) counts.new used.new keys.new) }
    ensures used { IfOk result (λ colour. (d k : ℕ) → contains pair_cmp used.new (d, k) ≡ (contains pair_cmp used.old (d, k) || (has (near_of conflicts.now zones.now cell) d && (is_bare (cells_of zones.now zone) colours.new BARE d && colour == k)))) }
    ensures kept { OnOk result ((d : ℕ) → has (cells_of zones.now zone) d ≡ false → slice_index counts.new d ≡ slice_index counts.old d) }
{
    let colour = least_free(used, cell);
    colours[cell as usize] = colour;
    for other in list_at(ends, items, cell as usize) {
        note(
            conflicts, zones, ends, items, zone, colours, counts, used, keys, *other, colour,
        )?;
    }
    Ok(colour)
}

/// The cells of a zone with their colours, in the order of choice.
pub fn colour_zone(
    alloc: Global,
    conflicts: &Conflicts,
    zones: &[u32],
    ends: &[usize],
    items: &[u32],
    zone: u32,
    cells: &[u32],
    colours: &mut [u32],
    counts: &mut [usize],
) -> Result<Vec<(u32, u32)>, NoMemory>
    requires near { AreNear conflicts.now zones.now (length conflicts.now) ends.now items.now }
    requires each { length zones.now ≡ length conflicts.now }
    requires coloured { length colours.old ≡ length conflicts.now }
    requires sized { length counts.old ≡ length conflicts.now }
    requires few { length conflicts.now ≤ BARE }
    requires cells { cells.now ≡ cells_of zones.now zone }
    requires bare { (d : ℕ) → has (cells_of zones.now zone) d ≡ true → slice_index colours.old d ≡ BARE }
    requires zero { (d : ℕ) → has (cells_of zones.now zone) d ≡ true → slice_index counts.old d ≡ 0 }
    ensures picks { IfOk result (λ picks. IsColoured conflicts.now (cells_of zones.now zone) picks.items) }
    ensures colours { IfOk result (λ picks. IsLinked (cells_of zones.now zone) colours.new BARE picks.items) }
    ensures kept { OnOk result ((d : ℕ) → has (cells_of zones.now zone) d ≡ false → slice_index colours.new d ≡ slice_index colours.old d) }
    ensures kept_counts { OnOk result ((d : ℕ) → has (cells_of zones.now zone) d ≡ false → slice_index counts.new d ≡ slice_index counts.old d) }
{
    let mut used = BTreeSet::new(alloc);
    let mut keys = BTreeSet::new(alloc);
    for cell in cells {
        let degree = degree_at(conflicts, zones, ends, items, zone, *cell);
        keys.insert((counts[*cell as usize], degree, u32::MAX - *cell))?;
    }
    let mut picks = Vec::new(alloc);
    while let Some(key) = keys.pop_last() {
        let cell = u32::MAX - key.2;
        let colour = pick(
            conflicts, zones, ends, items, zone, cell, colours, counts, &mut used, &mut keys,
        )?;
        picks.push((cell, colour))?;
    }
    Ok(picks)
}
