ghost use Rattle.std.specs.Prelude.{ℕ, ◌+◌, ◌<◌, ◌≤◌, ◌≡◌, ◌≢◌, ◌==◌, ◌&&◌, ◌||◌, false, OnOk, IfOk, All, length, replicate, slice_index, if◌then◌else◌};
ghost use Rattle.conflict_coloring.specs.Conflict.{has, rows_of, share};
ghost use Rattle.conflict_coloring.specs.Zones.{IsZones};
ghost use Rattle.conflict_coloring.specs.Steps.{Spreads, Marks, AreSeen};
ghost use Rattle.conflict_coloring.specs.RowTable.{IsByRow};

use crate::Conflicts;
use crate::row_table::cells_at;
use fem_fixed::NoMemory;
use std::alloc::Global;

/// No zone so far.
const NONE: u32 = u32::MAX;

/// The zone of each cell.
pub fn zones_of(
    alloc: Global,
    conflicts: &Conflicts,
    starts: &[usize],
    table: &[u32],
) -> Result<Vec<u32>, NoMemory>
    requires few { length conflicts.now ≤ NONE }
    requires table { IsByRow conflicts.now starts.now table.now }
    ensures { IfOk result (λ zones. IsZones conflicts.now zones.items) }
{
    let mut zones = vec![in alloc; NONE; conflicts.len()]?;
    let mut seen = vec![in alloc; false; starts.len()]?;
    fill(alloc, conflicts, starts, table, &mut zones, &mut seen)?;
    Ok(zones)
}

// Gives zone after zone.
fn fill(
    alloc: Global,
    conflicts: &Conflicts,
    starts: &[usize],
    table: &[u32],
    zones: &mut [u32],
    seen: &mut [bool],
) -> Result<(), NoMemory>
    requires few { length conflicts.now ≤ NONE }
    requires table { IsByRow conflicts.now starts.now table.now }
    requires none { zones.old ≡ replicate (length conflicts.now) NONE }
    requires unseen { seen.old ≡ replicate (length starts.now) false }
    ensures { OnOk result (IsZones conflicts.now zones.new) }
{
    let count = zones.len();
    let mut last = Vec::new(alloc);
    let mut least = 0;
    for zone in 0..count {
        let mut next = spread(
            alloc,
            conflicts,
            starts,
            table,
            zones,
            seen,
            &last,
            zone as u32,
        )?;
        if next.is_empty() {
            least = first_without(zones, least);
            if least == count {
                return Ok(());
            }
            next.push(least as u32)?;
            zones[least] = zone as u32;
        }
        last = next;
    }
    Ok(())
}

// The least cell without a zone, from a place before which there is none.
fn first_without(zones: &[u32], from: usize) -> usize
    requires within { from ≤ length zones.now }
    requires before { (c : ℕ) → c < from → (slice_index zones.now c == NONE) ≡ false }
    ensures within { result ≤ length zones.now }
    ensures before { (c : ℕ) → c < result → (slice_index zones.now c == NONE) ≡ false }
    ensures at { result < length zones.now → slice_index zones.now result ≡ NONE }
{
    let mut at = from;
    while at < zones.len() && zones[at] != NONE {
        at += 1;
    }
    at
}

// Gives the zone to the cells without one that conflict with a cell of the last zone, and answers them.
fn spread(
    alloc: Global,
    conflicts: &Conflicts,
    starts: &[usize],
    table: &[u32],
    zones: &mut [u32],
    seen: &mut [bool],
    last: &[u32],
    zone: u32,
) -> Result<Vec<u32>, NoMemory>
    requires within { All (λ c. c < length conflicts.now) last.now }
    requires zoned { All (λ c. slice_index zones.old c ≢ NONE) last.now }
    requires table { IsByRow conflicts.now starts.now table.now }
    requires each { length zones.old ≡ length conflicts.now }
    requires seen_each { length seen.old ≡ length starts.now }
    requires seen { AreSeen conflicts.now zones.old NONE seen.old }
    requires real { zone < NONE }
    ensures spreads { IfOk result (λ next. Spreads conflicts.now zones.old zones.new last.now next.items NONE zone) }
    ensures seen_each { OnOk result (length seen.new ≡ length starts.now) }
    ensures seen { OnOk result (AreSeen conflicts.now zones.new NONE seen.new) }
{
    let mut next = Vec::new(alloc);
    for c in last {
        mark_near(conflicts, starts, table, zones, seen, &mut next, *c, zone)?;
    }
    Ok(next)
}

// Gives the zone to the cells without one that share a row with a cell, and notes them.
fn mark_near(
    conflicts: &Conflicts,
    starts: &[usize],
    table: &[u32],
    zones: &mut [u32],
    seen: &mut [bool],
    next: &mut Vec<u32>,
    cell: u32,
    zone: u32,
) -> Result<(), NoMemory>
    requires within { cell < length conflicts.now }
    requires table { IsByRow conflicts.now starts.now table.now }
    requires each { length zones.old ≡ length conflicts.now }
    requires seen_each { length seen.old ≡ length starts.now }
    requires seen { AreSeen conflicts.now zones.old NONE seen.old }
    requires noted_within { All (λ c. c < length conflicts.now) next.old.items }
    requires real { zone < NONE }
    ensures marks { OnOk result (Marks (λ d. share (rows_of conflicts.now cell) (rows_of conflicts.now d)) (length conflicts.now) zones.old zones.new next.old.items next.new.items NONE zone) }
    ensures seen_each { OnOk result (length seen.new ≡ length starts.now) }
    ensures seen { OnOk result (AreSeen conflicts.now zones.new NONE seen.new) }
{
    for row in conflicts.rows(cell) {
        mark_row(conflicts, starts, table, zones, seen, next, *row, zone)?;
    }
    Ok(())
}

// Gives the zone to the cells of a row that have none, and notes them; no row is looked at twice.
fn mark_row(
    conflicts: &Conflicts,
    starts: &[usize],
    table: &[u32],
    zones: &mut [u32],
    seen: &mut [bool],
    next: &mut Vec<u32>,
    row: u32,
    zone: u32,
) -> Result<(), NoMemory>
    requires within { row + 1 < length starts.now }
    requires table { IsByRow conflicts.now starts.now table.now }
    requires each { length zones.old ≡ length conflicts.now }
    requires seen_each { length seen.old ≡ length starts.now }
    requires seen { AreSeen conflicts.now zones.old NONE seen.old }
    requires noted_within { All (λ c. c < length conflicts.now) next.old.items }
    requires real { zone < NONE }
    ensures marks { OnOk result (Marks (λ d. has (rows_of conflicts.now d) row) (length conflicts.now) zones.old zones.new next.old.items next.new.items NONE zone) }
    ensures seen_each { OnOk result (length seen.new ≡ length starts.now) }
    ensures seen { OnOk result (AreSeen conflicts.now zones.new NONE seen.new) }
{
    if seen[row as usize] {
        return Ok(());
    }
    seen[row as usize] = true;
    mark(zones, next, cells_at(starts, table, row), zone)?;
    Ok(())
}

// Gives the zone to the cells of a list that have none, and notes them.
#[tactic(auto, using(crate::proofs::Marks::marking))]
fn mark(zones: &mut [u32], noted: &mut Vec<u32>, near: &[u32], zone: u32) -> Result<(), NoMemory>
    requires within { All (λ c. c < length zones.old) near.now }
    requires noted_within { All (λ c. c < length zones.old) noted.old.items }
    requires real { zone < NONE }
    ensures zones { OnOk result ((c : ℕ) → c < length zones.old → slice_index zones.new c ≡ (if slice_index zones.old c == NONE && has near.now c then zone else slice_index zones.old c)) }
    ensures noted { OnOk result ((c : ℕ) → c < length zones.old → has noted.new.items c ≡ (has noted.old.items c || (slice_index zones.old c == NONE && has near.now c))) }
    ensures noted_within { OnOk result (All (λ c. c < length zones.old) noted.new.items) }
{
    for c in near {
        if zones[*c as usize] == NONE {
            noted.push(*c)?;
            zones[*c as usize] = zone;
        }
    }
    Ok(())
}
