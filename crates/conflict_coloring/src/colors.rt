ghost use Rattle.std.specs.Prelude.{ℕ, ◌+◌, ◌<◌, ◌≤◌, ◌^◌, ◌≡◌, IfOk, OnOk, All, length, slice_index, replicate};
ghost use Rattle.std.specs.List.{range_with_len};
ghost use Rattle.conflict_coloring.specs.Colours.{order_of, AreInZones, IsShift, whole};
ghost use Rattle.conflict_coloring.specs.Near.{AreNear};
ghost use Rattle.conflict_coloring.specs.Coloring.{IsColoring};
ghost use Rattle.conflict_coloring.specs.Top.{IsRaised};

use crate::Conflicts;
use crate::dsatur::{BARE, colour_zone};
use crate::near::near_in_zones;
use crate::order::order_by;
use crate::ranks::{all_rows, ranked};
use crate::row_table::{above, by_row, cells_at};
use crate::zones::zones_of;
use fem_fixed::NoMemory;
use std::alloc::Global;
use std::marker::Model;

/// The zone and the colour of each cell, and the cells by colour. Contracts see a record of these lists.
#[derive(Drop)]
pub struct Colors {
    zones: Vec<u32>,
    colours: Vec<u32>,
    order: Vec<u32>,
    starts: Vec<u32>,
}

impl Model for Colors {
    ghost use Rattle.conflict_coloring.specs.Coloring.{Coloring};

    ghost Value = { Coloring };

    ghost view = { λ c. record { zones = c.zones.items; colors = c.colours.items; order = c.order.items; starts = c.starts.items } };
}

impl Colors {
    /// The zone of a cell.
    pub fn zone(&self, cell: u32) -> u32
        requires { cell < length self.now.zones }
        ensures { result ≡ slice_index self.now.zones cell }
    {
        self.zones[cell as usize]
    }

    /// The colour of a cell.
    pub fn color(&self, cell: u32) -> u32
        requires { cell < length self.now.colors }
        ensures { result ≡ slice_index self.now.colors cell }
    {
        self.colours[cell as usize]
    }

    /// The cells by rising colour, those of one colour rising.
    pub fn order(&self) -> &[u32]
        ensures { result.now ≡ self.now.order }
    {
        &self.order
    }

    /// Where each colour starts in the order, and where the last one ends: one number more than there are
    /// colours.
    pub fn starts(&self) -> &[u32]
        ensures { result.now ≡ self.now.starts }
    {
        &self.starts
    }
}

/// Colours the cells so that no two of one colour conflict: zones by breadth first, as
/// `GraphColoring::make_graph_coloring` of the deal.II manual makes them, each coloured by DSATUR (Brélaz,
/// New methods to color the vertices of a graph, 1979). The colours of odd zones stand behind those of
/// even ones.
///
/// It takes time near linear in the rows of all cells and in the pairs of cells that conflict inside
/// their zones. Where a row is above the number of all rows, they are ranked before.
pub fn color(alloc: Global, conflicts: &Conflicts) -> Result<Colors, NoMemory>
    ensures { IfOk result (IsColoring conflicts.now) }
{
    let mut rows = all_rows(alloc, conflicts)?;
    if above(&rows) <= rows.len() {
        return colored(alloc, conflicts);
    }
    rows.sort_unstable();
    let ranked = ranked(alloc, conflicts, &rows)?;
    let colors = colored(alloc, &ranked)?;
    Ok(colors)
}

// The colouring, over a table as long as the greatest row.
fn colored(alloc: Global, conflicts: &Conflicts) -> Result<Colors, NoMemory>
    ensures { IfOk result (IsColoring conflicts.now) }
{
    let numbers = numbers(alloc, conflicts.len())?;
    let by_row = by_row(alloc, conflicts)?;
    let zones = zones_of(alloc, conflicts, &by_row.starts, &by_row.cells)?;
    let near = near_in_zones(alloc, conflicts, &by_row.starts, &by_row.cells, &zones)?;
    let inside = inner(alloc, conflicts, &near.ends, &near.cells, &zones, &numbers)?;
    let shift = top_even(&zones, &inside);
    let colours = shifted(alloc, &zones, &inside, shift)?;
    let count = above(&colours);
    let order = order_by(alloc, &colours, &numbers, count)?;
    let starts = narrowed(alloc, &order.starts)?;
    Ok(Colors {
        zones,
        colours,
        order: order.cells,
        starts,
    })
}

// The numbers below a count.
#[tactic(auto, using(crate::proofs::Ranges::range_more))]
fn numbers(alloc: Global, count: usize) -> Result<Vec<u32>, NoMemory>
    requires { count ≤ 2 ^ 32 }
    ensures { IfOk result (λ numbers. numbers.items ≡ range_with_len 0 count) }
{
    let mut numbers = Vec::new(alloc);
    for i in 0..count {
        numbers.push(i as u32)?;
    }
    Ok(numbers)
}

// Colours zone after zone.
fn inner(
    alloc: Global,
    conflicts: &Conflicts,
    ends: &[usize],
    items: &[u32],
    zones: &[u32],
    numbers: &[u32],
) -> Result<Vec<u32>, NoMemory>
    requires near { AreNear conflicts.now zones.now (length conflicts.now) ends.now items.now }
    requires each { length zones.now ≡ length conflicts.now }
    requires few { length conflicts.now ≤ BARE }
    requires numbers { numbers.now ≡ range_with_len 0 (length zones.now) }
    ensures each { IfOk result (λ colours. length colours.items ≡ length conflicts.now) }
    ensures inner { IfOk result (λ colours. AreInZones conflicts.now zones.now colours.items) }
{
    let mut colours = vec![in alloc; BARE; zones.len()]?;
    let mut counts = vec![in alloc; 0usize; zones.len()]?;
    let count = above(zones);
    let order = order_by(alloc, zones, numbers, count)?;
    colour_all(
        alloc,
        conflicts,
        ends,
        items,
        zones,
        &order.starts,
        &order.cells,
        count,
        &mut colours,
        &mut counts,
    )?;
    Ok(colours)
}

// Colours the zones below a count.
fn colour_all(
    alloc: Global,
    conflicts: &Conflicts,
    ends: &[usize],
    items: &[u32],
    zones: &[u32],
    starts: &[usize],
    cells: &[u32],
    count: usize,
    colours: &mut [u32],
    counts: &mut [usize],
) -> Result<(), NoMemory>
    requires near { AreNear conflicts.now zones.now (length conflicts.now) ends.now items.now }
    requires each { length zones.now ≡ length conflicts.now }
    requires few { length conflicts.now ≤ BARE }
    requires zones { All (λ z. z < count) zones.now }
    requires few_zones { count ≤ 2 ^ 32 }
    requires starts { (k : ℕ) → k ≤ count → slice_index starts.now k ≡ length (order_of zones.now k) }
    requires starts_each { length starts.now ≡ count + 1 }
    requires cells { cells.now ≡ order_of zones.now count }
    requires bare { colours.old ≡ replicate (length zones.now) BARE }
    requires zero { counts.old ≡ replicate (length zones.now) 0 }
    ensures { OnOk result (AreInZones conflicts.now zones.now colours.new) }
{
    for zone in 0..count {
        let part = cells_at(starts, cells, zone as u32);
        let _picks = colour_zone(
            alloc,
            conflicts,
            zones,
            ends,
            items,
            zone as u32,
            part,
            colours,
            counts,
        )?;
    }
    Ok(())
}

// One more than the greatest colour of the even zones.
fn top_even(zones: &[u32], inside: &[u32]) -> u32
    requires each { length zones.now ≡ length inside.now }
    requires few { All (λ k. k < BARE) inside.now }
    ensures { IsShift zones.now inside.now result }
{
    let mut top = 0;
    for cell in 0..zones.len() {
        top = raised(top, zones[cell], inside[cell]);
    }
    top
}

// The greater of a number, and one more than the colour of an even zone.
fn raised(top: u32, zone: u32, colour: u32) -> u32
    requires { colour < BARE }
    ensures { IsRaised top zone colour result }
{
    if zone % 2 == 1 {
        return top;
    }
    if colour < top {
        return top;
    }
    colour + 1
}

// The colours of the whole: those of the odd zones shifted.
fn shifted(alloc: Global, zones: &[u32], inside: &[u32], shift: u32) -> Result<Vec<u32>, NoMemory>
    requires each { length zones.now ≡ length inside.now }
    requires few { (k : ℕ) → k < length inside.now → whole shift (slice_index zones.now k) (slice_index inside.now k) < 2 ^ 32 }
    ensures each { IfOk result (λ colours. length colours.items ≡ length inside.now) }
    ensures values { IfOk result (λ colours. (k : ℕ) → k < length inside.now → slice_index colours.items k ≡ whole shift (slice_index zones.now k) (slice_index inside.now k)) }
{
    let mut colours = Vec::new(alloc);
    for cell in 0..zones.len() {
        colours.push(shifted_one(zones[cell], inside[cell], shift))?;
    }
    Ok(colours)
}

// The colour of the whole.
fn shifted_one(zone: u32, colour: u32, shift: u32) -> u32
    requires { whole shift zone colour < 2 ^ 32 }
    ensures { result ≡ whole shift zone colour }
{
    if zone % 2 == 0 {
        return colour;
    }
    shift + colour
}

// The same numbers in fewer bits.
fn narrowed(alloc: Global, starts: &[usize]) -> Result<Vec<u32>, NoMemory>
    requires { All (λ s. s < 2 ^ 32) starts.now }
    ensures { IfOk result (λ made. made.items ≡ starts.now) }
{
    let mut made = Vec::with_capacity(alloc, starts.len())?;
    for start in starts {
        made.push(*start as u32)?;
    }
    Ok(made)
}
