//! Colours of drawn cells, beside the slow ones.
ghost use Rattle.std.specs.Prelude.{◌≡◌, length};

use crate::slow_colors::{slow_colors, slow_order, slow_zones};
use conflict_coloring::{Colors, Conflicts, color};
use std::alloc::Global;

/// Cells with the rows that they write.
#[derive(Drop)]
struct Cells {
    conflicts: Conflicts,
    count: u32,
    ghost counted: { length conflicts ≡ count },
}

impl Cells {
    fn new(alloc: Global) -> Cells {
        Cells {
            conflicts: Conflicts::new(alloc),
            count: 0,
        }
    }

    /// Adds a cell; None where there are a thousand, or no memory.
    fn add(&mut self, rows: &[u32]) -> Option<()> {
        if self.count >= 1000 {
            return None;
        }
        self.conflicts.add(rows).ok()?;
        self.count += 1;
        Some(())
    }
}

/// The cells with these rows.
fn cells_of(alloc: Global, rows: &[[u32; 4]]) -> Option<Cells> {
    let mut cells = Cells::new(alloc);
    for row in rows {
        cells.add(row)?;
    }
    Some(cells)
}

/// Whether each of so many cells has its zone and its colour of these lists.
fn are_listed(colors: &Colors, count: u32, zones: &[u32], list: &[u32]) -> bool
    requires zones { length colors.now.zones ≡ count }
    requires colors { length colors.now.colors ≡ count }
{
    for cell in 0..count {
        let place = cell as usize;
        if zones.get(place).copied() != Some(colors.zone(cell))
            || list.get(place).copied() != Some(colors.color(cell))
        {
            return false;
        }
    }
    zones.len() == count as usize && list.len() == count as usize
}

/// Whether the cells are coloured as in these lists, by rising colour.
fn are_colored(alloc: Global, cells: &Cells, zones: &[u32], list: &[u32]) -> Option<bool> {
    let colors = color(alloc, &cells.conflicts).ok()?;
    let order = slow_order(alloc, list)?;
    Some(are_listed(&colors, cells.count, zones, list) && colors.order() == order.as_slice())
}

/// Whether the colours of cells with these rows are the slow ones, and their order.
fn agree(alloc: Global, rows: &[[u32; 4]]) -> Option<bool> {
    let cells = cells_of(alloc, rows)?;
    let zones = slow_zones(alloc, rows)?;
    let list = slow_colors(alloc, rows, &zones)?;
    are_colored(alloc, &cells, &zones, &list)
}

/// The next number of a sequence.
fn drawn(state: u64) -> u64 {
    state
        .wrapping_mul(6_364_136_223_846_793_005)
        .wrapping_add(1_442_695_040_888_963_407)
}

/// So many cells with four rising rows each, of which none is below the least.
fn drawn_rows(alloc: Global, count: u32, least: u32, seed: u64) -> Option<Vec<[u32; 4]>> {
    let mut rows = Vec::new(alloc);
    let mut state = seed;
    for _ in 0..count {
        state = drawn(state);
        let draw = state >> 33;
        let first = least.checked_add((draw % 16) as u32)?;
        let second = first.checked_add(1 + (draw / 16 % 4) as u32)?;
        let third = second.checked_add(1 + (draw / 64 % 8) as u32)?;
        let fourth = third.checked_add(1 + (draw / 512 % 8) as u32)?;
        rows.push([first, second, third, fourth]).ok()?;
    }
    Some(rows)
}

/// Whether the colours of drawn cells are the slow ones.
fn drawn_agree(alloc: Global, count: u32, least: u32, seed: u64) -> bool {
    match drawn_rows(alloc, count, least, seed) {
        Some(rows) => agree(alloc, &rows) == Some(true),
        None => false,
    }
}

// Rows from 0 on, and rows far above their number.
#[test]
fn colors_of_drawn_cells_are_those_of_a_slow_program(rt: HostRuntime) {
    for (count, least) in [(0, 0), (1, 7), (14, 0), (14, 4_000_000_000)] {
        for seed in 0..10u64 {
            assert!(rt;
                drawn_agree(rt.alloc(), count, least, seed),
                "{count} from {least}, {seed}"
            );
        }
    }
}
