//! Zones and colours of cells with four rows each, by a slow program that follows their definitions.
use std::alloc::Global;

/// No zone, no colour.
pub(crate) const NONE: u32 = u32::MAX;

/// More than there are cells, and so colours in a zone.
const MANY: u32 = 16;

/// The number at a place of a list; none past its end.
fn at(list: &[u32], place: usize) -> u32 {
    match list.get(place) {
        Some(number) => *number,
        None => NONE,
    }
}

fn set(list: &mut [u32], place: usize, number: u32) {
    if place < list.len() {
        list[place] = number;
    }
}

/// Whether two cells have a row in common.
fn meet(rows: &[[u32; 4]], a: usize, b: usize) -> bool {
    match (rows.get(a), rows.get(b)) {
        (Some(left), Some(right)) => a != b && left.iter().any(|row| right.contains(row)),
        _ => false,
    }
}

/// Whether a cell meets one of the zone before.
fn touches(rows: &[[u32; 4]], zones: &[u32], cell: usize, zone: u32) -> bool {
    if zone == 0 {
        return false;
    }
    let before = zone - 1;
    (0..rows.len()).any(|other| at(zones, other) == before && meet(rows, other, cell))
}

/// Gives a zone to the cells without one that meet a cell of the zone before; where there is none, to the least cell
/// without one.
fn fill_zone(rows: &[[u32; 4]], zones: &mut [u32], zone: u32) {
    let mut some = false;
    for cell in 0..zones.len() {
        if at(zones, cell) == NONE && touches(rows, zones, cell, zone) {
            set(zones, cell, zone);
            some = true;
        }
    }
    let least = (0..zones.len()).find(|cell| at(zones, *cell) == NONE);
    match least {
        Some(cell) if !some => set(zones, cell, zone),
        _ => {}
    }
}

/// The zone of each cell.
pub(crate) fn slow_zones(alloc: Global, rows: &[[u32; 4]]) -> Option<Vec<u32>> {
    let mut zones = vec![in alloc; NONE; rows.len()].ok()?;
    for zone in 0..rows.len() {
        fill_zone(rows, &mut zones, u32::try_from(zone).ok()?);
    }
    Some(zones)
}

/// Whether two cells of one zone meet.
fn near(rows: &[[u32; 4]], zones: &[u32], c: usize, d: usize) -> bool {
    meet(rows, c, d) && at(zones, c) == at(zones, d)
}

/// How many cells of its zone a cell meets.
fn degree(rows: &[[u32; 4]], zones: &[u32], c: usize) -> usize {
    (0..rows.len()).filter(|d| near(rows, zones, c, *d)).count()
}

/// Whether a cell of its zone that a cell meets has a colour.
fn is_used(rows: &[[u32; 4]], zones: &[u32], colors: &[u32], c: usize, color: u32) -> bool {
    (0..rows.len()).any(|d| near(rows, zones, c, d) && at(colors, d) == color)
}

/// How many colours the cells have that a cell meets in its zone.
fn saturation(rows: &[[u32; 4]], zones: &[u32], colors: &[u32], c: usize) -> usize {
    (0..MANY)
        .filter(|color| is_used(rows, zones, colors, c, *color))
        .count()
}

/// A cell that may be coloured next.
#[derive(Clone, Copy)]
struct Choice {
    saturation: usize,
    degree: usize,
    cell: usize,
}

/// Whether a cell goes before the best one that stands before it.
fn is_better(choice: Choice, best: Option<Choice>) -> bool {
    match best {
        None => true,
        Some(old) => choice.saturation > old.saturation
            || (choice.saturation == old.saturation && choice.degree > old.degree),
    }
}

/// The next cell to be coloured: the one with the greatest saturation, of those the one with the greatest degree, of those
/// the least.
fn next_cell(rows: &[[u32; 4]], zones: &[u32], colors: &[u32]) -> Option<usize> {
    let mut best = None;
    for cell in 0..rows.len() {
        let choice = Choice {
            saturation: saturation(rows, zones, colors, cell),
            degree: degree(rows, zones, cell),
            cell,
        };
        if at(colors, cell) == NONE && is_better(choice, best) {
            best = Some(choice);
        }
    }
    match best {
        None => None,
        Some(choice) => Some(choice.cell),
    }
}

/// The colours of the cells inside their zones. A choice looks at the cell's own zone alone, so the choices of all zones
/// may be made in turn.
fn colors_in_zones(alloc: Global, rows: &[[u32; 4]], zones: &[u32]) -> Option<Vec<u32>> {
    let mut colors = vec![in alloc; NONE; rows.len()].ok()?;
    for _ in 0..rows.len() {
        let cell = next_cell(rows, zones, &colors)?;
        let color = (0..MANY).find(|color| !is_used(rows, zones, &colors, cell, *color))?;
        set(&mut colors, cell, color);
    }
    Some(colors)
}

/// Whether a cell of an even zone has a colour.
fn is_even_color(zones: &[u32], colors: &[u32], color: u32) -> bool {
    (0..zones.len()).any(|cell| at(zones, cell) % 2 == 0 && at(colors, cell) == color)
}

/// The colour of each cell: those of odd zones stand behind those of even ones.
pub(crate) fn slow_colors(alloc: Global, rows: &[[u32; 4]], zones: &[u32]) -> Option<Vec<u32>> {
    let inside = colors_in_zones(alloc, rows, zones)?;
    let shift = (0..MANY).find(|color| !is_even_color(zones, &inside, *color))?;
    let mut colors = Vec::new(alloc);
    for (cell, color) in inside.iter().enumerate() {
        if at(zones, cell) % 2 == 0 {
            colors.push(*color).ok()?;
        } else {
            colors.push(color.checked_add(shift)?).ok()?;
        }
    }
    Some(colors)
}

/// The cells by rising colour, those of one colour rising.
pub(crate) fn slow_order(alloc: Global, colors: &[u32]) -> Option<Vec<u32>> {
    let mut order = Vec::new(alloc);
    for color in 0..2 * MANY {
        for (cell, other) in colors.iter().enumerate() {
            if *other == color {
                order.push(u32::try_from(cell).ok()?).ok()?;
            }
        }
    }
    Some(order)
}
