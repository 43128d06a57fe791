//! The sums of a system: by several threads, and by a loop over its cells.
ghost use Rattle.std.specs.Prelude.{◌≤◌, IsTrue, IfSome, map};
ghost use Rattle.conflict_coloring.specs.Coloring.{IsColoring};
ghost use Rattle.mesh_loop.specs.Plans.{IsWithinRanges};
ghost use Rattle.mesh_loop.specs.Setup.{cells_of, written_rows};

use crate::gate::{MeetGate, TURNS};
use crate::meshes::{Mesh, set_up_of};
use colored_sum::assemble_colored;
use conflict_coloring::{Colors, color};
use mesh_loop::{AssembleFault, Plan, Setup, assemble_serial, conflicts};
use ordered_sum::assemble_ordered;
use scratch_pool::{Gate, HoldGate, OpenGate};
use sparsity::{Row, Rows};
use std::alloc::Global;
use std::sync::Wait;
use std::thread::Threads;

/// How threads make a sum.
#[derive(Clone, Copy)]
pub enum Way {
    Colored,
    Ordered,
}

/// Numbers of workers, of copy objects, of cells in a chunk and of scratch objects.
const SHAPES: [(u32, u32, u32, u32); 6] = [
    (1, 1, 1, 1),
    (1, 2, 3, 1),
    (2, 1, 4, 1),
    (2, 4, 1, 2),
    (3, 2, 64, 2),
    (3, 256, 1, 64),
];

/// Two workers, and each item is a cell.
fn two_workers(queue: u32) -> Plan {
    Plan {
        workers: 2,
        queue,
        chunk: 1,
        scratch: 2,
        digits: 0,
    }
}

fn is_between(value: u32, least: u32, most: u32) -> bool
    ensures { IsTrue result → (least ≤ value) × (value ≤ most) }
{
    least <= value && value <= most
}

fn is_within_ranges(plan: &Plan) -> bool
    ensures { IsTrue result → IsWithinRanges plan.now }
{
    if !is_between(plan.workers, 1, 64) {
        return false;
    }
    if !is_between(plan.queue, 1, 256) {
        return false;
    }
    if !is_between(plan.chunk, 1, 64) {
        return false;
    }
    if !is_between(plan.scratch, 1, 64) {
        return false;
    }
    plan.digits <= 64
}

/// The rows of the loop, if it doesn't fail.
fn serial_rows(alloc: Global, setup: &Setup, digits: u32) -> Option<Rows> {
    if digits > 64 {
        return None;
    }
    match assemble_serial(alloc, setup, digits) {
        Ok(rows) => Some(rows),
        Err(_) => None,
    }
}

/// The cells by colours.
fn colors_of(alloc: Global, setup: &Setup) -> Option<Colors>
    ensures { IfSome result (IsColoring (map (written_rows setup.now) (cells_of setup.now))) }
{
    let conflicts = match conflicts(alloc, setup) {
        Ok(conflicts) => conflicts,
        Err(_) => return None,
    };
    match color(alloc, &conflicts) {
        Ok(colors) => Some(colors),
        Err(_) => None,
    }
}

/// The sum by threads, or how it fails; None where the plan is out of its ranges.
fn summed<G: Gate + Sync, R: Threads + Wait + Sync + AllocGlobal>(
    rt: &R,
    way: Way,
    setup: &Setup,
    plan: &Plan,
    gate: &G,
) -> Option<Result<Rows, AssembleFault>> {
    if !is_within_ranges(plan) {
        return None;
    }
    match way {
        Way::Ordered => Some(assemble_ordered(rt, rt.alloc(), setup, plan, gate)),
        Way::Colored => match colors_of(rt.alloc(), setup) {
            Some(colors) => Some(assemble_colored(rt, rt.alloc(), setup, &colors, plan, gate)),
            None => None,
        },
    }
}

fn is_same_row(a: &Row, b: &Row) -> bool {
    a.mark == b.mark && a.rhs == b.rhs && a.values.as_slice() == b.values.as_slice()
}

/// Whether the rows have the same numbers.
fn are_same(a: &Rows, b: &Rows) -> bool {
    if a.size() != b.size() {
        return false;
    }
    for i in 0..a.size() {
        if !is_same_row(a.get(i), b.get(i)) {
            return false;
        }
    }
    true
}

/// Whether the sum by threads has these rows.
fn has_rows<G: Gate + Sync, R: Threads + Wait + Sync + AllocGlobal>(
    rt: &R,
    way: Way,
    setup: &Setup,
    plan: &Plan,
    gate: &G,
    rows: &Rows,
) -> bool {
    match summed(rt, way, setup, plan, gate) {
        Some(Ok(others)) => are_same(rows, &others),
        _ => false,
    }
}

/// Whether the sum by threads has the rows of the loop.
fn is_serial<G: Gate + Sync, R: Threads + Wait + Sync + AllocGlobal>(
    rt: &R,
    way: Way,
    setup: &Setup,
    plan: &Plan,
    gate: &G,
) -> bool {
    match serial_rows(rt.alloc(), setup, plan.digits) {
        Some(rows) => has_rows(rt, way, setup, plan, gate, &rows),
        None => false,
    }
}

/// Whether the sum by threads on the grid has the rows of the loop.
fn is_serial_on_grid<G: Gate + Sync, R: Threads + Wait + Sync + AllocGlobal>(
    rt: &R,
    way: Way,
    plan: &Plan,
    gate: &G,
) -> bool {
    match set_up_of(rt, Mesh::Grid) {
        Some(grid) => is_serial(rt, way, &grid, plan, gate),
        None => false,
    }
}

/// Whether two workers make the rows of the loop on the grid while item 0 is held until item 1 has passed.
pub fn holds_item_zero<R: Threads + Wait + Sync + AllocGlobal>(rt: &R, way: Way) -> bool {
    let gate = HoldGate::new(TURNS);
    is_serial_on_grid(rt, way, &two_workers(2), &gate) && !gate.gave_up()
}

/// Whether two workers make the rows of the loop on the grid while items wait for others: no wait gives up, and each
/// item comes once.
pub fn goes_well<R: Threads + Wait + Sync + AllocGlobal>(
    rt: &R,
    way: Way,
    queue: u32,
    waits: &[(u64, u64)],
) -> bool {
    let Some(gate) = MeetGate::new(rt.alloc(), TURNS, waits) else {
        return false;
    };
    is_serial_on_grid(rt, way, &two_workers(queue), &gate) && !gate.gave_up() && gate.each_once()
}

fn plan_of(shape: (u32, u32, u32, u32), digits: u32) -> Plan {
    Plan {
        workers: shape.0,
        queue: shape.1,
        chunk: shape.2,
        scratch: shape.3,
        digits,
    }
}

/// Whether all shapes of a run give these rows.
fn all_give<R: Threads + Wait + Sync + AllocGlobal>(
    rt: &R,
    way: Way,
    setup: &Setup,
    digits: u32,
    rows: &Rows,
) -> bool {
    for shape in SHAPES {
        if !has_rows(rt, way, setup, &plan_of(shape, digits), &OpenGate, rows) {
            return false;
        }
    }
    true
}

/// Whether all shapes of a run give the rows of the loop.
fn all_give_serial_rows<R: Threads + Wait + Sync + AllocGlobal>(
    rt: &R,
    way: Way,
    setup: &Setup,
    digits: u32,
) -> bool {
    match serial_rows(rt.alloc(), setup, digits) {
        Some(rows) => all_give(rt, way, setup, digits, &rows),
        None => false,
    }
}

/// Whether all shapes of a run on a mesh give the rows of the loop.
pub fn is_as_the_loop<R: Threads + Wait + Sync + AllocGlobal>(
    rt: &R,
    way: Way,
    mesh: Mesh,
    digits: u32,
) -> bool {
    match set_up_of(rt, mesh) {
        Some(setup) => all_give_serial_rows(rt, way, &setup, digits),
        None => false,
    }
}

/// The rows of the first shape, if it doesn't fail.
fn first_rows<R: Threads + Wait + Sync + AllocGlobal>(
    rt: &R,
    way: Way,
    setup: &Setup,
    digits: u32,
) -> Option<Rows> {
    match summed(rt, way, setup, &plan_of(SHAPES[0], digits), &OpenGate) {
        Some(Ok(rows)) => Some(rows),
        _ => None,
    }
}

/// Whether all shapes of a run give the same rows, and the loop gives others.
fn all_give_other_rows<R: Threads + Wait + Sync + AllocGlobal>(
    rt: &R,
    way: Way,
    setup: &Setup,
    digits: u32,
) -> bool {
    match (
        first_rows(rt, way, setup, digits),
        serial_rows(rt.alloc(), setup, digits),
    ) {
        (Some(rows), Some(serial)) => {
            all_give(rt, way, setup, digits, &rows) && !are_same(&rows, &serial)
        }
        _ => false,
    }
}

/// Whether all shapes of a run on a mesh give the same rows, and the loop gives others.
pub fn agrees_but_not_with_the_loop<R: Threads + Wait + Sync + AllocGlobal>(
    rt: &R,
    way: Way,
    mesh: Mesh,
    digits: u32,
) -> bool {
    match set_up_of(rt, mesh) {
        Some(setup) => all_give_other_rows(rt, way, &setup, digits),
        None => false,
    }
}

/// How the sum of one shape fails, if it does.
fn fault_of<R: Threads + Wait + Sync + AllocGlobal>(
    rt: &R,
    way: Way,
    setup: &Setup,
    shape: (u32, u32, u32, u32),
) -> Option<AssembleFault> {
    match summed(rt, way, setup, &plan_of(shape, 0), &OpenGate) {
        Some(Err(fault)) => Some(fault),
        _ => None,
    }
}

/// Whether all shapes of a run tell this failure.
fn all_tell<R: Threads + Wait + Sync + AllocGlobal>(
    rt: &R,
    way: Way,
    setup: &Setup,
    fault: AssembleFault,
) -> bool {
    for shape in SHAPES {
        if fault_of(rt, way, setup, shape) != Some(fault) {
            return false;
        }
    }
    true
}

/// Whether all shapes of a run on a mesh tell this failure.
pub fn tells<R: Threads + Wait + Sync + AllocGlobal>(
    rt: &R,
    way: Way,
    mesh: Mesh,
    fault: AssembleFault,
) -> bool {
    match set_up_of(rt, mesh) {
        Some(setup) => all_tell(rt, way, &setup, fault),
        None => false,
    }
}

/// How the loop fails on a mesh, if it does.
pub fn serial_fault<R: Threads + Sync + AllocGlobal>(rt: &R, mesh: Mesh) -> Option<AssembleFault> {
    let setup = set_up_of(rt, mesh)?;
    match assemble_serial(rt.alloc(), &setup, 0) {
        Ok(_) => None,
        Err(fault) => Some(fault),
    }
}
