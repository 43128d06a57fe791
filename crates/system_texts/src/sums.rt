ghost use Rattle.std.specs.Prelude.{◌≡◌, ◌≤◌, Ok, IfOk, IfErr};
ghost use Rattle.mesh_loop.specs.Plans.{IsWithinRanges as IsPlanWithin};
ghost use Rattle.run_words.specs.declared.options.SystemMode.TheVariants.{Colored, Ordered, Serial};
ghost use Rattle.run_words.specs.Choice.{seen};
ghost use Rattle.run_words.specs.Ranges.{IsWithinRanges};
ghost use Rattle.diagnostics.specs.Stages.{EndsIn};
ghost use Rattle.system_texts.specs.Sums.{IsColoringOf, SummedBy, Summed};

use crate::endings::sum_ending;
use colored_sum::assemble_colored;
use conflict_coloring::{Colors, color};
use diagnostics::Ending;
use fem_fixed::NoMemory;
use mesh_loop::{Plan, Setup, assemble_serial, conflicts};
use ordered_sum::assemble_ordered;
use run_words::{Options, SystemMode};
use scratch_pool::Gate;
use sparsity::Rows;
use std::alloc::Global;
use std::sync::Wait;
use std::thread::Threads;

/// The rows of the sums of a system, where the mode has sums: by a loop over the cells, or colour by colour by
/// several workers. The mode `ordered` has the order of the cells, as `serial` has.
///
/// # Errors
///
/// The first cell that fails, in the order of the mode, with its local form's fault or its least row.
pub fn sum_rows<G: Gate + Sync, R: Threads + Sync>(
    rt: &R,
    alloc: Global,
    mode: SystemMode,
    options: &Options<'_>,
    setup: &Setup,
    gate: &G,
) -> Result<Option<Rows>, Ending>
    requires within { IsWithinRanges (seen options.now) }
    ensures ok { IfOk result (λ rows. Summed mode options.now.digits setup.now (Ok rows)) }
    ensures refused { IfErr result (EndsIn (Summed mode options.now.digits setup.now)) }
{
    match mode {
        SystemMode::Pattern | SystemMode::Colors => Ok(None),
        SystemMode::Serial | SystemMode::Ordered => match serial_rows(
            alloc,
            options.digits,
            setup,
        ) {
            Ok(rows) => Ok(Some(rows)),
            Err(ending) => Err(ending),
        },
        SystemMode::Colored => match colored_rows(rt, alloc, &plan_of(options), setup, gate) {
            Ok(rows) => Ok(Some(rows)),
            Err(ending) => Err(ending),
        },
    }
}

/// The same, with a pipeline of several workers in the mode `ordered`. It may wait for another thread.
///
/// # Errors
///
/// As [`sum_rows`].
pub fn sum_rows_by_pipeline<G: Gate + Sync, R: Threads + Wait + Sync>(
    rt: &R,
    alloc: Global,
    mode: SystemMode,
    options: &Options<'_>,
    setup: &Setup,
    gate: &G,
) -> Result<Option<Rows>, Ending>
    requires within { IsWithinRanges (seen options.now) }
    ensures ok { IfOk result (λ rows. Summed mode options.now.digits setup.now (Ok rows)) }
    ensures refused { IfErr result (EndsIn (Summed mode options.now.digits setup.now)) }
{
    match mode {
        SystemMode::Ordered => match ordered_rows(rt, alloc, &plan_of(options), setup, gate) {
            Ok(rows) => Ok(Some(rows)),
            Err(ending) => Err(ending),
        },
        _ => sum_rows(rt, alloc, mode, options, setup, gate),
    }
}

/// How the workers go.
pub fn plan_of(options: &Options<'_>) -> Plan
    requires within { IsWithinRanges (seen options.now) }
    ensures within { IsPlanWithin result }
    ensures digits { result.digits ≡ options.now.digits }
{
    Plan {
        workers: options.plan.workers,
        queue: options.plan.queue,
        chunk: options.plan.chunk,
        scratch: options.plan.scratch,
        digits: options.digits,
    }
}

/// A colouring of the cells, in which cells that write one row conflict.
pub fn colors_of(alloc: Global, setup: &Setup) -> Result<Colors, NoMemory>
    ensures { IfOk result (IsColoringOf setup.now) }
{
    let conflicts = conflicts(alloc, setup)?;
    color(alloc, &conflicts)
}

// The rows of the sum in the order of the cells.
fn serial_rows(alloc: Global, digits: u32, setup: &Setup) -> Result<Rows, Ending>
    requires digits { digits ≤ 64 }
    ensures ok { IfOk result (λ rows. SummedBy Serial digits setup.now (Ok rows)) }
    ensures refused { IfErr result (EndsIn (SummedBy Serial digits setup.now)) }
{
    match assemble_serial(alloc, setup, digits) {
        Ok(rows) => Ok(rows),
        Err(fault) => Err(sum_ending(fault)),
    }
}

// The rows of the sum in the order of the cells, by a pipeline.
fn ordered_rows<G: Gate + Sync, R: Threads + Wait + Sync>(
    rt: &R,
    alloc: Global,
    plan: &Plan,
    setup: &Setup,
    gate: &G,
) -> Result<Rows, Ending>
    requires plan { IsPlanWithin plan.now }
    ensures ok { IfOk result (λ rows. SummedBy Ordered plan.now.digits setup.now (Ok rows)) }
    ensures refused { IfErr result (EndsIn (SummedBy Ordered plan.now.digits setup.now)) }
{
    match assemble_ordered(rt, alloc, setup, plan, gate) {
        Ok(rows) => Ok(rows),
        Err(fault) => Err(sum_ending(fault)),
    }
}

// The rows of the sum in the order of the colours.
fn colored_rows<G: Gate + Sync, R: Threads + Sync>(
    rt: &R,
    alloc: Global,
    plan: &Plan,
    setup: &Setup,
    gate: &G,
) -> Result<Rows, Ending>
    requires plan { IsPlanWithin plan.now }
    ensures ok { IfOk result (λ rows. SummedBy Colored plan.now.digits setup.now (Ok rows)) }
    ensures refused { IfErr result (EndsIn (SummedBy Colored plan.now.digits setup.now)) }
{
    let colors = colors_of(alloc, setup)?;
    match assemble_colored(rt, alloc, setup, &colors, plan, gate) {
        Ok(rows) => Ok(rows),
        Err(fault) => Err(sum_ending(fault)),
    }
}
