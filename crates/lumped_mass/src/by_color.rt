//! The masses by rounds, colour after colour.
ghost use Rattle.std.specs.Prelude.{◌≡◌, ℕ, List, ◌+◌, ◌++◌, ◌<◌, ◌≤◌, ◌^◌, pos, IfOk, map, vec_len, length, slice_index};
ghost use Rattle.std.specs.Int.{w128, int_wrap};
ghost use Rattle.std.specs.List.{range_with_len};
ghost use Rattle.conflict_coloring.specs.Coloring.{IsColoring, AreStarts, color_count};
ghost use Rattle.conflict_coloring.specs.Colours.{coloured};
ghost use Rattle.conflict_coloring.specs.Cut.{part};
ghost use Rattle.dof_numbers.specs.Dofs.{IsNumberingOf, AreDofsOfCorners};
ghost use Rattle.lumped_mass.specs.Masses.{masses};
ghost use Rattle.lumped_mass.specs.Rows.{AreRising, AreApart};
ghost use Rattle.lumped_mass.specs.Sums.{sums_of};

use crate::cells::Cells;
use crate::color::Color;
use crate::masses::Masses;
use crate::rows::{cell_rows, conflicts_of};
use colored_copier::{Crew, run_round};
use compressed_lists::Lists;
use conflict_coloring::{Colors, color};
use dof_numbers::Dofs;
use fem_fixed::NoMemory;
use hanging_refine::Forest;
use scratch_pool::OpenGate;
use std::alloc::Global;
use std::thread::Threads;

/// The masses of all dofs by so many workers, 1 to 64: colour after colour of the cells, no two of which share a dof, and
/// within a colour in any order.
pub fn masses_by_color<R: Threads + Sync>(
    rt: &R,
    alloc: Global,
    forest: &Forest,
    dofs: &Dofs,
    workers: u32,
) -> Result<Masses, NoMemory>
    requires degree { dofs.now.degree ≡ 1 }
    requires numbered { IsNumberingOf forest.now dofs.now }
    requires corners { AreDofsOfCorners forest.now dofs.now }
    requires workers { (0 < workers) × (workers ≤ 64) }
    ensures { IfOk result (λ list. list ≡ map (int_wrap w128) (masses forest.now dofs.now)) }
{
    let cells = Cells::new(forest, dofs);
    let rows = cell_rows(alloc, &cells)?;
    let conflicts = conflicts_of(alloc, &rows)?;
    let colors = color(alloc, &conflicts)?;
    let mut crew = crew_of(alloc, workers)?;
    let sums = add_colors(rt, alloc, &cells, &rows, &colors, &mut crew)?;
    masses_from(alloc, &sums)
}

/// The sums of all cells, colour after colour.
fn add_colors<'x, R: Threads + Sync>(
    rt: &R,
    alloc: Global,
    cells: &'x Cells<'x>,
    rows: &'x Lists<u32>,
    colors: &'x Colors,
    crew: &mut Crew<u8, [i64; 4]>,
) -> Result<Vec<(u32, i128)>, NoMemory>
    requires rising { AreRising cells.now.dofs.now.cells rows.now (length cells.now.forest.now.cells) }
    requires colors { IsColoring rows.now colors.now }
    ensures { IfOk result (λ sums. map (λ entry. entry.1) sums.items ≡ map (int_wrap w128) (masses cells.now.forest.now cells.now.dofs.now)) }
{
    let mut sums = zero_sums(alloc, cells.dofs.size())?;
    let starts = colors.starts();
    for k in 0..starts.len() - 1 {
        let job = Color {
            all: cells,
            rows,
            cells: cells_of_color(colors, k),
        };
        sums = add_color(rt, alloc, &job, sums, crew)?;
    }
    Ok(sums)
}

/// The workers of all rounds.
fn crew_of(alloc: Global, workers: u32) -> Result<Crew<u8, [i64; 4]>, NoMemory>
    requires { (0 < workers) × (workers ≤ 64) }
    ensures { IfOk result (λ crew. crew.workers ≡ workers) }
{
    let scratches = vec![in alloc; 0u8; workers as usize]?;
    let copies = vec![in alloc; [0i64; 4]; workers as usize]?;
    Crew::new(alloc, scratches, 0, copies)
}

/// Each dof with the sum 0.
fn zero_sums(alloc: Global, size: u32) -> Result<Vec<(u32, i128)>, NoMemory>
    ensures { IfOk result (λ sums. sums.items ≡ map (λ dof. (dof, pos 0)) (range_with_len 0 size)) }
{
    let mut sums = Vec::with_capacity(alloc, size as usize)?;
    for dof in 0..size {
        sums.push((dof, 0i128))?;
    }
    Ok(sums)
}

/// The cells of a colour, rising.
fn cells_of_color(colors: &Colors, k: usize) -> &[u32]
    requires starts { AreStarts colors.now.colors colors.now.order colors.now.starts (color_count colors.now) }
    requires color { k < color_count colors.now }
    ensures cells { result.now ≡ coloured colors.now.colors k }
    ensures part { result.now ≡ part colors.now.order (slice_index colors.now.starts k) (slice_index colors.now.starts (k + 1)) }
    ensures few { length result.now ≤ 2 ^ 32 }
{
    let starts = colors.starts();
    let start = starts[k] as usize;
    let end = starts[k + 1] as usize;
    &colors.order()[start..end]
}

/// Adds the cells of a colour to the sums.
fn add_color<R: Threads + Sync>(
    rt: &R,
    alloc: Global,
    job: &Color<'_>,
    sums: Vec<(u32, i128)>,
    crew: &mut Crew<u8, [i64; 4]>,
) -> Result<Vec<(u32, i128)>, NoMemory>
    requires rising { AreRising job.now.all.now.dofs.now.cells job.now.rows.now (length job.now.all.now.forest.now.cells) }
    requires apart { AreApart job.now.rows.now job.now.cells.now }
    requires few { length job.now.cells.now ≤ 2 ^ 32 }
    requires sums { (before : List ℕ) × (sums.items ≡ sums_of job.now.all.now.forest.now job.now.all.now.dofs.now before) }
    ensures { IfOk result (λ after. (before : List ℕ) → sums.items ≡ sums_of job.now.all.now.forest.now job.now.all.now.dofs.now before →
        after.items ≡ sums_of job.now.all.now.forest.now job.now.all.now.dofs.now (before ++ job.now.cells.now)) }
{
    match run_round(rt, alloc, job, sums, crew, 0, &OpenGate) {
        Ok(after) => Ok(after),
        Err((_, fault)) => Err(fault),
    }
}

/// The sums without their dofs.
fn masses_from(alloc: Global, sums: &[(u32, i128)]) -> Result<Masses, NoMemory>
    ensures { IfOk result (λ list. list ≡ map (λ entry. entry.1) sums.now) }
{
    let mut values = Vec::with_capacity(alloc, sums.len())?;
    for entry in sums {
        values.push(entry.1)?;
    }
    Ok(Masses { values })
}
