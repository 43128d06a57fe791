ghost use Rattle.std.specs.Prelude.{◌≡◌, ◌≤◌, ◌∷◌, ◌++◌, [], length, map, IfOk, OnOk};
ghost use Rattle.std.specs.List.{concat};
ghost use Rattle.matrix_market.specs.Entries.{values_of, right_sides};
ghost use Rattle.run_summary.specs.Summary.{IsSummable};
ghost use Rattle.mesh_loop.specs.Setup.{pattern_of};
ghost use Rattle.run_words.specs.Choice.{seen_output, seen_destination};
ghost use Rattle.run_outputs.specs.Targets.{seen_target};
ghost use Rattle.system_texts.specs.Sums.{HasNoSums, IsOfSums};
ghost use Rattle.system_texts.specs.Texts.{right_side_target, sum_targets, IsPlainText, AreTargets};

use crate::sums::colors_of;
use color_texts::colors_text;
use diagnostics::Output as Kind;
use fem_fixed::NoMemory;
use matrix_market::{matrix_text, pattern_text, vector_text};
use mesh_loop::Setup;
use run_outputs::{Target, first_target};
use run_summary::summary_text;
use run_words::{Destination, Output, SystemMode};
use sparsity::Rows;
use std::alloc::Global;

/// The texts that are asked for, of these sums: the summary, or the matrix and the right side; and where there are
/// no sums the pattern or the colours of the cells.
#[tactic(auto, using(crate::proofs::Small::without_sums))]
pub fn make_targets<'a>(
    alloc: Global,
    mode: SystemMode,
    output: Output<'a>,
    setup: &Setup,
    rows: Option<Rows>,
) -> Result<Vec<Target<'a>>, NoMemory>
    requires few { length (concat (pattern_of setup.now)) ≤ 33554432 }
    requires sums { IsOfSums mode setup.now rows }
    ensures { IfOk result (λ targets. AreTargets mode (seen_output output.entry) setup.now rows (map seen_target targets.items)) }
{
    match rows {
        Some(rows) => sum_targets(alloc, output, setup, &rows),
        None => {
            let text = plain_text(alloc, mode, setup)?;
            first_target(alloc, output, text)
        }
    }
}

// The texts of sums.
#[tactic(auto, using(crate::proofs::Colorings::cells_count))]
fn sum_targets<'a>(
    alloc: Global,
    output: Output<'a>,
    setup: &Setup,
    rows: &Rows,
) -> Result<Vec<Target<'a>>, NoMemory>
    requires { IsSummable (pattern_of setup.now) (values_of rows.now) (right_sides rows.now) }
    ensures { IfOk result (λ targets. map seen_target targets.items ≡ sum_targets (seen_output output.entry) setup.now rows.now) }
{
    match output {
        Output::Summary => {
            let text = summary_text(alloc, setup.cells(), setup.pattern(), rows)?;
            first_target(alloc, output, text)
        }
        Output::Texts {
            matrix: _,
            right_side: None,
        } => {
            let text = matrix_text(alloc, setup.pattern(), rows)?;
            first_target(alloc, output, text)
        }
        Output::Texts {
            matrix: _,
            right_side: Some(destination),
        } => {
            let text = matrix_text(alloc, setup.pattern(), rows)?;
            let mut targets = first_target(alloc, output, text)?;
            push_right_side(alloc, &mut targets, destination, rows)?;
            Ok(targets)
        }
    }
}

// Adds the text of a right side.
fn push_right_side<'a>(
    alloc: Global,
    targets: &mut Vec<Target<'a>>,
    destination: Destination<'a>,
    rows: &Rows,
) -> Result<(), NoMemory>
    ensures { OnOk result (map seen_target targets.new.items ≡ map seen_target targets.old.items ++ right_side_target (seen_destination destination.entry) rows.now ∷ []) }
{
    let text = vector_text(alloc, rows)?;
    targets.push(Target {
        output: Kind::RightSide,
        destination,
        text,
    })?;
    Ok(())
}

// The text where there are no sums.
#[tactic(auto, using(crate::proofs::Colorings::some_start))]
fn plain_text(alloc: Global, mode: SystemMode, setup: &Setup) -> Result<Vec<u8>, NoMemory>
    requires { HasNoSums mode }
    ensures { IfOk result (λ text. IsPlainText mode setup.now text.items) }
{
    if mode == SystemMode::Colors {
        let colors = colors_of(alloc, setup)?;
        colors_text(alloc, &colors, setup.cells())
    } else {
        pattern_text(alloc, setup.pattern())
    }
}
