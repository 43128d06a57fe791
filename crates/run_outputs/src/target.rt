ghost use Rattle.std.specs.Prelude.{◌≡◌, ◌∷◌, [], map, IfOk};
ghost use Rattle.run_words.specs.Choice.{seen_output};
ghost use Rattle.run_outputs.specs.Targets.{seen_target, first_target};

use diagnostics::Output as Kind;
use fem_fixed::NoMemory;
use run_words::{Destination, Output};
use std::alloc::Global;

/// A text that is written, and where.
#[derive(Drop)]
pub struct Target<'a> {
    /// What the text is, for the line of a write that fails.
    pub output: Kind,
    pub destination: Destination<'a>,
    pub text: Vec<u8>,
}

/// The text that is written first, alone: the matrix, or what stands in its place.
pub fn first_target<'a>(
    alloc: Global,
    output: Output<'a>,
    text: Vec<u8>,
) -> Result<Vec<Target<'a>>, NoMemory>
    ensures { IfOk result (λ targets. map seen_target targets.items ≡ first_target (seen_output output.entry) text.items ∷ []) }
{
    let destination = match output {
        Output::Summary => Destination::Standard,
        Output::Texts { matrix, .. } => matrix,
    };
    let mut targets = Vec::new(alloc);
    targets.push(Target {
        output: Kind::Matrix,
        destination,
        text,
    })?;
    Ok(targets)
}
