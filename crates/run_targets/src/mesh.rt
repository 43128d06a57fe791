ghost use Rattle.std.specs.Prelude.{map, Ok, IfOk, IfErr};
ghost use Rattle.ucd_read.specs.Bounds.{IsBounded};
ghost use Rattle.diagnostics.specs.Stages.{EndsIn};
ghost use Rattle.run_words.specs.Choice.{seen_output};
ghost use Rattle.run_outputs.specs.Targets.{seen_target};
ghost use Rattle.run_targets.specs.Defines.{MeshTexts};

use diagnostics::Ending;
use fem_fixed::MeshParts;
use run_outputs::{Target, first_target};
use run_words::Output;
use std::alloc::Global;
use ucd_write::ucd_text;

/// The text of a mesh, in UCD.
pub(crate) fn mesh_targets<'a>(
    alloc: Global,
    output: Output<'a>,
    parts: &MeshParts,
) -> Result<Vec<Target<'a>>, Ending>
    requires bounded { IsBounded parts.now }
    ensures ok { IfOk result (λ targets. MeshTexts (seen_output output.entry) parts.now (Ok (map seen_target targets.items))) }
    ensures ends { IfErr result (EndsIn (MeshTexts (seen_output output.entry) parts.now)) }
{
    let text = ucd_text(alloc, parts)?;
    let targets = first_target(alloc, output, text)?;
    Ok(targets)
}
