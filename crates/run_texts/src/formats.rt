ghost use Rattle.std.specs.Prelude.{◌≡◌, ◌≤◌, ◌^◌, length, IfOk, IfErr, Ok};
ghost use Rattle.ucd_read.specs.Bounds.{IsBounded};
ghost use Rattle.diagnostics.specs.Stages.{EndsIn};
ghost use Rattle.run_texts.specs.Texts.{text_limit, UcdMesh, MshMesh, MeshIn};

use crate::endings::{msh_ending, ucd_ending};
use diagnostics::Ending;
use fem_fixed::MeshParts;
use msh_read::read_msh;
use run_words::Format;
use std::alloc::Global;
use ucd_read::read_ucd;

/// The mesh of a text in a format.
pub(crate) fn mesh_in(alloc: Global, format: Format, text: &[u8]) -> Result<MeshParts, Ending>
    requires { length text.now ≤ text_limit }
    ensures ok { IfOk result (λ parts. MeshIn format text.now (Ok parts)) }
    ensures bounded { IfOk result IsBounded }
    ensures ids { IfOk result (λ parts. length parts.ids ≤ 2 ^ 20) }
    ensures refused { IfErr result (EndsIn (MeshIn format text.now)) }
{
    match format {
        Format::Ucd => ucd_mesh(alloc, text),
        Format::Msh => msh_mesh(alloc, text),
    }
}

#[tactic(auto, unfolding(crate::specs::Texts::text_limit), using(crate::proofs::Faults::ucd_ends, crate::proofs::Faults::ids_few))]
fn ucd_mesh(alloc: Global, text: &[u8]) -> Result<MeshParts, Ending>
    requires { length text.now ≤ text_limit }
    ensures ok { IfOk result (λ parts. UcdMesh text.now (Ok parts)) }
    ensures bounded { IfOk result IsBounded }
    ensures ids { IfOk result (λ parts. length parts.ids ≤ 2 ^ 20) }
    ensures refused { IfErr result (EndsIn (UcdMesh text.now)) }
{
    match read_ucd(alloc, text) {
        Ok(parts) => Ok(parts),
        Err(fault) => Err(ucd_ending(fault)),
    }
}

#[tactic(auto, unfolding(crate::specs::Texts::text_limit), using(crate::proofs::Faults::msh_ends, crate::proofs::Faults::ids_few))]
fn msh_mesh(alloc: Global, text: &[u8]) -> Result<MeshParts, Ending>
    requires { length text.now ≤ text_limit }
    ensures ok { IfOk result (λ parts. MshMesh text.now (Ok parts)) }
    ensures bounded { IfOk result IsBounded }
    ensures ids { IfOk result (λ parts. length parts.ids ≤ 2 ^ 20) }
    ensures refused { IfErr result (EndsIn (MshMesh text.now)) }
{
    match read_msh(alloc, text) {
        Ok(parts) => Ok(parts),
        Err(fault) => Err(msh_ending(fault)),
    }
}
