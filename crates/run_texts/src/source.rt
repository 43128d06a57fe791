ghost use Rattle.std.specs.Prelude.{◌≡◌, ◌<◌, ◌≤◌, ◌^◌, false, length, IfOk, IfErr, Ok, None};
ghost use Rattle.std.specs.Option.{option_copied};
ghost use Rattle.ucd_read.specs.Bounds.{IsBounded};
ghost use Rattle.run_words.specs.Choice.{seen_source, texts, generated};
ghost use Rattle.run_words.specs.Ranges.{IsOfSize};
ghost use Rattle.run_texts.specs.Read.{SourceRead, EndsReading, SourceReads, is_read_fault};

use crate::read::{mesh_of, problem_of, read_mesh, read_named_problem};
use diagnostics::Ending;
use fem_fixed::MeshParts;
use fem_text::Store;
use grid_texts::generate;
use problem_read::Problem;
use run_words::{Format, Source};
use std::alloc::Global;

/// The mesh and the problem of a source: of the texts under its names, or of the generated ones. A problem
/// without a name has the empty text. The mesh is decided before the problem is read.
///
/// # Errors
///
/// `Refused` for a text that the store tells is absent, is above 268,435,456 bytes or has a fault, and
/// `ReadFault` where a read failed.
pub fn read_source<S: Store>(
    alloc: Global,
    source: Source<'_>,
    store: &mut S,
) -> Result<(MeshParts, Problem), Ending>
    requires size { IsOfSize (seen_source source) }
    ensures ok { IfOk result (λ read. SourceRead (S.holds store.old) (seen_source source.entry) (Ok (read.0, read.1))) }
    ensures bounded { IfOk result (λ read. IsBounded read.0) }
    ensures ids { IfOk result (λ read. length read.0.ids ≤ 2 ^ 20) }
    ensures ends { IfErr result (EndsReading (S.holds store.old) (seen_source source.entry)) }
    ensures same { S.holds store.new ≡ S.holds store.old }
    ensures calls { SourceReads (seen_source source.entry) result (S.counts store.old) (S.counts store.new) }
{
    match source {
        Source::Texts {
            mesh,
            format,
            problem,
        } => read_both(alloc, mesh, format, problem, store),
        Source::Generated { n, seed } => drawn(alloc, n, seed),
    }
}

// The mesh, in a format, and the problem of the texts under these names.
fn read_both<S: Store>(
    alloc: Global,
    mesh: &str,
    format: Format,
    problem: Option<&str>,
    store: &mut S,
) -> Result<(MeshParts, Problem), Ending>
    ensures ok { IfOk result (λ read. SourceRead (S.holds store.old) (texts mesh.now format (option_copied problem.entry)) (Ok (read.0, read.1))) }
    ensures bounded { IfOk result (λ read. IsBounded read.0) }
    ensures ids { IfOk result (λ read. length read.0.ids ≤ 2 ^ 20) }
    ensures ends { IfErr result (EndsReading (S.holds store.old) (texts mesh.now format (option_copied problem.entry))) }
    ensures same { S.holds store.new ≡ S.holds store.old }
    ensures calls { SourceReads (texts mesh.now format (option_copied problem.entry)) result (S.counts store.old) (S.counts store.new) }
{
    let parts = match read_mesh(alloc, mesh, format, store) {
        Ok(parts) => parts,
        Err(ending) => return Err(ending),
    };
    match read_named_problem(alloc, problem, store) {
        Ok(problem) => Ok((parts, problem)),
        Err(ending) => Err(ending),
    }
}

// The mesh and the problem of a drawn grid.
fn drawn(alloc: Global, n: u32, seed: u64) -> Result<(MeshParts, Problem), Ending>
    requires some { 0 < n }
    requires few { n ≤ 512 }
    ensures ok { IfOk result (λ read. SourceRead None (generated n seed) (Ok (read.0, read.1))) }
    ensures bounded { IfOk result (λ read. IsBounded read.0) }
    ensures ids { IfOk result (λ read. length read.0.ids ≤ 2 ^ 20) }
    ensures ends { IfErr result (EndsReading None (generated n seed)) }
    ensures never { is_read_fault result ≡ false }
{
    let drawn = generate(alloc, n, seed)?;
    let parts = match mesh_of(alloc, Format::Ucd, drawn.mesh.as_slice()) {
        Ok(parts) => parts,
        Err(ending) => return Err(ending),
    };
    match problem_of(alloc, drawn.problem.as_slice()) {
        Ok(problem) => Ok((parts, problem)),
        Err(ending) => Err(ending),
    }
}
