ghost use Rattle.std.specs.Prelude.{◌≡◌, ◌≤◌, ◌^◌, length, IfOk, IfErr, Ok, Some};
ghost use Rattle.std.specs.Option.{option_copied};
ghost use Rattle.fem_text.specs.Counts.{after_call};
ghost use Rattle.ucd_read.specs.Bounds.{IsBounded};
ghost use Rattle.diagnostics.specs.Stages as stages;
ghost use Rattle.run_texts.specs.Texts.{text_limit, ProblemIn, MeshOf, ProblemOf};
ghost use Rattle.run_texts.specs.Read.{TextUnder, MeshUnder, ProblemUnder, EndsIn, EndsProblem, after_read, is_read_fault};

use crate::endings::problem_text_ending;
use crate::formats::mesh_in;
use diagnostics::{Ending, LimitKind, Refusal, Role};
use fem_fixed::MeshParts;
use fem_text::{Store, StoreFault};
use problem_read::{Problem, read_problem};
use run_words::Format;
use std::alloc::Global;

// The greatest length of a text.
const TEXT_LIMIT: u64 = 268_435_456;

// What is told of a text above the limit.
fn size_limit(role: Role) -> LimitKind
    ensures { result ≡ Rattle.run_texts.specs.Texts.size_limit role }
{
    match role {
        Role::Mesh => LimitKind::MeshSize,
        Role::Problem => LimitKind::ProblemSize,
        Role::Vector => LimitKind::VectorSize,
    }
}

/// The text under a name, of at most 268,435,456 bytes.
#[tactic(auto, unfolding(crate::specs::Texts::text_limit), using(crate::proofs::Reading::long_read, crate::proofs::Reading::whole_read, crate::proofs::Reading::absent_read))]
pub(crate) fn read_text<S: Store>(
    alloc: Global,
    role: Role,
    name: &str,
    store: &mut S,
) -> Result<Vec<u8>, Ending>
    ensures ok { IfOk result (λ text. TextUnder role (S.holds store.old) name.now (Ok text.items)) }
    ensures short { IfOk result (λ text. length text.items ≤ text_limit) }
    ensures ends { IfErr result (EndsIn role (TextUnder role (S.holds store.old) name.now)) }
    ensures same { S.holds store.new ≡ S.holds store.old }
    ensures calls { S.counts store.new ≡ after_call (is_read_fault result) (S.counts store.old) }
{
    match store.read(alloc, name, TEXT_LIMIT) {
        Ok(text) => {
            if text.len() as u64 > TEXT_LIMIT {
                Err(Ending::Refused(Refusal::Limit(size_limit(role))))
            } else {
                Ok(text)
            }
        }
        Err(StoreFault::Failed) => Err(Ending::ReadFault(role)),
        Err(StoreFault::Absent) => Err(Ending::Refused(Refusal::Absent(role))),
        Err(StoreFault::NoMemory) => Err(Ending::NoMemory),
    }
}

/// The problem of a text.
#[tactic(auto, unfolding(crate::specs::Texts::text_limit), using(crate::proofs::Reading::problem_ends))]
pub(crate) fn problem_in(alloc: Global, text: &[u8]) -> Result<Problem, Ending>
    requires { length text.now ≤ text_limit }
    ensures ok { IfOk result (λ problem. ProblemIn text.now (Ok problem)) }
    ensures refused { IfErr result (stages.EndsIn (ProblemIn text.now)) }
{
    match read_problem(alloc, text) {
        Ok(problem) => Ok(problem),
        Err(fault) => Err(problem_text_ending(fault)),
    }
}

/// The mesh of a text that is there, in a format, where it is not too long.
#[tactic(auto, unfolding(crate::specs::Texts::text_limit))]
pub(crate) fn mesh_of(alloc: Global, format: Format, text: &[u8]) -> Result<MeshParts, Ending>
    ensures ok { IfOk result (λ parts. MeshOf format (Some text.now) (Ok parts)) }
    ensures bounded { IfOk result IsBounded }
    ensures ids { IfOk result (λ parts. length parts.ids ≤ 2 ^ 20) }
    ensures refused { IfErr result (stages.EndsIn (MeshOf format (Some text.now))) }
{
    if text.len() as u64 > TEXT_LIMIT {
        return Err(Ending::Refused(Refusal::Limit(LimitKind::MeshSize)));
    }
    mesh_in(alloc, format, text)
}

/// The problem of a text that is there, where it is not too long.
#[tactic(auto, unfolding(crate::specs::Texts::text_limit))]
pub(crate) fn problem_of(alloc: Global, text: &[u8]) -> Result<Problem, Ending>
    ensures ok { IfOk result (λ problem. ProblemOf (Some text.now) (Ok problem)) }
    ensures refused { IfErr result (stages.EndsIn (ProblemOf (Some text.now))) }
{
    if text.len() as u64 > TEXT_LIMIT {
        return Err(Ending::Refused(Refusal::Limit(LimitKind::ProblemSize)));
    }
    problem_in(alloc, text)
}

/// The mesh of the text under a name, in a format.
pub(crate) fn read_mesh<S: Store>(
    alloc: Global,
    name: &str,
    format: Format,
    store: &mut S,
) -> Result<MeshParts, Ending>
    ensures ok { IfOk result (λ parts. MeshUnder (S.holds store.old) name.now format (Ok parts)) }
    ensures bounded { IfOk result IsBounded }
    ensures ids { IfOk result (λ parts. length parts.ids ≤ 2 ^ 20) }
    ensures ends { IfErr result (EndsIn Role.Mesh (MeshUnder (S.holds store.old) name.now format)) }
    ensures same { S.holds store.new ≡ S.holds store.old }
    ensures calls { S.counts store.new ≡ after_call (is_read_fault result) (S.counts store.old) }
{
    let text = match read_text(alloc, Role::Mesh, name, store) {
        Ok(text) => text,
        Err(ending) => return Err(ending),
    };
    mesh_in(alloc, format, text.as_slice())
}

/// The problem of the text under a name, or of the empty text where there is no name.
pub(crate) fn read_named_problem<S: Store>(
    alloc: Global,
    name: Option<&str>,
    store: &mut S,
) -> Result<Problem, Ending>
    ensures ok { IfOk result (λ problem. ProblemUnder (S.holds store.old) (option_copied name.entry) (Ok problem)) }
    ensures ends { IfErr result (EndsProblem (S.holds store.old) (option_copied name.entry)) }
    ensures same { S.holds store.new ≡ S.holds store.old }
    ensures calls { S.counts store.new ≡ after_read (option_copied name.entry) (is_read_fault result) (S.counts store.old) }
{
    let Some(name) = name else {
        return problem_in(alloc, b"");
    };
    let text = match read_text(alloc, Role::Problem, name, store) {
        Ok(text) => text,
        Err(ending) => return Err(ending),
    };
    problem_in(alloc, text.as_slice())
}
