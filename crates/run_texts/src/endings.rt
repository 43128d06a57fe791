//! The faults of the texts as endings of a run.
ghost use Rattle.std.specs.Prelude.{◌≡◌};
ghost use Rattle.run_texts.specs.Endings.{of_ucd, of_msh, of_problem_text, of_vector_text};

use diagnostics::{
    Ending, LimitKind, MeshTextKind, ProblemTextKind, Refusal, VectorFault, VectorTextKind,
};
use matrix_market::{MarketFault, MarketKind};
use msh_read::{MshFault, MshKind};
use problem_read::{ProblemFault, ProblemKind};
use ucd_read::{UcdFault, UcdKind};

/// How a run ends whose mesh text in UCD has this fault.
pub(crate) fn ucd_ending(fault: UcdFault) -> Ending
    ensures { result ≡ of_ucd fault.kind fault.line }
{
    let kind = match fault.kind {
        UcdKind::Header => MeshTextKind::Header,
        UcdKind::NodeLine => MeshTextKind::NodeLine,
        UcdKind::CellLine => MeshTextKind::CellLine,
        UcdKind::Number => MeshTextKind::Number,
        UcdKind::DuplicateId => MeshTextKind::DuplicateId,
        UcdKind::UnknownNode => MeshTextKind::UnknownNode,
        UcdKind::UnsupportedType => MeshTextKind::UnsupportedType,
        UcdKind::TooFew => MeshTextKind::TooFew,
        UcdKind::Limit => {
            return Ending::Refused(Refusal::Limit(LimitKind::MeshCount(fault.line)));
        }
        UcdKind::NoMemory => return Ending::NoMemory,
    };
    Ending::Refused(Refusal::MeshText(kind, fault.line))
}

/// How a run ends whose mesh text in MSH has this fault.
pub(crate) fn msh_ending(fault: MshFault) -> Ending
    ensures { result ≡ of_msh fault.kind fault.line }
{
    let kind = match fault.kind {
        MshKind::Format => MeshTextKind::Format,
        MshKind::NodeLine => MeshTextKind::NodeLine,
        MshKind::ElementLine => MeshTextKind::ElementLine,
        MshKind::Number => MeshTextKind::Number,
        MshKind::DuplicateId => MeshTextKind::DuplicateId,
        MshKind::UnknownNode => MeshTextKind::UnknownNode,
        MshKind::UnsupportedType => MeshTextKind::UnsupportedType,
        MshKind::TooFew => MeshTextKind::TooFew,
        MshKind::Section => MeshTextKind::Section,
        MshKind::Limit => {
            return Ending::Refused(Refusal::Limit(LimitKind::MeshCount(fault.line)));
        }
        MshKind::NoMemory => return Ending::NoMemory,
    };
    Ending::Refused(Refusal::MeshText(kind, fault.line))
}

/// How a run ends whose problem text has this fault.
pub(crate) fn problem_text_ending(fault: ProblemFault) -> Ending
    ensures { result ≡ of_problem_text fault.kind fault.line }
{
    let kind = match fault.kind {
        ProblemKind::Word => ProblemTextKind::Word,
        ProblemKind::Number => ProblemTextKind::Number,
        ProblemKind::Repeated => ProblemTextKind::Repeated,
        ProblemKind::Limit => {
            return Ending::Refused(Refusal::Limit(LimitKind::ProblemCount(fault.line)));
        }
        ProblemKind::NoMemory => return Ending::NoMemory,
    };
    Ending::Refused(Refusal::ProblemText(kind, fault.line))
}

/// How a run ends whose text of a vector has this fault.
pub(crate) fn vector_text_ending(fault: MarketFault) -> Ending
    ensures { result ≡ of_vector_text fault.kind fault.line }
{
    let kind = match fault.kind {
        MarketKind::Banner => VectorTextKind::Banner,
        MarketKind::Size => VectorTextKind::Size,
        MarketKind::Entry => VectorTextKind::Entry,
        MarketKind::TooFew => VectorTextKind::TooFew,
        MarketKind::NoMemory => return Ending::NoMemory,
    };
    Ending::Refused(Refusal::Vector(VectorFault::Text(kind, fault.line)))
}
