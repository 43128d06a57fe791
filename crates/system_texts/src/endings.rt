//! The faults of sums as endings of a run.
ghost use Rattle.std.specs.Prelude.{◌≡◌};
ghost use Rattle.system_texts.specs.Endings.{of_local, of_sum};

use diagnostics::{Ending, LocalKind, Refusal};
use fixed_q1::LocalFault;
use serial_sum::AssembleFault;

/// How a run ends whose sum has this fault.
pub(crate) fn sum_ending(fault: AssembleFault) -> Ending
    ensures { result ≡ of_sum fault }
{
    match fault {
        AssembleFault::Local(cell, fault) => {
            Ending::Refused(Refusal::Local(cell, local_kind(fault)))
        }
        AssembleFault::Sum(cell, row) => Ending::Refused(Refusal::Sum(cell, row)),
        AssembleFault::NoMemory => Ending::NoMemory,
    }
}

/// The kind that is told of a fault of a local form.
pub fn local_kind(fault: LocalFault) -> LocalKind
    ensures { result ≡ of_local fault }
{
    match fault {
        LocalFault::Distorted => LocalKind::Distorted,
        LocalFault::Size => LocalKind::Size,
    }
}
