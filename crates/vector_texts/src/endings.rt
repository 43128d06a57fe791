//! The faults of a product and of indicators as endings of a run.
ghost use Rattle.std.specs.Prelude.{◌≡◌};
ghost use Rattle.vector_texts.specs.Endings.{of_product, of_indicators};

use diagnostics::{Ending, Refusal};
use jump_refine::IndicatorFault;
use matrix_free::ApplyFault;
use system_texts::local_kind;

/// How a run ends whose product has this fault.
pub(crate) fn product_ending(fault: ApplyFault) -> Ending
    ensures { result ≡ of_product fault }
{
    match fault {
        ApplyFault::Local(cell, fault) => Ending::Refused(Refusal::Local(cell, local_kind(fault))),
        ApplyFault::Size(cell) => Ending::Refused(Refusal::Product(cell)),
        ApplyFault::NoMemory => Ending::NoMemory,
    }
}

/// How a run ends whose indicators have this fault.
pub(crate) fn indicators_ending(fault: IndicatorFault) -> Ending
    ensures { result ≡ of_indicators fault }
{
    match fault {
        IndicatorFault::Local(cell, fault) => {
            Ending::Refused(Refusal::Local(cell, local_kind(fault)))
        }
        IndicatorFault::NoMemory => Ending::NoMemory,
    }
}
