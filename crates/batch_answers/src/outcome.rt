ghost use Rattle.std.specs.Prelude.{◌≡◌, map, IfOk};
ghost use Rattle.run_outputs.specs.Targets.{seen_target};
ghost use Rattle.batch_answers.specs.Outcome.{text_of};
ghost use Rattle.batch_answers.specs.Ends.{IsOfTexts, IsRefusalOf};

use diagnostics::{Ending, Refusal};
use fem_fixed::NoMemory;
use fem_text::MemorySink;
use run_outputs::Target;
use std::alloc::Global;

// No line of a refusal is longer.
const LINE_ROOM: usize = 128;

/// What a job comes to.
#[derive(Drop)]
pub struct Outcome {
    /// The status that a run of the job's words ends with.
    pub status: u8,
    /// What it writes with status 0, and else its line.
    pub text: Vec<u8>,
}

/// The texts that a job writes, one behind the other.
pub(crate) fn written(alloc: Global, targets: &[Target<'_>]) -> Result<Outcome, NoMemory>
    ensures { IfOk result (λ outcome. (outcome.status ≡ 0) × (outcome.text.items ≡ text_of (map seen_target targets.now))) }
{
    let mut text = Vec::new(alloc);
    for target in targets {
        text.extend_from_slice(target.text.as_slice())?;
    }
    Ok(Outcome { status: 0, text })
}

/// The end of a job that writes nothing. No read or write of it fails, since its texts are there.
pub(crate) fn ended(alloc: Global, ending: Ending) -> Result<Outcome, NoMemory>
    requires { IsOfTexts ending }
    ensures { IfOk result (λ outcome. IsRefusalOf ending outcome.status outcome.text.items) }
{
    match ending {
        Ending::Refused(refusal) => refused(alloc, refusal),
        Ending::NoMemory => Err(NoMemory),
        Ending::ReadFault(_) | Ending::WriteFault(_) => unreachable!(),
    }
}

// The status and the line of a refusal.
fn refused(alloc: Global, refusal: Refusal) -> Result<Outcome, NoMemory>
    ensures { IfOk result (λ outcome. IsRefusalOf (Ending.Refused refusal) outcome.status outcome.text.items) }
{
    let mut sink = MemorySink::new(alloc, LINE_ROOM, Vec::new(alloc))?;
    refusal.put_line(&mut sink);
    if sink.counts().failed_last {
        return Err(NoMemory);
    }
    let text = sink.taken().to_vec(alloc)?;
    Ok(Outcome {
        status: refusal.status(),
        text,
    })
}
