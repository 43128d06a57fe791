ghost use Rattle.std.specs.Prelude.{◌≡◌, map, OnOk, IfErr};
ghost use Rattle.run_outputs.specs.Targets.{World, seen_target, after_target, after_targets};
ghost use Rattle.run_outputs.specs.Stops.{StopsAt, StopsAmong};

use crate::Target;
use diagnostics::Ending;
use fem_text::{Failed, Sink, Store, StoreFault, put_text};
use run_words::Destination;
use std::alloc::Global;

/// Writes the texts one after another, up to the first that fails.
///
/// # Errors
///
/// `WriteFault` where a put or a write failed: the texts before it are whole, of it a part stands, and no later
/// one was begun. `NoMemory` where a write under a name ran out of memory: nothing of it stands.
pub fn write_targets<S: Store, K: Sink>(
    alloc: Global,
    targets: &[Target<'_>],
    store: &mut S,
    out: &mut K,
) -> Result<(), Ending>
    ensures all { OnOk result (◌≡◌ {A = World} (record { holds = S.holds store.new; taken = K.taken out.new; store = S.counts store.new; out = K.counts out.new }) (after_targets (record { holds = S.holds store.old; taken = K.taken out.old; store = S.counts store.old; out = K.counts out.old }) (map seen_target targets.now))) }
    ensures stops { IfErr result (StopsAmong (map seen_target targets.now) (record { holds = S.holds store.old; taken = K.taken out.old; store = S.counts store.old; out = K.counts out.old }) (record { holds = S.holds store.new; taken = K.taken out.new; store = S.counts store.new; out = K.counts out.new })) }
{
    for target in targets {
        match write_target(alloc, target, store, out) {
            Ok(()) => {}
            Err(ending) => return Err(ending),
        }
    }
    Ok(())
}

// Writes one text.
fn write_target<S: Store, K: Sink>(
    alloc: Global,
    target: &Target<'_>,
    store: &mut S,
    out: &mut K,
) -> Result<(), Ending>
    ensures all { OnOk result (◌≡◌ {A = World} (record { holds = S.holds store.new; taken = K.taken out.new; store = S.counts store.new; out = K.counts out.new }) (after_target (record { holds = S.holds store.old; taken = K.taken out.old; store = S.counts store.old; out = K.counts out.old }) (seen_target target.now))) }
    ensures stops { IfErr result (StopsAt (seen_target target.now) (record { holds = S.holds store.old; taken = K.taken out.old; store = S.counts store.old; out = K.counts out.old }) (record { holds = S.holds store.new; taken = K.taken out.new; store = S.counts store.new; out = K.counts out.new })) }
{
    match target.destination {
        Destination::Standard => match put_text(out, target.text.as_slice()) {
            Ok(()) => Ok(()),
            Err(Failed) => Err(Ending::WriteFault(target.output)),
        },
        Destination::Named(name) => match store.write(alloc, name, target.text.as_slice()) {
            Ok(()) => Ok(()),
            Err(StoreFault::NoMemory) => Err(Ending::NoMemory),
            Err(_) => Err(Ending::WriteFault(target.output)),
        },
    }
}
