//! That the reading of a batch's texts has an outcome, and one alone: laws, with no code.
ghost use Rattle.batch_sources.specs.Laws.{HaveAReading, HaveOneReading};

/// Over a store that tells what it holds the batch under a name has one outcome at most: the same jobs and texts, or the same
/// refusal. So which refusal a run of a batch tells doesn't depend on anything but the store.
pub fn sources_have_one_reading()
    ensures { HaveOneReading }
{
    run_words::one_reading();
    batch_read::one_reading();
}

/// The batch under a name has an outcome over each store, so what is said of them is never empty.
pub fn sources_have_a_reading()
    ensures { HaveAReading }
{
    batch_read::one_reading();
}
