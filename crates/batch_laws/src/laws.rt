ghost use Rattle.batch_laws.specs.Laws.{BatchesHaveAnAnswer, BatchesHaveOneAnswer, BatchesWriteWhatRunsWrite};

use answer_laws::{words_have_an_answer, words_have_one_answer};
use batch_sources::{sources_have_a_reading, sources_have_one_reading};

/// Over a store that tells what it holds, the text of a batch has for each job, in their order, the line with its number and its
/// status, and behind it what a run of its words alone writes over that store (`IsRun`), or the line of its refusal: the jobs of a
/// batch do nothing to one another, and it is as if each were run by itself.
pub fn batches_write_what_runs_write()
    ensures { BatchesWriteWhatRunsWrite }
{
    run_words::one_reading();
    words_have_one_answer();
}

/// Over a store that tells what it holds, a batch has at most one answer: one text, or one refusal. So it does not matter how
/// many workers there are, and which worker takes which job.
pub fn batches_have_one_answer()
    ensures { BatchesHaveOneAnswer }
{
    run_words::one_reading();
    words_have_one_answer();
    batch_read::one_reading();
    sources_have_one_reading();
}

/// A batch has an answer over each store, so what is said of answers is never empty: a text or a refusal.
pub fn batches_have_an_answer()
    ensures { BatchesHaveAnAnswer }
{
    run_words::one_reading();
    words_have_an_answer();
    sources_have_a_reading();
}
