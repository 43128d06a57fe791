ghost use Rattle.batch_laws.specs.Runs.{AnswersAreDone, BatchesAreComplete, OthersRefuseBatches, RefusedBatchesWriteNothing, RefusedWordsHaveStatus2, StatusTellsTheAnswer};

use crate::laws::{batches_have_an_answer, batches_have_one_answer};

/// Over a store that tells what it holds, a run of a batch does what the batch's answer says: its status is 0 and the text was
/// written, or it is that of the refusal, whose line was told; or its status is 10, 11 or 12, since a read, a write or a put
/// failed or memory ran out.
pub fn answers_of_batches_are_done()
    ensures { AnswersAreDone }
{
    batches_have_one_answer();
}

/// Over such a store a run of a batch that is refused writes nothing.
pub fn refused_batches_write_nothing()
    ensures { RefusedBatchesWriteNothing }
{
    batches_have_one_answer();
}

/// Over such a store each status but 10, 11 and 12 tells the answer of the batch, and that the run did what it says.
pub fn a_status_tells_the_answer_of_a_batch()
    ensures { StatusTellsTheAnswer }
{
    batches_have_an_answer();
    answers_of_batches_are_done();
}

/// Over such a store: where neither the store nor standard output counted a fault in the run, its status is that of the batch's
/// answer, or 12 for want of memory.
pub fn runs_of_batches_are_complete()
    ensures { BatchesAreComplete }
{
    answers_of_batches_are_done();
}

/// The status of a run of any words is 2 exactly where they ask for no batch and are refused, over each store.
pub fn refused_words_have_status_2()
    ensures { RefusedWordsHaveStatus2 }
{
    answer_laws::refused_words_have_status_2();
}

/// A run that takes no batch, as `run_plain`, refuses words that ask for one: its status is 2.
pub fn other_runs_refuse_batches()
    ensures { OthersRefuseBatches }
{
    answer_laws::refused_words_have_status_2();
    run_words::batches_ask_for_nothing_else();
}
