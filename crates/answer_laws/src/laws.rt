ghost use Rattle.answer_laws.specs.Laws.{HaveOneAnswer, HaveOneAnswerWithoutTexts};
ghost use Rattle.answer_laws.specs.Runs.{DefinedTextsAreWritten, DefinedRefusalsAreTold, ZeroTellsTheTexts, OthersTellTheRefusal, FaultsStopRuns, RunsAreComplete, RefusedWordsHaveStatus2};
ghost use Rattle.answer_laws.specs.Existence.{HaveAnAnswer};
ghost use Rattle.answer_laws.specs.Formats.{FormatsHaveOneAnswer, FormatsWriteTheSame};

use crate::parts::{
    known_texts_have_one_answer, mesh_texts_have_one_reading, sources_have_a_reading,
    systems_have_a_list_of_texts, vectors_have_a_reading,
};
use system_laws::{a_mesh_can_be_refined, a_mesh_has_a_set_up, texts_have_quadrilaterals};
use vector_laws::{forests_have_marks, systems_have_a_product};

/// Over a store that tells what it holds, words have at most one answer: the same texts for the same destinations, or
/// the same refusal. So a run with status 0 (`IsRun`) wrote the one list of texts that its words and the held texts
/// define, and all runs with status 0 on these words over these texts wrote the same.
pub fn words_have_one_answer()
    ensures { HaveOneAnswer }
{
    known_texts_have_one_answer();
}

/// Words that are refused, or that ask for a generated grid, have at most one answer over each store, whether or not
/// it tells what it holds. So a run with status 0 (`IsRun`) on such words wrote the one list of texts that the words
/// alone define. Over files and streams, of which no content is told, that says which texts were written, and not what
/// stands there afterwards.
pub fn words_without_texts_have_one_answer()
    ensures { HaveOneAnswerWithoutTexts }
{
    known_texts_have_one_answer();
}

/// Over a store that tells what it holds, and for words that read no text over each store: where words and texts define
/// texts, a run is no refusal. Its status is 0, and after all reads that the words name it wrote those texts and nothing
/// else; or its status is 10, 11 or 12, since a read, a write or a put failed or memory ran out.
pub fn defined_texts_are_written()
    ensures { DefinedTextsAreWritten }
{
    words_have_one_answer();
    words_without_texts_have_one_answer();
}

/// Over such stores and for such words: where words and texts define a refusal, a run writes nothing. Its status is that
/// of the refusal and the diagnostics took its line, or a prefix of it where they failed; or its status is 10 or 12,
/// since a read failed or memory ran out.
pub fn a_defined_refusal_is_told()
    ensures { DefinedRefusalsAreTold }
{
    words_have_one_answer();
    words_without_texts_have_one_answer();
}

/// Over such stores and for such words the status of a run tells the answer of its words and texts: with status 0 the
/// only answer is the texts that were written, after all reads that the words name, and with each status but 0, 10, 11
/// and 12 it is a refusal with this status, whose line the diagnostics took, or a prefix of it where they failed.
pub fn a_status_tells_the_answer()
    ensures written { ZeroTellsTheTexts }
    ensures refused { OthersTellTheRefusal }
{
    words_have_one_answer();
    words_without_texts_have_one_answer();
}

/// Where the last call of the store and that of standard output did not fail, no read and no write stopped a run: its
/// status is neither 10 nor 11. So over a `CleanStore` and a `DropSink`, of which no call fails, a run on words and texts that
/// define texts ends with status 0 or, for want of memory, with 12 (`defined_texts_are_written`).
pub fn faults_stop_runs()
    ensures { FaultsStopRuns }
{}

/// Over such stores and for such words: where neither the store nor standard output counted a fault in the run, its status is
/// that of the answer of its words and texts, with 0 for texts, or 12 for want of memory. No count of faults may stand at the
/// end of its type before the run, where it can't rise.
pub fn runs_are_complete()
    ensures { RunsAreComplete }
{
    defined_texts_are_written();
    a_defined_refusal_is_told();
}

/// The status of a run is 2 exactly where its words are refused, over each store, whatever it tells and holds: no other step of
/// the work has this status, and nothing else is told of such words.
pub fn refused_words_have_status_2()
    ensures { RefusedWordsHaveStatus2 }
{}

/// Words have an answer over each store, so what is said of answers is never empty: texts or a refusal.
pub fn words_have_an_answer()
    ensures { HaveAnAnswer }
{
    run_words::one_reading();
    run_words::words_have_a_reading();
    sources_have_a_reading();
    texts_have_quadrilaterals();
    a_mesh_has_a_set_up();
    systems_have_a_list_of_texts();
    vectors_have_a_reading();
    a_mesh_can_be_refined();
    systems_have_a_product();
    forests_have_marks();
}

/// Words that ask for the same, one list on a mesh text and the other on a text of the same mesh under another name or in the
/// other format, have the same answer, where each other text that they read is the same: in each mode the same texts for the
/// same destinations, or the same refusal.
pub fn formats_have_one_answer()
    ensures { FormatsHaveOneAnswer }
{
    run_words::one_reading();
    mesh_texts_have_one_reading();
}

/// Runs of such words with status 0 write the same texts.
pub fn formats_write_the_same()
    ensures { FormatsWriteTheSame }
{
    formats_have_one_answer();
    a_status_tells_the_answer();
}
