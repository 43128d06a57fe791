//! Laws of batches: a batch has an answer, and one at most over a store that tells what it holds; its text is what runs of its
//! jobs alone write over that store; and a run does what that answer says unless the outside stops it.
#![tactic(auto)]

mod laws;
mod runs;

pub use laws::{batches_have_an_answer, batches_have_one_answer, batches_write_what_runs_write};
pub use runs::{
    a_status_tells_the_answer_of_a_batch, answers_of_batches_are_done, other_runs_refuse_batches,
    refused_batches_write_nothing, refused_words_have_status_2, runs_of_batches_are_complete,
};
