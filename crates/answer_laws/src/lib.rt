//! Laws of answers: words have an answer, and one at most where the texts that are read are known; a run does what that
//! answer says unless the outside stops it, and the status of a run tells the answer. The format of a mesh text doesn't matter.
#![tactic(auto)]

mod laws;
mod parts;

pub use laws::{
    a_defined_refusal_is_told, a_status_tells_the_answer, defined_texts_are_written,
    faults_stop_runs, formats_have_one_answer, formats_write_the_same, refused_words_have_status_2,
    runs_are_complete, words_have_an_answer, words_have_one_answer,
    words_without_texts_have_one_answer,
};
