//! The words behind the program's name: what they ask of a run.
#![tactic(auto)]

mod batch;
mod choice;
mod job;
mod mode;
mod name;
mod opening;
mod options;
mod reader;
mod settings;
mod switch;
mod values;
mod wait;

pub use batch::{
    batches_are_within, batches_ask_for_nothing_else, one_batch_reading, read_batch_words,
    words_have_a_batch_or_none,
};
pub use job::{read_job, words_have_a_job_or_none};
pub use options::{
    BatchOptions, Destination, Faces, Format, Mode, Options, Output, Plan, Source, Subdomain,
    SystemMode, VectorTask,
};
pub use reader::{choices_are_within, one_reading, read_words, words_have_a_reading};
pub use wait::{batch_is_named, ordered_is_named, wants_wait};
