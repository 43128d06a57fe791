ghost use Rattle.std.specs.Prelude.{◌≡◌, IfOk};
ghost use Rattle.batch_answers.specs.Outcome.{IsAnswer};

use crate::Outcome;
use crate::outcome::{ended, written};
use batch_read::Job;
use batch_texts::{Shelf, ShelfStore};
use fem_fixed::NoMemory;
use run_targets::plain_targets;
use run_words::choices_are_within;
use scratch_pool::OpenGate;
use std::alloc::Global;
use std::marker::Model;
use std::thread::Threads;

/// What a job came to, with the job and the texts that it is of. Contracts see the words of the job and the texts.
#[derive(Drop)]
pub struct Answer<'a> {
    job: &'a Job,
    shelf: &'a Shelf,
    outcome: Outcome,
}

impl<'a> Model for Answer<'a> {
    ghost use Rattle.batch_answers.specs.Outcome.{JobOver, IsAnswer};

    ghost Value = { JobOver };

    ghost view = { λ answer. record { words = answer.job.now; texts = answer.shelf.now } };

    ghost invariant = { λ answer. IsAnswer answer.job.now answer.shelf.now answer.outcome.status answer.outcome.text.items };
}

impl<'a> Answer<'a> {
    /// The status and the text, or the line, of the job.
    pub fn outcome(&self) -> &Outcome
        ensures { IsAnswer self.now.words self.now.texts result.now.status result.now.text.items }
    {
        &self.outcome
    }
}

/// What a job comes to over these texts. It does not wait.
pub fn answer_job<'a, R: Threads + Sync>(
    rt: &R,
    alloc: Global,
    job: &'a Job,
    shelf: &'a Shelf,
) -> Result<Answer<'a>, NoMemory>
    ensures { IfOk result (λ answer. answer ≡ record { words = job.now; texts = shelf.now }) }
{
    match answer_text(rt, alloc, job, shelf) {
        Ok(outcome) => Ok(Answer {
            job,
            shelf,
            outcome,
        }),
        Err(NoMemory) => Err(NoMemory),
    }
}

// The status and the text of a job over these texts: what it writes, with status 0, or else its line.
fn answer_text<R: Threads + Sync>(
    rt: &R,
    alloc: Global,
    job: &Job,
    shelf: &Shelf,
) -> Result<Outcome, NoMemory>
    ensures { IfOk result (λ outcome. IsAnswer job.now shelf.now outcome.status outcome.text.items) }
{
    choices_are_within();
    let options = job.options();
    let mut store = ShelfStore::over(shelf);
    match plain_targets(rt, alloc, &options, &mut store, &OpenGate) {
        Ok(targets) => written(alloc, targets.as_slice()),
        Err(ending) => ended(alloc, ending),
    }
}
