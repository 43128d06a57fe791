ghost use Rattle.std.specs.Prelude.{◌≡◌, ◌<◌, ◌≤◌, ◌++◌, length, map, IfOk, OnOk};
ghost use Rattle.std.specs.List.{range_with_len};
ghost use Rattle.batch_answers.specs.Outcome.{IsAnswer};
ghost use Rattle.batch_run.specs.Output.{job_over, part_of, IsOutput, IsOutputOf};

use crate::tasks::JobTasks;
use batch_answers::{Answer, Outcome};
use batch_pool::run_batch;
use batch_read::Job;
use batch_texts::Shelf;
use fem_fixed::NoMemory;
use itoa::{Buffer, Integer};
use scratch_pool::Gate;
use std::alloc::Global;
use std::sync::Wait;
use std::thread::Threads;

// No line of a job is longer.
const LINE_ROOM: usize = 32;

/// The text of a batch: for each job in their order the line `job K status S`, with its number, counted from 0, and its status,
/// and behind it the text that it writes, or its line. Workers take the jobs one after another; a worker passes the gate with the
/// number of a job before it runs it. It may wait, since a worker that found a job taken tries again.
pub fn batch_text<R: Threads + Wait + Sync, G: Gate + Sync>(
    rt: &R,
    alloc: Global,
    jobs: &[Job],
    shelf: &Shelf,
    workers: u32,
    gate: &G,
) -> Result<Vec<u8>, NoMemory>
    requires workers { (0 < workers) × (workers ≤ 64) }
    requires few { length jobs.now ≤ 65536 }
    ensures { IfOk result (λ text. IsOutput jobs.now shelf.now text.items) }
{
    let tasks = JobTasks { jobs, shelf };
    let answers = run_batch(rt, alloc, &tasks, workers, gate)?;
    text_of(alloc, answers.as_slice())
}

// The text of answers.
fn text_of(alloc: Global, answers: &[Answer<'_>]) -> Result<Vec<u8>, NoMemory>
    requires { length answers.now ≤ 65536 }
    ensures { IfOk result (λ text. IsOutputOf answers.now text.items) }
{
    let mut text = Vec::with_capacity(alloc, room_for(answers))?;
    for (job, answer) in answers.iter().enumerate() {
        push_part(&mut text, job as u32, answer.outcome())?;
    }
    Ok(text)
}

// Room for the texts and their lines, so that no text is moved when the next one comes. (There is no clause: a text with less room
// grows.)
fn room_for(answers: &[Answer<'_>]) -> usize {
    let mut room = 0usize;
    for answer in answers {
        let text = answer.outcome().text.len();
        room = room.saturating_add(text).saturating_add(LINE_ROOM);
    }
    room
}

// Adds the line of a job and its text.
fn push_part(text: &mut Vec<u8>, job: u32, outcome: &Outcome) -> Result<(), NoMemory>
    ensures { OnOk result (text.new.items ≡ text.old.items ++ part_of job outcome.now.status outcome.now.text.items) }
{
    text.extend_from_slice(b"job ")?;
    push_number(text, job)?;
    text.extend_from_slice(b" status ")?;
    push_number(text, outcome.status)?;
    text.extend_from_slice(b"\n")?;
    text.extend_from_slice(outcome.text.as_slice())?;
    Ok(())
}

fn push_number<I: Integer>(text: &mut Vec<u8>, number: I) -> Result<(), NoMemory>
    ensures { OnOk result (text.new.items ≡ text.old.items ++ I.text number) }
{
    let mut buffer = Buffer::new();
    text.extend_from_slice(buffer.format(number).as_bytes())?;
    Ok(())
}
