ghost use Rattle.std.specs.Prelude.{◌≤◌, length};

use batch_answers::{Answer, answer_job};
use batch_pool::Tasks;
use batch_read::Job;
use batch_texts::Shelf;
use fem_fixed::NoMemory;
use std::alloc::Global;
use std::thread::Threads;

/// The jobs of a batch as tasks, all over the same texts.
#[derive(Drop)]
pub(crate) struct JobTasks<'a> {
    pub(crate) jobs: &'a [Job],
    pub(crate) shelf: &'a Shelf,
    ghost few: { length jobs.now ≤ 65536 },
}

impl<'a> Tasks for JobTasks<'a> {
    ghost use Rattle.std.specs.Prelude.{◌≤◌, length};
    ghost use Rattle.batch_run.specs.Output.{job_over};

    type Output = Answer<'a>;

    ghost total = { λ tasks. length tasks.jobs.now };

    ghost output = { λ tasks job. job_over tasks.jobs.now tasks.shelf.now job };

    fn count(&self) -> u32 {
        self.jobs.len() as u32
    }

    fn run<R: Threads + Sync>(
        &self,
        rt: &R,
        alloc: Global,
        task: u32,
    ) -> Result<Answer<'a>, NoMemory> {
        answer_job(rt, alloc, &self.jobs[task as usize], self.shelf)
    }
}
