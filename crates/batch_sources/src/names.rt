//! The names of the texts that the jobs of a batch read.
ghost use Rattle.std.specs.Prelude.{◌≡◌, ◌≤◌, ◌++◌, ◌∷◌, [], List, map, length, IfOk, OnOk};
ghost use Rattle.run_words.specs.Choice.{Choice, seen_source};
ghost use Rattle.batch_texts.specs.Names.{seen_name};
ghost use Rattle.batch_sources.specs.Reads.{source_reads, AreReads};

use batch_read::Job;
use batch_texts::JobName;
use fem_fixed::NoMemory;
use run_words::Source;
use std::alloc::Global;

/// The names of the texts that jobs read, in the order of the work.
pub(crate) fn job_names<'a>(alloc: Global, jobs: &'a [Job]) -> Result<Vec<JobName<'a>>, NoMemory>
    requires { length jobs.now ≤ 65536 }
    ensures { IfOk result (λ reads. AreReads jobs.now (map seen_name reads.items)) }
{
    let mut reads = Vec::new(alloc);
    for (number, job) in jobs.iter().enumerate() {
        add_names(&mut reads, number as u32, job.options().source)?;
    }
    Ok(reads)
}

// Adds the names of a source: the mesh, and then the problem.
fn add_names<'a>(reads: &mut Vec<JobName<'a>>, job: u32, source: Source<'a>) -> Result<(), NoMemory>
    ensures { OnOk result (map seen_name reads.new.items ≡ map seen_name reads.old.items ++ source_reads job (seen_source source.entry)) }
{
    match source {
        Source::Texts {
            mesh,
            format: _,
            problem: None,
        } => add_name(reads, job, mesh),
        Source::Texts {
            mesh,
            format: _,
            problem: Some(problem),
        } => {
            add_name(reads, job, mesh)?;
            add_name(reads, job, problem)
        }
        Source::Generated { n: _, seed: _ } => Ok(()),
    }
}

fn add_name<'a>(reads: &mut Vec<JobName<'a>>, job: u32, name: &'a str) -> Result<(), NoMemory>
    ensures { OnOk result (map seen_name reads.new.items ≡ map seen_name reads.old.items ++ (job, name.now) ∷ []) }
{
    reads.push(JobName { job, name })?;
    Ok(())
}
