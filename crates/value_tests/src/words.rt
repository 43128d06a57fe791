//! What words ask for, where no run shows it.
use run_words::{Options, read_words, wants_wait};
use std::alloc::Global;

// The words that blanks part.
fn words_of(alloc: Global, line: &str) -> Option<Vec<String>> {
    let mut words = Vec::new(alloc);
    for word in line.split_whitespace() {
        words.push(String::from_str(alloc, word).ok()?).ok()?;
    }
    Some(words)
}

// The plan and the digits as a text.
fn plan_text(alloc: Global, options: &Options<'_>) -> Option<String> {
    let plan = options.plan;
    let digits = options.digits;
    let workers = plan.workers;
    let queue = plan.queue;
    let chunk = plan.chunk;
    let scratch = plan.scratch;
    format!(in alloc; "{workers} {queue} {chunk} {scratch}, {digits}").ok()
}

// How many workers, places in the queue, cells of a chunk and scratch objects the words ask for, and how many digits.
fn plan_of(alloc: Global, line: &str) -> Option<String> {
    let words = words_of(alloc, line)?;
    let options = read_words(words.as_slice())?;
    plan_text(alloc, &options)
}

#[test]
fn plans_have_their_defaults(rt: HostRuntime) {
    for (line, plan) in [
        ("--mesh square", "4 8 8 4, 0"),
        (
            "--workers=3 --mesh=a=b --digits 064 --mode colored",
            "3 6 8 3, 64",
        ),
        (
            "--mesh a --queue 256 --chunk=64 --scratch 1 --workers 64",
            "64 256 64 1, 0",
        ),
        ("--mesh a --workers 64", "64 128 8 64, 0"),
    ] {
        let told = plan_of(rt.alloc(), line);
        assert!(rt; told.is_some_and(|told| told.as_str() == plan), "{line}");
    }
}

// Whether a run of these words may wait.
fn waits(alloc: Global, line: &str) -> Option<bool> {
    let words = words_of(alloc, line)?;
    Some(wants_wait(words.as_slice()))
}

#[test]
fn a_run_waits_where_the_mode_is_ordered_or_there_is_a_batch(rt: HostRuntime) {
    for (line, answer) in [
        ("--mesh a --mode ordered", true),
        ("--mode=ordered --mesh a", true),
        ("--mode --mode ordered", true),
        ("ordered --mode", false),
        ("--mode=serial ordered", false),
        ("--mesh ordered", false),
        ("--workers 2 --batch jobs", true),
        ("--batch=", true),
        ("--batches jobs", false),
    ] {
        assert_eq!(rt; waits(rt.alloc(), line), Some(answer), "{line}");
    }
}
