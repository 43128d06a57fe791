//! Batches: what their jobs come to, in the order of the jobs, and when a batch is refused as a whole.
use crate::faults::{Failing, NO_FAULT};
use crate::runs::{After, Top, call, sink_of, store_of, words_of};
use crate::texts::{SQUARE, SQUARE_MATRIX, SQUARE_PATTERN};
use std::alloc::Global;
use std::rt::Runtime;
use std::sync::Wait;
use std::test::Fail;
use std::thread::Threads;

// A batch of three jobs, of which the last has a text without a line.
const THREE: &str = "# a square twice\n\n--mesh mesh\n--mode pattern --mesh mesh\n  --mesh=empty\n";

// The text of that batch.
fn three_parts(alloc: Global) -> Option<String> {
    format!(in alloc;
        "job 0 status 0\n{SQUARE_MATRIX}job 1 status 0\n{SQUARE_PATTERN}job 2 status 3\nassemble: 3 MeshText line 1 TooFew\n"
    ).ok()
}

// Texts of batches that are refused, with the status and the line, and how many texts are read before.
const REFUSED: [(&str, u8, &str, u64); 9] = [
    (
        "--mesh mesh\n--mode ordered --mesh mesh\n",
        16,
        "assemble: 16 BatchText line 2\n",
        1,
    ),
    (
        "--mesh mesh\n# jobs of runs\n\n--generate 2\n--mesh -\n",
        16,
        "assemble: 16 BatchText line 4\n",
        1,
    ),
    (
        "--mesh mesh --problem -\n",
        16,
        "assemble: 16 BatchText line 1\n",
        1,
    ),
    (
        "--mesh mesh --batch batch\n",
        16,
        "assemble: 16 BatchText line 1\n",
        1,
    ),
    (
        "--mesh mesh --workers 2\n",
        16,
        "assemble: 16 BatchText line 1\n",
        1,
    ),
    (
        "--problem problem\n",
        16,
        "assemble: 16 BatchText line 1\n",
        1,
    ),
    (" # no comment\n", 16, "assemble: 16 BatchText line 1\n", 1),
    (
        "--mesh nowhere --fast\n",
        16,
        "assemble: 16 BatchText line 1\n",
        1,
    ),
    (
        "--mesh mesh\n--mesh mesh --problem nowhere\n",
        17,
        "assemble: 17 Absent job 1\n",
        3,
    ),
];

// Words that ask for nothing.
const NO_WORDS: [&str; 8] = [
    "--batch",
    "--batch=",
    "--batch batch --batch batch",
    "--batch batch --mesh mesh",
    "--batch batch --digits 1",
    "--batch batch --summary",
    "--batch batch --workers 0",
    "--batch batch --rhs -",
];

// What a batch leaves over its text, with a call, in which some calls of the outside fail.
fn batch_with<R: Runtime + AllocGlobal + Threads + Wait + Sync>(
    rt: &R,
    top: Top,
    line: &str,
    text: &str,
    failing: Failing,
) -> Option<After> {
    let alloc = rt.alloc();
    let words = words_of(alloc, line)?;
    let mut store = store_of(alloc, SQUARE, "", failing)?;
    store.hold("batch", text.as_bytes()).ok()?;
    let mut out = sink_of(alloc, 65_536, failing.put)?;
    let mut err = sink_of(alloc, 4096, 0)?;
    let status = call(
        rt,
        alloc,
        top,
        words.as_slice(),
        &mut store,
        &mut out,
        &mut err,
    );
    Some(After {
        status,
        store,
        out,
        err,
    })
}

fn batch_over<R: Runtime + AllocGlobal + Threads + Wait + Sync>(
    rt: &R,
    line: &str,
    text: &str,
) -> Option<After> {
    batch_with(rt, Top::Chosen, line, text, NO_FAULT)
}

#[test]
fn jobs_stand_in_their_order_and_each_text_is_read_once(rt: HostRuntime) -> Result<(), Fail> {
    let Some(parts) = three_parts(rt.alloc()) else {
        return Err(Fail::from("memory"));
    };
    for words in [
        "--batch batch",
        "--batch=batch --workers 1",
        "--workers=8 --batch batch --matrix -",
    ] {
        let after = batch_over(&rt, words, THREE);
        assert!(rt;
            after.is_some_and(|after| after.is(0, parts.as_str(), "")
                && after.store.counts().calls == 3),
            "{words}"
        );
    }
    let after = batch_over(&rt, "--batch batch --matrix m", THREE);
    assert!(rt;
        after.is_some_and(|after| after.is(0, "", "") && after.holds("m", Some(parts.as_str())))
    );
    Ok(())
}

#[test]
fn a_batch_without_jobs_has_an_empty_text(rt: HostRuntime) {
    let after = batch_over(&rt, "--batch batch", "# none\n\n");
    assert!(rt; after.is_some_and(|after| after.is(0, "", "") && after.had_calls(1, 0)));
}

#[test]
fn the_first_fault_of_a_batch_is_told_and_nothing_is_written(rt: HostRuntime) {
    for (text, status, line, reads) in REFUSED {
        let after = batch_over(&rt, "--batch batch", text);
        assert!(rt;
            after.is_some_and(|after| after.is(status, "", line) && after.had_calls(reads, 0)),
            "{text}"
        );
    }
    let after = batch_over(&rt, "--batch nowhere", "");
    assert!(rt; after.is_some_and(|after| after.is(17, "", "assemble: 17 Absent batch\n")));
}

#[test]
fn a_batch_has_no_other_options_and_is_for_a_run_that_may_wait(rt: HostRuntime) {
    for words in NO_WORDS {
        let after = batch_over(&rt, words, THREE);
        assert!(rt;
            after.is_some_and(|after| after.is(2, "", "assemble: 2 Words\n")
                && after.had_calls(0, 0)),
            "{words}"
        );
    }
    let plain = batch_with(&rt, Top::Plain, "--batch batch", THREE, NO_FAULT);
    assert!(rt; plain.is_some_and(|after| after.is(2, "", "assemble: 2 Words\n")));
}

#[test]
fn a_read_or_a_write_that_fails_ends_a_batch(rt: HostRuntime) {
    for (read, line) in [
        (1, "assemble: 10 ReadFault batch\n"),
        (2, "assemble: 10 ReadFault job 0\n"),
        (3, "assemble: 10 ReadFault job 2\n"),
    ] {
        let failing = Failing { read, ..NO_FAULT };
        let after = batch_with(&rt, Top::Waiting, "--batch batch", THREE, failing);
        assert!(rt;
            after.is_some_and(|after| after.is(10, "", line) && after.had_calls(read, 0)),
            "{line}"
        );
    }
    let failing = Failing { put: 1, ..NO_FAULT };
    let after = batch_with(&rt, Top::Waiting, "--batch batch", THREE, failing);
    assert!(rt; after.is_some_and(|after| after.is(11, "", "assemble: 11 WriteFault matrix\n")));
}
