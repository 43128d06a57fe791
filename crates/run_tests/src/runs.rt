//! Runs over stores and sinks in memory. What they are to leave is worked by hand from the formats, or comes from
//! another program where a comment says so.
use crate::cases::{ALIKE, BOTH, CHOSEN, MESH, SAME, SOME_LINES, WRITTEN};
use crate::faults::{FAULTY, Failing, Faulty, NO_FAULT};
use crate::refusals::{BAD_PROBLEMS, NO_WORDS, REFUSED};
use crate::stores::{Blanks, Poor};
use crate::texts::{GRID, GRID_MATRIX, SQUARE, SQUARE_MATRIX, TINY};
use assemble_core::{run, run_chosen, run_plain};
use fem_text::{CleanStore, DropSink, MemorySink, MemoryStore, Store};
use scratch_pool::OpenGate;
use std::alloc::Global;
use std::rt::Runtime;
use std::sync::Wait;
use std::test::Fail;
use std::thread::Threads;

// Which call is made: one of the two, or that which chooses between them.
#[derive(Clone, Copy)]
pub(crate) enum Top {
    Plain,
    Waiting,
    Chosen,
}

// The two calls.
const TOPS: [Top; 2] = [Top::Plain, Top::Waiting];

// What stands after a run.
#[derive(Drop)]
pub(crate) struct After {
    pub(crate) status: u8,
    pub(crate) store: MemoryStore,
    pub(crate) out: MemorySink,
    pub(crate) err: MemorySink,
}

impl After {
    // Whether the run ended so, with this text on standard output and this line on the diagnostics.
    pub(crate) fn is(&self, status: u8, text: &str, line: &str) -> bool {
        self.status == status
            && self.out.taken() == text.as_bytes()
            && self.err.taken() == line.as_bytes()
    }

    // Whether the store and standard output had so many calls, and no call followed a failed one.
    pub(crate) fn had_calls(&self, calls: u64, puts: u64) -> bool {
        let store = self.store.counts();
        let out = self.out.counts();
        store.calls == calls
            && out.calls == puts
            && store.faults == u64::from(store.failed_last)
            && out.faults == u64::from(out.failed_last)
            && !(store.failed_last && out.failed_last)
    }

    // Whether this line stands on standard output.
    pub(crate) fn has_line(&self, line: &str) -> bool {
        self.out
            .taken()
            .split(|byte| *byte == b'\n')
            .any(|had| had == line.as_bytes())
    }

    // Whether the store holds this text under a name, or nothing.
    pub(crate) fn holds(&self, name: &str, text: Option<&str>) -> bool {
        match (self.store.held(name), text) {
            (Some(held), Some(text)) => held == text.as_bytes(),
            (None, None) => true,
            _ => false,
        }
    }
}

// The words that blanks part.
pub(crate) fn words_of(alloc: Global, line: &str) -> Option<Vec<String>> {
    let mut words = Vec::new(alloc);
    for word in line.split_whitespace() {
        words.push(String::from_str(alloc, word).ok()?).ok()?;
    }
    Some(words)
}

pub(crate) fn store_of(
    alloc: Global,
    mesh: &str,
    problem: &str,
    failing: Failing,
) -> Option<MemoryStore> {
    let reads = vec![in alloc; failing.read].ok()?;
    let writes = vec![in alloc; failing.write].ok()?;
    let mut store = MemoryStore::new(alloc, reads, writes);
    store.hold("mesh", mesh.as_bytes()).ok()?;
    store.hold("problem", problem.as_bytes()).ok()?;
    store.hold("empty", b"").ok()?;
    Some(store)
}

pub(crate) fn sink_of(alloc: Global, room: usize, failing: u64) -> Option<MemorySink> {
    MemorySink::new(alloc, room, vec![in alloc; failing].ok()?).ok()
}

// Makes the call. (There is no clause to prove.)
#[tactic(none)]
pub(crate) fn call<R: Runtime + Threads + Wait + Sync, S: Store>(
    rt: &R,
    alloc: Global,
    top: Top,
    words: &[String],
    store: &mut S,
    out: &mut MemorySink,
    err: &mut MemorySink,
) -> u8 {
    match top {
        Top::Plain => run_plain(rt, alloc, words, store, out, err, &OpenGate),
        Top::Waiting => run(rt, alloc, words, store, out, err, &OpenGate),
        Top::Chosen => run_chosen(rt, alloc, words, store, out, err, &OpenGate),
    }
}

// What stands after a run in which some calls fail, with so much room on standard output.
fn run_with<R: Runtime + AllocGlobal + Threads + Wait + Sync>(
    rt: &R,
    top: Top,
    line: &str,
    texts: (&str, &str),
    failing: Failing,
    room: usize,
) -> Option<After> {
    let alloc = rt.alloc();
    let words = words_of(alloc, line)?;
    let mut store = store_of(alloc, texts.0, texts.1, failing)?;
    let mut out = sink_of(alloc, room, failing.put)?;
    let mut err = sink_of(alloc, 4096, failing.diagnostic)?;
    let status = call(
        rt,
        alloc,
        top,
        words.as_slice(),
        &mut store,
        &mut out,
        &mut err,
    );
    Some(After {
        status,
        store,
        out,
        err,
    })
}

// What stands after a run in which no call fails.
fn run_over<R: Runtime + AllocGlobal + Threads + Wait + Sync>(
    rt: &R,
    top: Top,
    line: &str,
    mesh: &str,
    problem: &str,
) -> Option<After> {
    run_with(rt, top, line, (mesh, problem), NO_FAULT, 65_536)
}

// Whether both calls leave this.
fn leaves<R: Runtime + AllocGlobal + Threads + Wait + Sync>(
    rt: &R,
    line: &str,
    texts: (&str, &str),
    status: u8,
    text: &str,
    told: &str,
) -> bool {
    for top in TOPS {
        match run_over(rt, top, line, texts.0, texts.1) {
            Some(after) => {
                if !after.is(status, text, told) {
                    return false;
                }
            }
            None => return false,
        }
    }
    true
}

#[test]
fn systems_patterns_colours_and_summaries_are_written(rt: HostRuntime) {
    for (words, mesh, problem, text) in WRITTEN {
        assert!(rt;
            leaves(&rt, words, (mesh, problem), 0, text, ""),
            "{words} {problem}"
        );
    }
}

#[test]
fn the_first_fault_is_told_and_nothing_is_written(rt: HostRuntime) {
    for (words, mesh, problem, status, line) in REFUSED {
        assert!(rt;
            leaves(&rt, words, (mesh, problem), status, "", line),
            "{line}"
        );
    }
}

#[test]
fn words_that_ask_for_nothing_are_refused(rt: HostRuntime) {
    for words in NO_WORDS {
        assert!(rt;
            leaves(&rt, words, ("", ""), 2, "", "assemble: 2 Words\n"),
            "{words}"
        );
    }
}

#[test]
fn the_first_fault_of_a_problem_is_told(rt: HostRuntime) {
    for (problem, line) in BAD_PROBLEMS {
        assert!(rt; leaves(&rt, BOTH, (SQUARE, problem), 4, "", line), "{line}");
    }
}

// Whether a run ends well with these lines.
fn has_lines<R: Runtime + AllocGlobal + Threads + Wait + Sync>(
    rt: &R,
    line: &str,
    texts: (&str, &str),
    lines: &[&str],
) -> bool {
    match run_over(rt, Top::Plain, line, texts.0, texts.1) {
        Some(after) => after.status == 0 && lines.iter().all(|line| after.has_line(line)),
        None => false,
    }
}

#[test]
fn steps_jumps_and_large_weights_have_their_lines(rt: HostRuntime) {
    for (words, mesh, problem, lines) in SOME_LINES {
        assert!(rt;
            has_lines(&rt, words, (mesh, problem), lines),
            "{words} {problem}"
        );
    }
}

// Whether a run ends well with the text of another.
fn agrees<R: Runtime + AllocGlobal + Threads + Wait + Sync>(
    rt: &R,
    line: &str,
    texts: (&str, &str),
    other: &After,
) -> bool {
    match run_over(rt, Top::Waiting, line, texts.0, texts.1) {
        Some(after) => after.status == 0 && after.out.taken() == other.out.taken(),
        None => false,
    }
}

#[test]
fn threads_give_the_same_text(rt: HostRuntime) -> Result<(), Fail> {
    for (all, mesh, problem, line) in SAME {
        if all.len() > 100 {
            return Err("too many words".into());
        }
        let words = all.first().copied().ok_or("words")?;
        let first = run_over(&rt, Top::Plain, words, mesh, problem).ok_or("a run")?;
        assert!(rt; first.status == 0 && first.has_line(line), "{line}");
        for words in all {
            assert!(rt; agrees(&rt, words, (mesh, problem), &first), "{words}");
        }
    }
    Ok(())
}

// Whether two runs end well with the same text.
fn are_alike<R: Runtime + AllocGlobal + Threads + Wait + Sync>(
    rt: &R,
    first: (&str, &str, &str),
    second: (&str, &str, &str),
) -> bool {
    match run_over(rt, Top::Waiting, first.0, first.1, first.2) {
        Some(after) => { after.status == 0 && agrees(rt, second.0, (second.1, second.2), &after) }
        None => false,
    }
}

#[test]
fn texts_that_say_the_same_have_the_same_system(rt: HostRuntime) {
    for [first, second] in ALIKE {
        assert!(rt; are_alike(&rt, first, second), "{}", second.0);
    }
}

// Whether a run that may wait leaves this.
fn waits_and_leaves<R: Runtime + AllocGlobal + Threads + Wait + Sync>(
    rt: &R,
    line: &str,
    mesh: &str,
    status: u8,
    text: &str,
    told: &str,
) -> bool {
    match run_over(rt, Top::Waiting, line, mesh, "") {
        Some(after) => after.is(status, text, told),
        None => false,
    }
}

#[test]
fn the_mode_ordered_is_for_a_run_that_may_wait(rt: HostRuntime) {
    let told = "assemble: 7 Local cell 1 Distorted\n";
    for words in [
        "--mode ordered --mesh mesh --workers 1",
        "--mesh=mesh --mode=ordered --workers=8",
    ] {
        assert!(rt; waits_and_leaves(&rt, words, SQUARE, 0, SQUARE_MATRIX, ""));
        assert!(rt; waits_and_leaves(&rt, words, TINY, 7, "", told));
        let after = run_over(&rt, Top::Plain, words, SQUARE, "");
        assert!(rt; after.is_some_and(|after| after.is(2, "", "assemble: 2 Words\n")));
    }
}

// Whether the call that chooses leaves this.
fn chooses_and_leaves<R: Runtime + AllocGlobal + Threads + Wait + Sync>(
    rt: &R,
    line: &str,
    mesh: &str,
    status: u8,
    text: &str,
    told: &str,
) -> bool {
    match run_over(rt, Top::Chosen, line, mesh, "") {
        Some(after) => after.is(status, text, told),
        None => false,
    }
}

#[test]
fn words_with_and_without_ordered_choose_their_call(rt: HostRuntime) {
    for (words, mesh, status, text, told) in CHOSEN {
        assert!(rt;
            chooses_and_leaves(&rt, words, mesh, status, text, told),
            "{words}"
        );
    }
}

// Whether both calls leave what a run with failing calls is to leave.
fn leaves_after_faults<R: Runtime + AllocGlobal + Threads + Wait + Sync>(
    rt: &R,
    case: &Faulty,
) -> bool {
    for top in TOPS {
        let texts = (SQUARE, "source 1 1\n");
        match run_with(rt, top, case.words, texts, case.failing, 65_536) {
            Some(after) => {
                if !after.is(case.status, case.out, case.line)
                    || !after.holds("m", case.matrix)
                    || !after.holds("r", case.right_side)
                    || !after.had_calls(case.calls, case.puts)
                {
                    return false;
                }
            }
            None => return false,
        }
    }
    true
}

#[test]
fn a_call_that_fails_ends_the_run(rt: HostRuntime) {
    for (i, case) in FAULTY.iter().enumerate() {
        assert!(rt;
            leaves_after_faults(&rt, case),
            "number {i}: {}",
            case.words
        );
    }
}

// Whether the diagnostics have the line of a run, or what stood of it before a put that failed, which was the last one.
fn tells_its_line<R: Runtime + AllocGlobal + Threads + Wait + Sync>(
    rt: &R,
    words: &str,
    line: &str,
    diagnostic: u64,
) -> bool {
    let failing = Failing {
        diagnostic,
        ..NO_FAULT
    };
    match run_with(rt, Top::Plain, words, ("", ""), failing, 0) {
        Some(after) => {
            let counts = after.err.counts();
            let told = after.err.taken();
            if counts.calls < diagnostic {
                told == line.as_bytes() && counts.faults == 0
            } else {
                line.as_bytes().starts_with(told)
                    && told.len() < line.len()
                    && counts.faults == 1
                    && counts.failed_last
            }
        }
        None => false,
    }
}

#[test]
fn a_put_to_the_diagnostics_that_fails_is_the_last_one(rt: HostRuntime) {
    for diagnostic in 1..=16 {
        for (words, line) in [
            ("--fast", "assemble: 2 Words\n"),
            (MESH, "assemble: 3 MeshText line 1 TooFew\n"),
            ("--mesh other", "assemble: 17 Absent mesh\n"),
        ] {
            assert!(rt;
                tells_its_line(&rt, words, line, diagnostic),
                "{words} {diagnostic}"
            );
        }
    }
}

// Whether a run stops in its matrix after so many bytes, with no put behind the failed one.
fn stops_after<R: Runtime + AllocGlobal + Threads + Wait + Sync>(
    rt: &R,
    line: &str,
    mesh: &str,
    put: u64,
    room: usize,
    bytes: &[u8],
) -> bool {
    let failing = Failing { put, ..NO_FAULT };
    match run_with(rt, Top::Waiting, line, (mesh, ""), failing, room) {
        Some(after) => {
            after.status == 11
                && after.out.taken() == bytes
                && after.err.taken() == "assemble: 11 WriteFault matrix\n".as_bytes()
                && after.had_calls(1, put.max(1))
        }
        None => false,
    }
}

#[test]
fn a_sink_without_room_has_the_bytes_that_fit(rt: HostRuntime) {
    let bytes = SQUARE_MATRIX.as_bytes();
    for room in 0..bytes.len() {
        assert!(rt;
            stops_after(&rt, MESH, SQUARE, 0, room, &bytes[..room]),
            "with room {room}"
        );
    }
}

#[test]
fn a_put_that_fails_leaves_the_512_bytes_of_each_put_before(rt: HostRuntime) {
    let bytes = GRID_MATRIX.as_bytes();
    for words in [
        MESH,
        "--mesh mesh --mode colored",
        "--mesh mesh --mode ordered",
    ] {
        for (put, piece) in [0usize, 512, 1024, 1536, 2048, 2560].iter().enumerate() {
            if *piece <= bytes.len() {
                let put = put as u64 + 1;
                assert!(rt;
                    stops_after(&rt, words, GRID, put, 65_536, &bytes[..*piece]),
                    "{words} {put}"
                );
            }
        }
    }
}

// What a run of the mesh over a store tells, with this status.
fn told_over<R: Runtime + AllocGlobal + Threads + Wait + Sync, S: Store>(
    rt: &R,
    store: &mut S,
    wanted: u8,
) -> Option<MemorySink> {
    let alloc = rt.alloc();
    let words = words_of(alloc, MESH)?;
    let mut out = sink_of(alloc, 0, 0)?;
    let mut err = sink_of(alloc, 4096, 0)?;
    let status = call(
        rt,
        alloc,
        Top::Plain,
        words.as_slice(),
        store,
        &mut out,
        &mut err,
    );
    if status == wanted { Some(err) } else { None }
}

#[test]
fn a_text_above_the_limit_is_refused(rt: HostRuntime) {
    let told = told_over(&rt, &mut Blanks::new(), 9);
    let line = "assemble: 9 Limit MeshSize\n".as_bytes();
    assert!(rt; told.is_some_and(|err| err.taken() == line));
}

#[test]
fn want_of_memory_is_told(rt: HostRuntime) {
    let told = told_over(&rt, &mut Poor::new(), 12);
    let line = "assemble: 12 NoMemory\n".as_bytes();
    assert!(rt; told.is_some_and(|err| err.taken() == line));
}

// The status of a run over a store and an output of which no call fails, and whether the store then holds the matrix.
fn clean_run<R: Runtime + AllocGlobal + Threads + Wait + Sync>(rt: &R) -> Option<(u8, bool)> {
    let alloc = rt.alloc();
    let words = words_of(alloc, "--mesh mesh --matrix m --rhs -")?;
    let mut store = CleanStore::new(alloc);
    store.hold("mesh", SQUARE.as_bytes()).ok()?;
    let mut out = DropSink::new();
    let mut err = DropSink::new();
    let status = run_plain(
        rt,
        alloc,
        words.as_slice(),
        &mut store,
        &mut out,
        &mut err,
        &OpenGate,
    );
    let matrix = store.held("m")?;
    Some((status, matrix == SQUARE_MATRIX.as_bytes()))
}

#[test]
fn a_run_over_a_clean_outside_ends_well(rt: HostRuntime) {
    assert_eq!(rt; clean_run(&rt), Some((0, true)));
}
