//! Runs of the program over texts in memory.
use crate::gate::{MeetGate, TURNS};
use crate::meshes::GRID;
use assemble_core::{run, run_plain};
use fem_text::{MemorySink, MemoryStore};
use scratch_pool::{Gate, HoldGate};
use std::alloc::Global;
use std::rt::Runtime;
use std::sync::Wait;
use std::thread::Threads;

/// Which of the two calls is made.
#[derive(Clone, Copy)]
enum Top {
    Plain,
    Waiting,
}

/// Runs on the grid by two workers, in which each item is a cell.
const RUNS: [(Top, &str); 3] = [
    (
        Top::Waiting,
        "--mesh mesh --mode ordered --workers 2 --queue 4 --chunk 1",
    ),
    (
        Top::Waiting,
        "--mesh mesh --mode colored --workers 2 --chunk 1",
    ),
    (
        Top::Plain,
        "--mesh mesh --mode colored --workers 2 --chunk 1",
    ),
];

/// The matrix of the grid where all its cells conduct alike: the sum of the matrices of its sixteen squares.
const GRID_MATRIX: &str =
    "%%MatrixMarket matrix coordinate integer general\n% unit 2^-32\n25 25 169\n1 1 2863340768\n1 2 -715857120\n\
1 3 -715857120\n1 4 -1431626528\n2 1 -715857120\n2 2 5726681536\n2 3 -1431626528\n2 4 -1431714240\n\
2 5 -715857120\n2 6 -1431626528\n3 1 -715857120\n3 2 -1431626528\n3 3 5726681536\n3 4 -1431714240\n\
3 11 -715857120\n3 12 -1431626528\n4 1 -1431626528\n4 2 -1431714240\n4 3 -1431714240\n4 4 11453363072\n\
4 5 -1431626528\n4 6 -1431714240\n4 11 -1431626528\n4 12 -1431714240\n4 13 -1431626528\n5 2 -715857120\n\
5 4 -1431626528\n5 5 5726681536\n5 6 -1431714240\n5 7 -715857120\n5 8 -1431626528\n6 2 -1431626528\n\
6 4 -1431714240\n6 5 -1431714240\n6 6 11453363072\n6 7 -1431626528\n6 8 -1431714240\n6 12 -1431626528\n\
6 13 -1431714240\n6 14 -1431626528\n7 5 -715857120\n7 6 -1431626528\n7 7 5726681536\n7 8 -1431714240\n\
7 9 -715857120\n7 10 -1431626528\n8 5 -1431626528\n8 6 -1431714240\n8 7 -1431714240\n8 8 11453363072\n\
8 9 -1431626528\n8 10 -1431714240\n8 13 -1431626528\n8 14 -1431714240\n8 15 -1431626528\n9 7 -715857120\n\
9 8 -1431626528\n9 9 2863340768\n9 10 -715857120\n10 7 -1431626528\n10 8 -1431714240\n10 9 -715857120\n\
10 10 5726681536\n10 14 -1431626528\n10 15 -715857120\n11 3 -715857120\n11 4 -1431626528\n11 11 5726681536\n\
11 12 -1431714240\n11 16 -715857120\n11 17 -1431626528\n12 3 -1431626528\n12 4 -1431714240\n12 6 -1431626528\n\
12 11 -1431714240\n12 12 11453363072\n12 13 -1431714240\n12 16 -1431626528\n12 17 -1431714240\n\
12 18 -1431626528\n13 4 -1431626528\n13 6 -1431714240\n13 8 -1431626528\n13 12 -1431714240\n\
13 13 11453363072\n13 14 -1431714240\n13 17 -1431626528\n13 18 -1431714240\n13 19 -1431626528\n\
14 6 -1431626528\n14 8 -1431714240\n14 10 -1431626528\n14 13 -1431714240\n14 14 11453363072\n\
14 15 -1431714240\n14 18 -1431626528\n14 19 -1431714240\n14 20 -1431626528\n15 8 -1431626528\n\
15 10 -715857120\n15 14 -1431714240\n15 15 5726681536\n15 19 -1431626528\n15 20 -715857120\n16 11 -715857120\n\
16 12 -1431626528\n16 16 5726681536\n16 17 -1431714240\n16 21 -715857120\n16 22 -1431626528\n\
17 11 -1431626528\n17 12 -1431714240\n17 13 -1431626528\n17 16 -1431714240\n17 17 11453363072\n\
17 18 -1431714240\n17 21 -1431626528\n17 22 -1431714240\n17 23 -1431626528\n18 12 -1431626528\n\
18 13 -1431714240\n18 14 -1431626528\n18 17 -1431714240\n18 18 11453363072\n18 19 -1431714240\n\
18 22 -1431626528\n18 23 -1431714240\n18 24 -1431626528\n19 13 -1431626528\n19 14 -1431714240\n\
19 15 -1431626528\n19 18 -1431714240\n19 19 11453363072\n19 20 -1431714240\n19 23 -1431626528\n\
19 24 -1431714240\n19 25 -1431626528\n20 14 -1431626528\n20 15 -715857120\n20 19 -1431714240\n\
20 20 5726681536\n20 24 -1431626528\n20 25 -715857120\n21 16 -715857120\n21 17 -1431626528\n21 21 2863340768\n\
21 22 -715857120\n22 16 -1431626528\n22 17 -1431714240\n22 18 -1431626528\n22 21 -715857120\n\
22 22 5726681536\n22 23 -715857120\n23 17 -1431626528\n23 18 -1431714240\n23 19 -1431626528\n\
23 22 -715857120\n23 23 5726681536\n23 24 -715857120\n24 18 -1431626528\n24 19 -1431714240\n\
24 20 -1431626528\n24 23 -715857120\n24 24 5726681536\n24 25 -715857120\n25 19 -1431626528\n25 20 -715857120\n\
25 24 -715857120\n25 25 2863340768\n";

/// The words that blanks part.
fn words_of(alloc: Global, line: &str) -> Option<Vec<String>> {
    let mut words = Vec::new(alloc);
    for word in line.split_whitespace() {
        words.push(String::from_str(alloc, word).ok()?).ok()?;
    }
    Some(words)
}

fn grid_store(alloc: Global) -> Option<MemoryStore> {
    let mut store = MemoryStore::new(alloc, Vec::new(alloc), Vec::new(alloc));
    store.hold("mesh", GRID.as_bytes()).ok()?;
    Some(store)
}

/// The status of the run on the grid, and what stands on standard output.
fn ran<R: Runtime + AllocGlobal + Threads + Wait + Sync, G: Gate + Sync>(
    rt: &R,
    top: Top,
    line: &str,
    gate: &G,
) -> Option<(u8, MemorySink)> {
    let alloc = rt.alloc();
    let words = words_of(alloc, line)?;
    let mut store = grid_store(alloc)?;
    let mut out = MemorySink::new(alloc, 65_536, Vec::new(alloc)).ok()?;
    let mut err = MemorySink::new(alloc, 4096, Vec::new(alloc)).ok()?;
    let status = match top {
        Top::Plain => run_plain(rt, alloc, &words, &mut store, &mut out, &mut err, gate),
        Top::Waiting => run(rt, alloc, &words, &mut store, &mut out, &mut err, gate),
    };
    Some((status, out))
}

/// Whether the run writes the matrix of the grid.
fn writes_matrix<R: Runtime + AllocGlobal + Threads + Wait + Sync, G: Gate + Sync>(
    rt: &R,
    top: Top,
    line: &str,
    gate: &G,
) -> bool {
    match ran(rt, top, line, gate) {
        Some((status, out)) => status == 0 && out.taken() == GRID_MATRIX.as_bytes(),
        None => false,
    }
}

/// Whether the run writes the matrix of the grid while item 0 is held until item 1 has passed.
fn holds_item_zero<R: Runtime + AllocGlobal + Threads + Wait + Sync>(
    rt: &R,
    top: Top,
    line: &str,
) -> bool {
    let gate = HoldGate::new(TURNS);
    writes_matrix(rt, top, line, &gate) && !gate.gave_up()
}

/// Whether the run writes the matrix of the grid while items wait for others: no wait gives up, and each item comes
/// once.
fn goes_well<R: Runtime + AllocGlobal + Threads + Wait + Sync>(
    rt: &R,
    top: Top,
    line: &str,
    waits: &[(u64, u64)],
) -> bool {
    let Some(gate) = MeetGate::new(rt.alloc(), TURNS, waits) else {
        return false;
    };
    writes_matrix(rt, top, line, &gate) && !gate.gave_up() && gate.each_once()
}

#[test]
fn item_one_passes_while_item_zero_is_held(rt: HostRuntime) {
    for (top, line) in RUNS {
        assert!(rt; holds_item_zero(&rt, top, line), "{line}");
    }
}

#[test]
fn two_items_wait_for_each_other(rt: HostRuntime) {
    for (top, line) in RUNS {
        assert!(rt; goes_well(&rt, top, line, &[(0, 1), (1, 0)]), "{line}");
    }
}

// Item 2 has no copy object before item 0 is added.
#[test]
fn a_place_is_free_once_its_item_is_added(rt: HostRuntime) {
    let line = "--mesh mesh --mode ordered --workers 2 --queue 2 --chunk 1";
    assert!(rt; goes_well(&rt, Top::Waiting, line, &[(1, 2)]));
}

#[test]
fn one_item_of_three_waits_for_the_others(rt: HostRuntime) {
    for (top, line) in RUNS {
        assert!(rt; goes_well(&rt, top, line, &[(0, 1), (0, 2)]), "{line}");
        assert!(rt; goes_well(&rt, top, line, &[(1, 0), (1, 2)]), "{line}");
        assert!(rt; goes_well(&rt, top, line, &[(2, 0), (2, 1)]), "{line}");
    }
}
