//! Runs over a mesh, a problem and a vector: products, marks and refinement by them. What they are to leave is worked by hand.
use crate::faults::{Failing, NO_FAULT};
use crate::runs::{After, Top, call, sink_of, store_of, words_of};
use crate::texts::{PARTED_PROBLEM, PARTED_STRIP, SQUARE, STRIP};
use fem_text::MemoryStore;
use std::alloc::Global;
use std::rt::Runtime;
use std::sync::Wait;
use std::test::Fail;
use std::thread::Threads;

// The first lines of an array, behind which its size line comes.
const ARRAY: &str = "%%MatrixMarket matrix array integer general\n";

// One at the first corner of the square, and the product with the matrix of the square, which is its first column.
const FIRST: &str = "%%MatrixMarket matrix array integer general\n4 1\n1\n0\n0\n0\n";

const FIRST_COLUMN: &str =
    "%%MatrixMarket matrix array integer general\n% unit 2^-32\n4 1\n2863340768\n-715857120\n-715857120\n-1431626528\n";

// The same for the square's nine dofs of degree 2.
const FIRST_OF_NINE: &str =
    "%%MatrixMarket matrix array integer general\n9 1\n1\n0\n0\n0\n0\n0\n0\n0\n0\n";

const FIRST_COLUMN_OF_NINE: &str =
    "%%MatrixMarket matrix array integer general\n% unit 2^-32\n9 1\n2672433397\n-143162001\n-143162001\n\
-95442182\n-858994695\n477210558\n-858994695\n477210558\n-1527098942\n";

// One at each of the eleven dofs of the strip with its second cell divided. The operator has no product with a constant, but
// for the hanging dof, whose own row has its diagonal.
const ONES: &str =
    "%%MatrixMarket matrix array integer general\n11 1\n1\n1\n1\n1\n1\n1\n1\n1\n1\n1\n1\n";

const HANGING_ALONE: &str =
    "%%MatrixMarket matrix array integer general\n% unit 2^-32\n11 1\n0\n0\n0\n0\n0\n5726681536\n0\n0\n0\n0\n0\n";

// A function on the strip that bends at the middle line, and one that doesn't.
const BENT: &str = "%%MatrixMarket matrix array integer general\n6 1\n0\n0\n0\n0\n65536\n65536\n";

const STRAIGHT: &str =
    "%%MatrixMarket matrix array integer general\n6 1\n0\n65536\n0\n65536\n131072\n131072\n";

// One at the second dof of the strip, and its product with the part of the first cell alone.
const SECOND: &str = "%%MatrixMarket matrix array integer general\n6 1\n0\n1\n0\n0\n0\n0\n";

const SECOND_IN_PART: &str =
    "%%MatrixMarket matrix array integer general\n% unit 2^-32\n6 1\n-715857120\n2863340768\n-1431626528\n-715857120\n0\n0\n";

// Words, mesh, problem, vector, and the text on standard output.
const WRITTEN: [(&str, &str, &str, &str, &str); 10] = [
    (
        "--mode product --degree 2 --workers 2",
        SQUARE,
        "",
        FIRST_OF_NINE,
        FIRST_COLUMN_OF_NINE,
    ),
    (
        "--mode product --workers 1",
        SQUARE,
        "",
        FIRST,
        FIRST_COLUMN,
    ),
    (
        "--mode product --workers 8",
        SQUARE,
        "",
        FIRST,
        FIRST_COLUMN,
    ),
    (
        "--mode product --workers 1",
        STRIP,
        "refine 1\n",
        ONES,
        HANGING_ALONE,
    ),
    (
        "--mode=product --workers=8",
        STRIP,
        "refine 1\n",
        ONES,
        HANGING_ALONE,
    ),
    (
        "--mode marks --mark 2",
        STRIP,
        "",
        BENT,
        "marks 2\n0 4294967296\n1 4294967296\n",
    ),
    (
        "--mode marks --mark 02",
        STRIP,
        "",
        STRAIGHT,
        "marks 2\n0 0\n1 0\n",
    ),
    ("--mode marks", STRIP, "", STRAIGHT, "marks 1\n0 0\n"),
    (
        "--mode product --subdomain 0",
        PARTED_STRIP,
        PARTED_PROBLEM,
        SECOND,
        SECOND_IN_PART,
    ),
    (
        "--mode marks --mark 2 --subdomain 0",
        PARTED_STRIP,
        PARTED_PROBLEM,
        BENT,
        "marks 2\n0 4294967296\n1 4294967296\n",
    ),
];

// Words, mesh, problem, vector, status, and the line on the diagnostics.
const REFUSED: [(&str, &str, &str, &str, u8, &str); 10] = [
    (
        "--mode product",
        STRIP,
        "refine 1\n",
        "%%MatrixMarket matrix array integer general\n10 1\n1\n1\n1\n1\n1\n1\n1\n1\n1\n1\n",
        14,
        "assemble: 14 VectorText Length 10\n",
    ),
    (
        "--mode product",
        SQUARE,
        "",
        "%%MatrixMarket matrix array integer general\n4 1\n1048577\n0\n0\n0\n",
        14,
        "assemble: 14 VectorText Value 0\n",
    ),
    (
        "--mode marks",
        STRIP,
        "constraint 1 = 1*99\n",
        "%%MatrixMarket matrix array integer general\n6 1\n0\n-2147483648\n2147483649\n0\n0\n0\n",
        14,
        "assemble: 14 VectorText Value 2\n",
    ),
    (
        "--mode adapt",
        STRIP,
        "constraint 1 = 1*99\n",
        "%%MatrixMarket matrix array integer general\n5 1\n0\n0\n0\n0\n0\n",
        14,
        "assemble: 14 VectorText Length 5\n",
    ),
    (
        "--mode adapt",
        STRIP,
        "constraint 1 = 1*99\n",
        BENT,
        6,
        "assemble: 6 Constraint UnknownNode 99\n",
    ),
    (
        "--mode marks",
        SQUARE,
        "",
        "",
        14,
        "assemble: 14 VectorText line 1 Banner\n",
    ),
    (
        "--mode product",
        SQUARE,
        "",
        ARRAY,
        14,
        "assemble: 14 VectorText line 2 TooFew\n",
    ),
    (
        "--mode product",
        "4 1\n",
        "word\n",
        "",
        3,
        "assemble: 3 MeshText line 1 Header\n",
    ),
    (
        "--mode product",
        SQUARE,
        "word\n",
        "",
        4,
        "assemble: 4 ProblemText line 1 Word\n",
    ),
    (
        "--mode product",
        SQUARE,
        "constraint 1 = 1*99\n",
        "%%MatrixMarket matrix array integer general\n0 1\n",
        6,
        "assemble: 6 Constraint UnknownNode 99\n",
    ),
];

// Words that are refused beside `--mesh mesh`.
const NO_WORDS: [&str; 13] = [
    "--mode product",
    "--mode marks",
    "--mode adapt",
    "--vector vector",
    "--mode serial --vector vector",
    "--mode mesh --vector vector",
    "--mode product --vector vector --mark 1",
    "--mode serial --mark 1",
    "--mode marks --vector vector --mark 0",
    "--mode marks --vector vector --mark 1048577",
    "--mode marks --vector vector --rhs right",
    "--mode product --vector vector --summary",
    "--mode marks --vector - --problem -",
];

// The store of a run, in which the read with this number fails, counted from 1; none does where it is 0.
fn store_with(
    alloc: Global,
    texts: (&str, &str, Option<&str>),
    failing: u64,
) -> Option<MemoryStore> {
    let mut store = store_of(
        alloc,
        texts.0,
        texts.1,
        Failing {
            read: failing,
            ..NO_FAULT
        },
    )?;
    if let Some(vector) = texts.2 {
        store.hold("vector", vector.as_bytes()).ok()?;
    }
    Some(store)
}

// What a run leaves, of which the read with this number fails.
fn run_failing<R: Runtime + AllocGlobal + Threads + Wait + Sync>(
    rt: &R,
    line: &str,
    texts: (&str, &str, Option<&str>),
    failing: u64,
) -> Option<After> {
    let alloc = rt.alloc();
    let words = words_of(alloc, line)?;
    let mut store = store_with(alloc, texts, failing)?;
    let mut out = sink_of(alloc, 65_536, 0)?;
    let mut err = sink_of(alloc, 4096, 0)?;
    let status = call(
        rt,
        alloc,
        Top::Plain,
        words.as_slice(),
        &mut store,
        &mut out,
        &mut err,
    );
    Some(After {
        status,
        store,
        out,
        err,
    })
}

fn run_all<R: Runtime + AllocGlobal + Threads + Wait + Sync>(
    rt: &R,
    line: &str,
    texts: (&str, &str, &str),
) -> Option<After> {
    let alloc = rt.alloc();
    let words = format!(in alloc; "{line} --mesh mesh --problem problem --vector vector").ok()?;
    run_failing(rt, words.as_str(), (texts.0, texts.1, Some(texts.2)), 0)
}

#[test]
fn products_and_marks_are_written(rt: HostRuntime) {
    for (words, mesh, problem, vector, text) in WRITTEN {
        let after = run_all(&rt, words, (mesh, problem, vector));
        assert!(rt; after.is_some_and(|after| after.is(0, text, "")), "{words}");
    }
}

#[test]
fn the_first_fault_of_a_vector_is_told_in_its_turn(rt: HostRuntime) {
    for (words, mesh, problem, vector, status, line) in REFUSED {
        let after = run_all(&rt, words, (mesh, problem, vector));
        assert!(rt;
            after.is_some_and(|after| after.is(status, "", line)),
            "{line}"
        );
    }
}

#[test]
fn the_cell_that_is_marked_is_divided(rt: HostRuntime) {
    let after = run_all(&rt, "--mode adapt --mark 1", (STRIP, "", BENT));
    assert!(rt; after.is_some_and(|after| after.status == 0 && after.has_line("11 11 57")));
}

#[test]
fn a_vector_stands_in_the_modes_that_take_one(rt: HostRuntime) {
    for words in NO_WORDS {
        let alloc = rt.alloc();
        let line = format!(in alloc; "{words} --mesh mesh");
        let Ok(line) = line else { return };
        let after = run_failing(&rt, line.as_str(), (SQUARE, "", Some(FIRST)), 0);
        assert!(rt;
            after.is_some_and(|after| after.is(2, "", "assemble: 2 Words\n")
                && after.had_calls(0, 0)),
            "{words}"
        );
    }
}

#[test]
fn a_vector_is_read_last(rt: HostRuntime) {
    let words = "--mode product --mesh mesh --problem problem --vector vector";
    let failed = run_failing(&rt, words, (SQUARE, "", Some(FIRST)), 3);
    assert!(rt;
        failed.is_some_and(|after| after.is(10, "", "assemble: 10 ReadFault vector\n")
            && after.had_calls(3, 0))
    );
    let absent = run_failing(&rt, words, (SQUARE, "", None), 0);
    assert!(rt; absent.is_some_and(|after| after.is(17, "", "assemble: 17 Absent vector\n")));
    let without = "--mode product --mesh mesh --vector vector";
    let second = run_failing(&rt, without, (SQUARE, "", Some(FIRST)), 2);
    assert!(rt;
        second.is_some_and(|after| after.is(10, "", "assemble: 10 ReadFault vector\n")
            && after.had_calls(2, 0))
    );
}
