//! Texts in the Matrix Market format, and what is read from them.
use crate::texts::{add_row, fault_text};
use matrix_market::{Triples, read_matrix, read_vector};
use std::alloc::Global;
use std::fmt::Write;

// The size of a matrix and its entries, each from 0.
fn entries_text(alloc: Global, matrix: &Triples) -> Option<String> {
    let rows = matrix.rows();
    let columns = matrix.columns();
    let mut text = format!(in alloc; "{rows} {columns}\n").ok()?;
    for (i, j, value) in matrix.entries() {
        writeln!(text, "{i} {j} {value}").ok()?;
    }
    Some(text)
}

// What a text says of a matrix.
fn matrix_of(alloc: Global, text: &str) -> Option<String> {
    if text.len() > 4000 {
        return None;
    }
    match read_matrix(alloc, text.as_bytes()) {
        Ok(matrix) => entries_text(alloc, &matrix),
        Err(fault) => fault_text(alloc, &fault),
    }
}

// What lines behind the banner of a matrix say.
fn matrix_behind_banner(alloc: Global, lines: &str) -> Option<String> {
    let banner = "%%MatrixMarket matrix coordinate integer general\n";
    let text = format!(in alloc; "{banner}{lines}").ok()?;
    matrix_of(alloc, text.as_str())
}

const MATRICES: [(&str, &str); 17] = [
    (
        "% unit 2^-32\n2 2 2\n1 1 2863340768\n2 1 -715857120\n",
        "2 2\n0 0 2863340768\n1 0 -715857120\n",
    ),
    (
        "%\n\n% comment\n 2 03 000003\n\n2 1 -0\r\n1 3 170141183460469231731687303715884105727\n\
2 1 -170141183460469231731687303715884105728\n \t",
        "2 3\n1 0 0\n0 2 170141183460469231731687303715884105727\n\
1 0 -170141183460469231731687303715884105728\n",
    ),
    ("0 0 0\n", "0 0\n"),
    ("1 1 0\n%\n", "Entry 3"),
    ("% only\n", "TooFew 3"),
    ("", "TooFew 2"),
    ("1 1\n", "Size 2"),
    ("1 1 33554433\n", "Size 2"),
    (" % 1\n", "Size 2"),
    ("2 2 1\n% 1 1\n", "Entry 3"),
    ("2 2 1\n0 1 5\n", "Entry 3"),
    ("2 2 1\n\n1 3 5\n", "Entry 4"),
    ("2 2 2\n2 2 5\n", "TooFew 4"),
    ("2 2 1\n1 1 +5\n", "Entry 3"),
    (
        "2 2 1\n1 1 170141183460469231731687303715884105728\n",
        "Entry 3",
    ),
    (
        "2 2 1\n1 1 0000000000000000000000000000000000000005\n",
        "Entry 3",
    ),
    ("2 2 1\n1 1 5\n1 1 5\n", "Entry 4"),
];

#[test]
fn matrices_are_read(rt: HostRuntime) {
    for (lines, expected) in MATRICES {
        let told = matrix_behind_banner(rt.alloc(), lines);
        assert!(rt;
            told.is_some_and(|told| told.as_str() == expected),
            "{lines}"
        );
    }
    for (text, expected) in [
        (
            "%%MatrixMarket\tmatrix  coordinate integer general\r\n0 0 0\n",
            "0 0\n",
        ),
        (
            "\n%%MatrixMarket matrix coordinate integer general\n0 0 0\n",
            "Banner 1",
        ),
        (
            "%%MatrixMarket matrix array integer general\n0 0 0\n",
            "Banner 1",
        ),
        ("", "Banner 1"),
    ] {
        let told = matrix_of(rt.alloc(), text);
        assert!(rt;
            told.is_some_and(|told| told.as_str() == expected),
            "{text}"
        );
    }
}

// The values of a right side in a row.
fn values_text(alloc: Global, values: &[i128]) -> Option<String> {
    let mut text = String::new(alloc);
    add_row(&mut text, values)?;
    Some(text)
}

// What a text says of a right side.
fn values_of(alloc: Global, text: &str) -> Option<String> {
    if text.len() > 4000 {
        return None;
    }
    match read_vector(alloc, text.as_bytes()) {
        Ok(values) => values_text(alloc, values.as_slice()),
        Err(fault) => fault_text(alloc, &fault),
    }
}

#[test]
fn right_sides_are_read(rt: HostRuntime) {
    for (text, expected) in [
        (
            "%%MatrixMarket matrix array integer general\n% unit 2^-32\n2 1\n9663676416\n-1\n",
            "9663676416 -1 \n",
        ),
        (
            "%%MatrixMarket matrix array integer general\n3 1\n7\n\n-007\n0",
            "7 -7 0 \n",
        ),
        (
            "%%MatrixMarket matrix array integer general\n1 01\n5\n",
            "Size 2",
        ),
        (
            "%%MatrixMarket matrix array integer general\n1 1\n5 5\n",
            "Entry 3",
        ),
        (
            "%%MatrixMarket matrix array integer general\n2 1\n5\n",
            "TooFew 4",
        ),
        (
            "%%MatrixMarket matrix coordinate integer general\n1 1\n5\n",
            "Banner 1",
        ),
    ] {
        let told = values_of(rt.alloc(), text);
        assert!(rt;
            told.is_some_and(|told| told.as_str() == expected),
            "{text}"
        );
    }
}
