//! The penalty of the jumps across a face between two bilinear cells. Runs show the forms of cells and of boundary faces.
use crate::cells::{
    Across, FOLDED_HERE, FOLDED_THERE, SKEWED, SQUARES, STEEP, STRIPS, Sides, sides_of,
};
use crate::texts::add_row;
use fixed_q1::{LocalFault, Part, Q1Scratch, jump_factors, jump_matrix, place_of};
use std::alloc::Global;

// The rows of a matrix.
fn rows_text(alloc: Global, matrix: &[[i128; 8]; 8]) -> Option<String> {
    let mut text = String::new(alloc);
    for row in matrix {
        add_row(&mut text, row)?;
    }
    Some(text)
}

// The matrix of a face, or why it has none.
fn matrix_across(alloc: Global, sides: &Sides, gamma: i64) -> Option<String> {
    if gamma.unsigned_abs() > 2_147_483_648 {
        return None;
    }
    let mut scratch = Q1Scratch::new();
    let mut matrix = [[7; 8]; 8];
    match jump_matrix(
        &sides.here,
        sides.here_at,
        &sides.there,
        sides.there_at,
        &sides.ends,
        gamma,
        &mut scratch,
        &mut matrix,
    ) {
        Ok(()) => rows_text(alloc, &matrix),
        Err(fault) => format!(in alloc; "{fault:?}").ok(),
    }
}

const SQUARE_JUMPS: &str =
    "1073741824 -1073741824 1073741824 -1073741824 -1073741824 1073741824 -1073741824 1073741824 \n\
-1073741824 1073741824 -1073741824 1073741824 1073741824 -1073741824 1073741824 -1073741824 \n\
1073741824 -1073741824 1073741824 -1073741824 -1073741824 1073741824 -1073741824 1073741824 \n\
-1073741824 1073741824 -1073741824 1073741824 1073741824 -1073741824 1073741824 -1073741824 \n\
-1073741824 1073741824 -1073741824 1073741824 1073741824 -1073741824 1073741824 -1073741824 \n\
1073741824 -1073741824 1073741824 -1073741824 -1073741824 1073741824 -1073741824 1073741824 \n\
-1073741824 1073741824 -1073741824 1073741824 1073741824 -1073741824 1073741824 -1073741824 \n\
1073741824 -1073741824 1073741824 -1073741824 -1073741824 1073741824 -1073741824 1073741824 \n";

// The first row.
const STRIP_JUMPS: &str =
    "4722366482869645213696 4722366482869645213696 -4722366482869645213696 -4722366482869645213696 -4722366482869645213696 \
-4722366482869645213696 4722366482869645213696 4722366482869645213696 \n";

#[test]
fn faces_have_their_penalty(rt: HostRuntime) {
    for (across, gamma, expected) in [
        (SQUARES, 65536, SQUARE_JUMPS),
        (STRIPS, 256, STRIP_JUMPS),
        (STRIPS, -257, "Size"),
        (STEEP, 1, "Size"),
        (FOLDED_HERE, 1, "Distorted"),
        (FOLDED_THERE, 1, "Distorted"),
    ] {
        let told = matrix_of(rt.alloc(), &across, gamma);
        assert!(rt;
            told.is_some_and(|told| told.as_str().starts_with(expected)),
            "{gamma} {expected}"
        );
    }
}

// The same of the sides of a face.
fn matrix_of(alloc: Global, across: &Across, gamma: i64) -> Option<String> {
    let sides = sides_of(across)?;
    matrix_across(alloc, &sides, gamma)
}

// The jumps across a face, or why there are none.
fn factors_of(across: &Across) -> Option<Result<[i128; 8], LocalFault>> {
    let sides = sides_of(across)?;
    let mut scratch = Q1Scratch::new();
    let mut jumps = [7; 8];
    let outcome = jump_factors(
        &sides.here,
        sides.here_at,
        &sides.there,
        sides.there_at,
        &sides.ends,
        &mut scratch,
        &mut jumps,
    );
    Some(outcome.map(|_| jumps))
}

#[test]
fn faces_have_their_jumps(rt: HostRuntime) {
    let jumps = [-32768, 32768, -32768, 32768, 32768, -32768, 32768, -32768];
    assert_eq!(rt; factors_of(&SQUARES), Some(Ok(jumps)));
    let skew = [-33798, 52346, -33798, 15251, 37841, -33842, 29843, -33842];
    assert_eq!(rt; factors_of(&SKEWED), Some(Ok(skew)));
    assert_eq!(rt; factors_of(&FOLDED_THERE), Some(Err(LocalFault::Distorted)));
    assert_eq!(rt; factors_of(&STEEP), Some(Err(LocalFault::Size)));
}

#[test]
fn the_middles_of_the_parts_lie_on_the_faces(rt: HostRuntime) {
    for (part, along) in [
        (Part::Whole, 32768),
        (Part::Half0, 16384),
        (Part::Half1, 49152),
    ] {
        assert_eq!(rt; place_of(0, part), (0, along));
        assert_eq!(rt; place_of(1, part), (65536, along));
        assert_eq!(rt; place_of(2, part), (along, 0));
        assert_eq!(rt; place_of(3, part), (along, 65536));
    }
}
