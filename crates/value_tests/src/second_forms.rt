//! The forms of biquadratic cells, of their faces at the boundary, and of the jumps across faces between them.
use crate::cells::{
    Across, BETWEEN, Corners, Ends, FLAT, FOLDED_THERE, LARGE, SKEW, SLANTED, SQUARES, TICK, UNIT,
    cell_of, ends_of, sides_of,
};
use crate::texts::add_row;
use fixed_q2::{Q2Scratch, boundary_matrix2, cell_matrix2, jump_matrix2};
use std::alloc::Global;

// Whether a text has all these lines.
fn has_lines(text: &str, lines: &[&str]) -> bool {
    lines
        .iter()
        .all(|line| text.split('\n').any(|had| had == *line))
}

// The rows of a matrix and the load of a cell.
fn form_text(alloc: Global, matrix: &[[i128; 9]; 9], load: &[i128; 9]) -> Option<String> {
    let mut text = String::new(alloc);
    for row in matrix {
        add_row(&mut text, row)?;
    }
    add_row(&mut text, load)?;
    Some(text)
}

// The form of a cell, or why it has none.
fn cell_form(alloc: Global, corners: &Corners, diffusion: i64, source: i64) -> Option<String> {
    let points = cell_of(corners)?;
    if diffusion.unsigned_abs() > 2_147_483_648 || source.unsigned_abs() > 2_147_483_648 {
        return None;
    }
    let mut scratch = Q2Scratch::new();
    let mut matrix = [[7; 9]; 9];
    let mut load = [7; 9];
    match cell_matrix2(
        &points,
        diffusion,
        source,
        &mut scratch,
        &mut matrix,
        &mut load,
    ) {
        Ok(()) => form_text(alloc, &matrix, &load),
        Err(fault) => format!(in alloc; "{fault:?}").ok(),
    }
}

// The rows and the load.
const UNIT_FORM: &[&str] = &[
    "2672433397 -143162001 -143162001 -95442182 -858994695 477210558 -858994695 477210558 -1527098942 ",
    "-143162001 2672433397 -95442182 -143162001 477210558 -858994695 -858994695 477210558 -1527098942 ",
    "-143162001 -95442182 2672433397 -143162001 -858994695 477210558 477210558 -858994695 -1527098942 ",
    "-95442182 -143162001 -143162001 2672433397 477210558 -858994695 477210558 -858994695 -1527098942 ",
    "-858994695 477210558 -858994695 477210558 8399033713 29274 -1527098943 -1527098943 -4581296827 ",
    "477210558 -858994695 477210558 -858994695 29274 8399033713 -1527098943 -1527098943 -4581296827 ",
    "-858994695 -858994695 477210558 477210558 -1527098943 -1527098943 8399033713 29274 -4581296827 ",
    "477210558 477210558 -858994695 -858994695 -1527098943 -1527098943 29274 8399033713 -4581296827 ",
    "-1527098942 -1527098942 -1527098942 -1527098942 -4581296827 -4581296827 -4581296827 -4581296827 24433583084 ",
    "119304955 119304955 119304955 119304955 477218896 477218896 477218896 477218896 1908871898 ",
];

// Two rows and the load.
const SKEW_FORM: &[&str] = &[
    "3958583892 -181945275 -130052992 -90290566 -1420551106 537623892 -1297016734 547658438 -1924009549 ",
    "547658438 1044649545 -668966669 -926018234 -1626302097 -3700316285 150927049 13859390866 -8681022612 ",
    "-31956104 -34906262 -40313900 -43264059 -144539728 -156340340 -133724474 -167155593 -601758971 ",
];

// The last row and the load.
const LARGE_FORM: &[&str] = &[
    "-50039978150875 -50039978150875 -50039978150875 -50039978150875 -150119934456667 -150119934456667 -150119934456667 -150119934456667 800639650430164 ",
    "-16397148076506165096 -16397148076506165096 -16397148076506165096 -16397148076506165096 -65588465594945056616 -65588465594945056616 -65588465594945056616 -65588465594945056616 -262353355672900764861 ",
];

#[test]
fn cells_have_their_forms(rt: HostRuntime) {
    for (corners, diffusion, source, lines) in [
        (UNIT, 65536, 65536, UNIT_FORM),
        (SKEW, 98765, -4321, SKEW_FORM),
        (LARGE, 2147483648, -2147483648, LARGE_FORM),
        (TICK, 65536, 65536, ["Distorted"].as_slice()),
        (FLAT, 2147483648, 65536, ["Size"].as_slice()),
    ] {
        let told = cell_form(rt.alloc(), &corners, diffusion, source);
        assert!(rt;
            told.is_some_and(|told| has_lines(told.as_str(), lines)),
            "{corners:?}"
        );
    }
}

// The rows and the load of a face at the boundary.
fn face_form(alloc: Global, ends: &Ends, alpha: i64, g: i64) -> Option<String> {
    let points = ends_of(ends)?;
    if alpha.unsigned_abs() > 2_147_483_648 || g.unsigned_abs() > 2_147_483_648 {
        return None;
    }
    let mut matrix = [[7; 3]; 3];
    let mut load = [7; 3];
    boundary_matrix2(&points, alpha, g, &mut matrix, &mut load);
    let mut text = String::new(alloc);
    for row in &matrix {
        add_row(&mut text, row)?;
    }
    add_row(&mut text, &load)?;
    Some(text)
}

#[test]
fn faces_have_their_forms(rt: HostRuntime) {
    for (ends, alpha, g, expected) in [
        (
            BETWEEN,
            65536,
            131072,
            "572662306 -143165577 286331153 \n-143165577 572662306 286331153 \n286331153 286331153 2290649225 \n1431655765 1431655765 5726623061 \n",
        ),
        (
            SLANTED,
            1,
            -3,
            "43691 -10923 21845 \n-10923 43691 21845 \n21845 21845 174763 \n-163840 -163840 -655360 \n",
        ),
    ] {
        let told = face_form(rt.alloc(), &ends, alpha, g);
        assert!(rt;
            told.is_some_and(|told| told.as_str() == expected),
            "{expected}"
        );
    }
}

// The rows of the jumps across a face, or why there are none.
fn jumps(alloc: Global, across: &Across, gamma: i64) -> Option<String> {
    let sides = sides_of(across)?;
    if gamma.unsigned_abs() > 2_147_483_648 {
        return None;
    }
    let mut scratch = Q2Scratch::new();
    let mut matrix = [[7; 18]; 18];
    match jump_matrix2(
        &sides.here,
        sides.here_at,
        &sides.there,
        sides.there_at,
        &sides.ends,
        gamma,
        &mut scratch,
        &mut matrix,
    ) {
        Ok(()) => jumps_text(alloc, &matrix),
        Err(fault) => format!(in alloc; "{fault:?}").ok(),
    }
}

// The rows of the matrix of a face.
fn jumps_text(alloc: Global, matrix: &[[i128; 18]; 18]) -> Option<String> {
    let mut text = String::new(alloc);
    for row in matrix {
        add_row(&mut text, row)?;
    }
    Some(text)
}

// Three of the rows.
const SQUARE_JUMPS: &[&str] = &[
    "0 0 0 0 0 0 0 0 0 0 0 0 0 0 0 0 0 0 ",
    "0 0 0 0 12884901888 38654705664 0 0 -51539607552 0 0 0 0 38654705664 12884901888 0 0 -51539607552 ",
    "0 0 0 0 -17179869184 -51539607552 0 0 68719476736 0 0 0 0 -51539607552 -17179869184 0 0 68719476736 ",
];

#[test]
fn faces_have_their_jumps(rt: HostRuntime) {
    for (across, lines) in [
        (SQUARES, SQUARE_JUMPS),
        (FOLDED_THERE, ["Distorted"].as_slice()),
    ] {
        let told = jumps(rt.alloc(), &across, 65536);
        assert!(rt; told.is_some_and(|told| has_lines(told.as_str(), lines)));
    }
}
