// Tables of runs. Each has its words, parted by blanks, and the texts that the store holds under `mesh` and `problem`.

use crate::texts::{
    ANGLE, ANGLE_PROBLEM, DIVIDED_MATRIX, DRAWN, DRAWN_FOUR, DRAWN_FOUR_PROBLEM, DRAWN_MATRIX,
    DRAWN_PROBLEM, GRID, GRID_COLORS, GRID_MATRIX, GRID_PROBLEM, LARGE, LARGE_PROBLEM,
    LARGE_SYSTEM, LENIENT_PROBLEM, LENIENT_STRIP, LINED_STRIP, LINED_SYSTEM, LONG, MARKED_STRIP,
    MSH_SQUARE, OTHER_IDS, PARTED_PROBLEM, PARTED_STRIP, PLAIN_PROBLEM, SKEW, SKEW_PROBLEM,
    SKEW_SYSTEM, SQUARE, SQUARE_ALONE, SQUARE_MATRIX, SQUARE_PATTERN, SQUARE_ROBIN, SQUARE_SUMMARY,
    STRIP, STRIP_MATRIX, TIED_SYSTEM, TINY, WRITTEN_ANGLE, WRITTEN_SQUARE,
};

// The words of a run over the mesh alone, and over both texts.
pub(crate) const MESH: &str = "--mesh mesh";

pub(crate) const BOTH: &str = "--mesh mesh --problem problem";

// The same, with the right side behind the matrix.
const SYSTEM: &str = "--mesh mesh --problem problem --rhs -";

// Words, mesh, problem, and the text on standard output.
pub(crate) const WRITTEN: [(&str, &str, &str, &str); 32] = [
    (MESH, SQUARE, "", SQUARE_MATRIX),
    ("--mode serial --mesh mesh", SQUARE, "", SQUARE_MATRIX),
    (
        "--mode=colored --mesh=mesh --workers=2",
        SQUARE,
        "",
        SQUARE_MATRIX,
    ),
    (
        MESH,
        "4 1 0 0 0\n1 0 0 0\n2 1 0 0\n3 1 1 0\n4 0 1 0\n1 1 quad 1 4 3 2\n",
        "",
        SQUARE_MATRIX,
    ),
    (MESH, STRIP, "", STRIP_MATRIX),
    (MESH, LENIENT_STRIP, "", STRIP_MATRIX),
    (MESH, GRID, "", GRID_MATRIX),
    (
        "--mesh mesh --mode colored --workers 3",
        GRID,
        "",
        GRID_MATRIX,
    ),
    (
        MESH,
        "0 0 0 0 0\n",
        "",
        "%%MatrixMarket matrix coordinate integer general\n% unit 2^-32\n0 0 0\n",
    ),
    (
        MESH,
        "2 0 0 0 0\n1 1024 -1024 0\n2 1024.000001 0 0\n",
        "",
        "%%MatrixMarket matrix coordinate integer general\n% unit 2^-32\n0 0 0\n",
    ),
    (BOTH, STRIP, "refine 1\n", DIVIDED_MATRIX),
    (
        SYSTEM,
        STRIP,
        "refine 1\nconstraint 2 = 3\nconstraint 5 = 0.5*1 + 1\n",
        TIED_SYSTEM,
    ),
    (SYSTEM, SQUARE, "dirichlet 0 1\n", SQUARE_ALONE),
    (SYSTEM, SQUARE, "source 1 1\nrobin 0 1 2\n", SQUARE_ROBIN),
    ("--mesh mesh --mode pattern", SQUARE, "", SQUARE_PATTERN),
    ("--mesh mesh --mode colors", GRID, "", GRID_COLORS),
    ("--mesh mesh --summary", SQUARE, "", SQUARE_SUMMARY),
    ("--summary --mesh=mesh", SQUARE, "", SQUARE_SUMMARY),
    (BOTH, DRAWN, DRAWN_PROBLEM, DRAWN_MATRIX),
    ("--seed=0 --generate=1", "", "", DRAWN_MATRIX),
    (MESH, OTHER_IDS, "", STRIP_MATRIX),
    (
        SYSTEM,
        LENIENT_STRIP,
        "refine 1\nconstraint 9 = 3\nconstraint 13 = 0.5*70 + 1\n",
        TIED_SYSTEM,
    ),
    (SYSTEM, SKEW, SKEW_PROBLEM, SKEW_SYSTEM),
    (SYSTEM, LARGE, LARGE_PROBLEM, LARGE_SYSTEM),
    (
        SYSTEM,
        LINED_STRIP,
        "dirichlet 7 1\ndirichlet 3 2\n",
        LINED_SYSTEM,
    ),
    ("--mesh mesh --format msh", MSH_SQUARE, "", SQUARE_MATRIX),
    (
        "--format=ucd --mesh=mesh --mode=mesh",
        SQUARE,
        "",
        WRITTEN_SQUARE,
    ),
    // (a step of refinement doesn't change the mesh that is written, and no fault of its cells is looked for)
    (
        "--mesh mesh --mode mesh --problem problem",
        SQUARE,
        "refine 0\nrefine 9\n",
        WRITTEN_SQUARE,
    ),
    ("--mode mesh --mesh mesh", "0 0 0 0 0\n", "", "0 0 0 0 0\n"),
    (
        "--mesh mesh --format msh --mode mesh",
        ANGLE,
        "",
        WRITTEN_ANGLE,
    ),
    ("--mode mesh --mesh mesh", WRITTEN_ANGLE, "", WRITTEN_ANGLE),
    // (worked from the formats by another program)
    (
        "--mesh mesh --problem problem --summary",
        LONG,
        "diffusion 1 16384\nconstraint 2 = 16*1\nconstraint 6 = 16*1 + 1\n",
        "cells 2\ndofs 8\nentries 26\ndiagonal 843737322625535289503680\nweighted 462796641222312646935312\nrhs -12593154107080824236744\n",
    ),
];

// Words, mesh, problem, and some of the lines on standard output.
pub(crate) const SOME_LINES: [(&str, &str, &str, &[&str]); 11] = [
    (
        "--generate 64 --seed 7 --summary",
        "",
        "",
        &["cells 4102", "dofs 4235"],
    ),
    (
        "--mesh mesh --problem problem --summary",
        STRIP,
        "refine 1\nrefine 1 1\n",
        &["cells 11", "dofs 20"],
    ),
    (
        "--mesh mesh --problem problem --summary",
        SQUARE,
        "refine 0\nrefine 0\nrefine 0\nrefine 0\nrefine 0\nrefine 0\nrefine 0\nrefine 0\nrefine 0\nrefine 0\nrefine 0\nrefine 0\n",
        &["cells 37"],
    ),
    (
        "--mesh mesh --problem problem --faces once",
        STRIP,
        "penalty 1\n",
        &[
            "1 1 3937082592",
            "1 2 -2863340768",
            "1 5 1073741824",
            "2 2 10021648832",
        ],
    ),
    (
        "--mesh mesh --problem problem --faces both",
        STRIP,
        "penalty 1\n",
        &["1 5 2147483648"],
    ),
    (
        "--mesh mesh --problem problem --subdomain 0",
        PARTED_STRIP,
        PARTED_PROBLEM,
        &["6 6 18", "1 1 2863340768", "5 5 0"],
    ),
    (
        "--mesh=mesh --problem=problem --subdomain=5 --ghost=both",
        PARTED_STRIP,
        PARTED_PROBLEM,
        &["1 1 1073741824", "1 5 1073741824"],
    ),
    (
        "--mesh mesh --format msh --summary",
        ANGLE,
        "",
        &["cells 3", "dofs 8", "entries 40", "diagonal 34360089216"],
    ),
    // (half the diffusion with which a sum passes its limit, see below)
    (
        BOTH,
        LONG,
        "diffusion 1 16384\nconstraint 2 = 16*1\nconstraint 6 = 16*1\n",
        &["% unit 2^-32"],
    ),
    (
        "--mesh mesh --degree 2",
        SQUARE,
        "",
        &["9 9 81", "1 1 2672433397", "9 9 24433583084"],
    ),
    (
        "--degree=2 --mesh mesh --problem problem --summary",
        STRIP,
        "refine 1\n",
        &["cells 5", "dofs 31"],
    ),
];

// Words of runs that give the same text, mesh, problem, and a line of that text.
pub(crate) const SAME: [(&[&str], &str, &str, &str); 4] = [
    (
        &[
            "--mesh mesh --problem problem --digits 24",
            "--mesh mesh --problem problem --digits 24 --mode ordered --workers 3 --queue 1 --chunk 1",
            "--mesh mesh --problem problem --digits 24 --mode ordered --workers 3 --queue 64 --chunk 5",
            "--mesh mesh --problem problem --digits 24 --mode ordered --workers 3 --scratch 1",
            "--mesh mesh --problem problem --digits 24 --mode ordered --workers 64 --queue 1 --chunk 1 --scratch 1",
            "--mesh mesh --problem problem --digits 24 --mode ordered --workers 64 --queue 256 --chunk 64",
        ],
        GRID,
        GRID_PROBLEM,
        "13 13 46912975667200",
    ),
    (
        &[
            "--mesh mesh --problem problem --digits 24 --mode colored --workers 3",
            "--mesh mesh --problem problem --digits 24 --mode colored --workers 3 --scratch 1",
            "--mesh mesh --problem problem --digits 24 --mode colored --workers 1",
        ],
        GRID,
        GRID_PROBLEM,
        "13 13 46912979861504",
    ),
    (
        &[
            "--generate 8 --seed 7 --rhs -",
            "--generate 8 --seed 7 --rhs - --mode ordered --workers 1",
            "--generate 8 --seed 7 --rhs - --mode ordered --workers 2",
            "--generate 8 --seed 7 --rhs - --mode ordered --workers 8",
            "--generate 8 --seed 7 --rhs - --mode colored --workers 1",
            "--generate 8 --seed 7 --rhs - --mode colored --workers 8",
        ],
        "",
        "",
        "91 1",
    ),
    (
        &[
            "--mesh mesh --problem problem --degree 2 --faces once --rhs -",
            "--mesh mesh --problem problem --degree 2 --faces once --rhs - --mode ordered --workers 1",
            "--mesh mesh --problem problem --degree 2 --faces once --rhs - --mode ordered --workers 8",
            "--mesh mesh --problem problem --degree 2 --faces once --rhs - --mode colored --workers 1",
            "--mesh mesh --problem problem --degree 2 --faces once --rhs - --mode colored --workers 8",
        ],
        STRIP,
        "refine 1\npenalty 1\n",
        "31 1",
    ),
];

// Words, mesh and problem of runs that give the same text.
pub(crate) const ALIKE: [[(&str, &str, &str); 2]; 6] = [
    // (two cells, of which the second is a ghost, and the part between them make up the whole system)
    [
        (
            "--mesh mesh --problem problem --subdomain 0 --ghost once --ghost-cells --rhs -",
            PARTED_STRIP,
            PARTED_PROBLEM,
        ),
        (
            "--mesh mesh --problem problem --faces once --rhs -",
            STRIP,
            "penalty 1\n",
        ),
    ],
    [
        (
            "--ghost-cells --ghost none --subdomain 0 --mesh mesh --problem problem",
            PARTED_STRIP,
            PARTED_PROBLEM,
        ),
        (BOTH, PARTED_STRIP, PARTED_PROBLEM),
    ],
    [
        (
            "--mesh mesh --problem problem --mode mesh --subdomain 0000000005 --ghost-cells",
            PARTED_STRIP,
            PARTED_PROBLEM,
        ),
        ("--mesh mesh --mode mesh", PARTED_STRIP, ""),
    ],
    [
        (
            "--mesh mesh --problem problem --faces once --rhs -",
            MARKED_STRIP,
            PLAIN_PROBLEM,
        ),
        (
            "--mesh mesh --problem problem --faces once --rhs -",
            LENIENT_STRIP,
            LENIENT_PROBLEM,
        ),
    ],
    [
        (
            "--mesh mesh --problem problem --faces both --rhs -",
            DRAWN_FOUR,
            DRAWN_FOUR_PROBLEM,
        ),
        ("--generate 2 --seed 7 --faces both --rhs -", "", ""),
    ],
    [
        (
            "--mesh mesh --problem problem --format msh --rhs -",
            ANGLE,
            ANGLE_PROBLEM,
        ),
        (
            "--mesh mesh --problem problem --rhs -",
            WRITTEN_ANGLE,
            ANGLE_PROBLEM,
        ),
    ],
];

// Words that name the mode `ordered` and words that don't, the mesh, the status, the text on standard output and the line of
// the diagnostics.
pub(crate) const CHOSEN: [(&str, &str, u8, &str, &str); 10] = [
    (MESH, SQUARE, 0, SQUARE_MATRIX, ""),
    ("--mesh mesh --mode colored", GRID, 0, GRID_MATRIX, ""),
    (
        "--mesh mesh --mode ordered --workers 2",
        SQUARE,
        0,
        SQUARE_MATRIX,
        "",
    ),
    ("--mode=ordered --mesh=mesh", GRID, 0, GRID_MATRIX, ""),
    (MESH, TINY, 7, "", "assemble: 7 Local cell 1 Distorted\n"),
    (
        "--mode ordered --mesh mesh",
        TINY,
        7,
        "",
        "assemble: 7 Local cell 1 Distorted\n",
    ),
    ("--mesh other", SQUARE, 17, "", "assemble: 17 Absent mesh\n"),
    (
        "--mesh other --mode ordered",
        SQUARE,
        17,
        "",
        "assemble: 17 Absent mesh\n",
    ),
    (
        "--mesh ordered --mode",
        SQUARE,
        2,
        "",
        "assemble: 2 Words\n",
    ),
    ("--mode ordered", SQUARE, 2, "", "assemble: 2 Words\n"),
];
