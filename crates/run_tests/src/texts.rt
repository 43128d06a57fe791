// Texts that the tests give to runs, and texts that runs are to write.

// The unit square, one cell.
pub(crate) const SQUARE: &str = "4 1 0 0 0\n1 0 0 0\n2 1 0 0\n3 1 1 0\n4 0 1 0\n1 1 quad 1 2 3 4\n";

// Two unit squares side by side.
pub(crate) const STRIP: &str =
    "6 2 0 0 0\n1 0 0 0\n2 1 0 0\n3 2 0 0\n4 0 1 0\n5 1 1 0\n6 2 1 0\n1 1 quad 1 2 5 4\n2 1 quad 2 3 6 5\n";

// The same two squares, the second of another material, and a problem that puts them into two subdomains.
pub(crate) const PARTED_STRIP: &str =
    "6 2 0 0 0\n1 0 0 0\n2 1 0 0\n3 2 0 0\n4 0 1 0\n5 1 1 0\n6 2 1 0\n1 1 quad 1 2 5 4\n2 2 quad 2 3 6 5\n";

pub(crate) const PARTED_PROBLEM: &str = "subdomain 2 5\npenalty 1\n";

// The same two squares as a mesh tool may write them.
pub(crate) const LENIENT_STRIP: &str =
    "# made by a writer\n# second comment\n6 4 1 0 0\n70 0.0 0.0 0.0\r\n9\t1e0  0 0\n\n11 2.00 0 -0\n12 0 10.0E-01 0\n\
13 1 1 0\n14 2 1. 0\n1 1 quad 70 9 13 12\n2 1 quad 9 11 14 13\n3 7 line 70 12\n4 9 line 14 11\n1 1\nheight, none\n70 0.25\n";

// A grid of 4 by 4 unit squares, of which the sixth has material 2.
pub(crate) const GRID: &str =
    "25 16 0 0 0\n1 0 0 0\n2 1 0 0\n3 2 0 0\n4 3 0 0\n5 4 0 0\n6 0 1 0\n7 1 1 0\n8 2 1 0\n9 3 1 0\n10 4 1 0\n\
11 0 2 0\n12 1 2 0\n13 2 2 0\n14 3 2 0\n15 4 2 0\n16 0 3 0\n17 1 3 0\n18 2 3 0\n19 3 3 0\n20 4 3 0\n21 0 4 0\n\
22 1 4 0\n23 2 4 0\n24 3 4 0\n25 4 4 0\n1 1 quad 1 2 7 6\n2 1 quad 2 3 8 7\n3 1 quad 3 4 9 8\n\
4 1 quad 4 5 10 9\n5 1 quad 6 7 12 11\n6 2 quad 7 8 13 12\n7 1 quad 8 9 14 13\n8 1 quad 9 10 15 14\n\
9 1 quad 11 12 17 16\n10 1 quad 12 13 18 17\n11 1 quad 13 14 19 18\n12 1 quad 14 15 20 19\n\
13 1 quad 16 17 22 21\n14 1 quad 17 18 23 22\n15 1 quad 18 19 24 23\n16 1 quad 19 20 25 24\n";

// The grid's sixth cell conducts well, and all others badly.
pub(crate) const GRID_PROBLEM: &str = "diffusion 1 0.00048828125\ndiffusion 2 16384\n";

// Five cells apart from each other, of which the second, the third and the fifth are triangles of a tick, too small for a
// local form.
pub(crate) const TINY: &str =
    "20 5 0 0 0\n1 0 0 0\n2 1 0 0\n3 1 1 0\n4 0 1 0\n5 10 0 0\n6 10.0000152587890625 0 0\n\
7 10 0.0000152587890625 0\n8 10 0.0000152587890625 0\n9 20 0 0\n10 20.0000152587890625 0 0\n\
11 20 0.0000152587890625 0\n12 20 0.0000152587890625 0\n13 30 0 0\n14 31 0 0\n15 31 1 0\n16 30 1 0\n\
17 40 0 0\n18 40.0000152587890625 0 0\n19 40 0.0000152587890625 0\n20 40 0.0000152587890625 0\n\
1 1 quad 1 2 3 4\n2 1 quad 5 6 7 8\n3 1 quad 9 10 11 12\n4 1 quad 13 14 15 16\n5 1 quad 17 18 19 20\n";

// Two long cells of one tick in height at the same place.
pub(crate) const LONG: &str =
    "8 2 0 0 0\n1 0 0 0\n2 1024 0 0\n3 1024 0.0000152587890625 0\n4 0 0.0000152587890625 0\n5 0 0 0\n6 1024 0 0\n\
7 1024 0.0000152587890625 0\n8 0 0.0000152587890625 0\n1 1 quad 1 2 3 4\n2 1 quad 5 6 7 8\n";

// A long cell of one tick in height.
pub(crate) const FLAT: &str =
    "4 1 0 0 0\n1 -1024 0 0\n2 1024 0 0\n3 1024 0.0000152587890625 0\n4 -1024 0.0000152587890625 0\n\
1 1 quad 1 2 3 4\n";

// A square of one tick.
pub(crate) const TICK: &str =
    "4 1 0 0 0\n1 0 0 0\n2 0.0000152587890625 0 0\n3 0.0000152587890625 0.0000152587890625 0\n\
4 0 0.0000152587890625 0\n1 1 quad 1 2 3 4\n";

// The matrix of the unit square.
pub(crate) const SQUARE_MATRIX: &str =
    "%%MatrixMarket matrix coordinate integer general\n% unit 2^-32\n4 4 16\n1 1 2863340768\n1 2 -715857120\n\
1 3 -715857120\n1 4 -1431626528\n2 1 -715857120\n2 2 2863340768\n2 3 -1431626528\n2 4 -715857120\n\
3 1 -715857120\n3 2 -1431626528\n3 3 2863340768\n3 4 -715857120\n4 1 -1431626528\n4 2 -715857120\n\
4 3 -715857120\n4 4 2863340768\n";

// The pattern of the unit square.
pub(crate) const SQUARE_PATTERN: &str =
    "%%MatrixMarket matrix coordinate pattern general\n4 4 16\n1 1\n1 2\n1 3\n1 4\n2 1\n2 2\n2 3\n2 4\n3 1\n3 2\n\
3 3\n3 4\n4 1\n4 2\n4 3\n4 4\n";

// The matrix of the strip: the sum of the matrices of its two squares.
pub(crate) const STRIP_MATRIX: &str =
    "%%MatrixMarket matrix coordinate integer general\n% unit 2^-32\n6 6 28\n1 1 2863340768\n1 2 -715857120\n\
1 3 -715857120\n1 4 -1431626528\n2 1 -715857120\n2 2 5726681536\n2 3 -1431626528\n2 4 -1431714240\n\
2 5 -715857120\n2 6 -1431626528\n3 1 -715857120\n3 2 -1431626528\n3 3 2863340768\n3 4 -715857120\n\
4 1 -1431626528\n4 2 -1431714240\n4 3 -715857120\n4 4 5726681536\n4 5 -1431626528\n4 6 -715857120\n\
5 2 -715857120\n5 4 -1431626528\n5 5 2863340768\n5 6 -715857120\n6 2 -1431626528\n6 4 -715857120\n\
6 5 -715857120\n6 6 2863340768\n";

// The matrix of the grid where all its cells conduct alike: the sum of the matrices of its sixteen squares.
pub(crate) const GRID_MATRIX: &str =
    "%%MatrixMarket matrix coordinate integer general\n% unit 2^-32\n25 25 169\n1 1 2863340768\n1 2 -715857120\n\
1 3 -715857120\n1 4 -1431626528\n2 1 -715857120\n2 2 5726681536\n2 3 -1431626528\n2 4 -1431714240\n\
2 5 -715857120\n2 6 -1431626528\n3 1 -715857120\n3 2 -1431626528\n3 3 5726681536\n3 4 -1431714240\n\
3 11 -715857120\n3 12 -1431626528\n4 1 -1431626528\n4 2 -1431714240\n4 3 -1431714240\n4 4 11453363072\n\
4 5 -1431626528\n4 6 -1431714240\n4 11 -1431626528\n4 12 -1431714240\n4 13 -1431626528\n5 2 -715857120\n\
5 4 -1431626528\n5 5 5726681536\n5 6 -1431714240\n5 7 -715857120\n5 8 -1431626528\n6 2 -1431626528\n\
6 4 -1431714240\n6 5 -1431714240\n6 6 11453363072\n6 7 -1431626528\n6 8 -1431714240\n6 12 -1431626528\n\
6 13 -1431714240\n6 14 -1431626528\n7 5 -715857120\n7 6 -1431626528\n7 7 5726681536\n7 8 -1431714240\n\
7 9 -715857120\n7 10 -1431626528\n8 5 -1431626528\n8 6 -1431714240\n8 7 -1431714240\n8 8 11453363072\n\
8 9 -1431626528\n8 10 -1431714240\n8 13 -1431626528\n8 14 -1431714240\n8 15 -1431626528\n9 7 -715857120\n\
9 8 -1431626528\n9 9 2863340768\n9 10 -715857120\n10 7 -1431626528\n10 8 -1431714240\n10 9 -715857120\n\
10 10 5726681536\n10 14 -1431626528\n10 15 -715857120\n11 3 -715857120\n11 4 -1431626528\n11 11 5726681536\n\
11 12 -1431714240\n11 16 -715857120\n11 17 -1431626528\n12 3 -1431626528\n12 4 -1431714240\n12 6 -1431626528\n\
12 11 -1431714240\n12 12 11453363072\n12 13 -1431714240\n12 16 -1431626528\n12 17 -1431714240\n\
12 18 -1431626528\n13 4 -1431626528\n13 6 -1431714240\n13 8 -1431626528\n13 12 -1431714240\n\
13 13 11453363072\n13 14 -1431714240\n13 17 -1431626528\n13 18 -1431714240\n13 19 -1431626528\n\
14 6 -1431626528\n14 8 -1431714240\n14 10 -1431626528\n14 13 -1431714240\n14 14 11453363072\n\
14 15 -1431714240\n14 18 -1431626528\n14 19 -1431714240\n14 20 -1431626528\n15 8 -1431626528\n\
15 10 -715857120\n15 14 -1431714240\n15 15 5726681536\n15 19 -1431626528\n15 20 -715857120\n16 11 -715857120\n\
16 12 -1431626528\n16 16 5726681536\n16 17 -1431714240\n16 21 -715857120\n16 22 -1431626528\n\
17 11 -1431626528\n17 12 -1431714240\n17 13 -1431626528\n17 16 -1431714240\n17 17 11453363072\n\
17 18 -1431714240\n17 21 -1431626528\n17 22 -1431714240\n17 23 -1431626528\n18 12 -1431626528\n\
18 13 -1431714240\n18 14 -1431626528\n18 17 -1431714240\n18 18 11453363072\n18 19 -1431714240\n\
18 22 -1431626528\n18 23 -1431714240\n18 24 -1431626528\n19 13 -1431626528\n19 14 -1431714240\n\
19 15 -1431626528\n19 18 -1431714240\n19 19 11453363072\n19 20 -1431714240\n19 23 -1431626528\n\
19 24 -1431714240\n19 25 -1431626528\n20 14 -1431626528\n20 15 -715857120\n20 19 -1431714240\n\
20 20 5726681536\n20 24 -1431626528\n20 25 -715857120\n21 16 -715857120\n21 17 -1431626528\n21 21 2863340768\n\
21 22 -715857120\n22 16 -1431626528\n22 17 -1431714240\n22 18 -1431626528\n22 21 -715857120\n\
22 22 5726681536\n22 23 -715857120\n23 17 -1431626528\n23 18 -1431714240\n23 19 -1431626528\n\
23 22 -715857120\n23 23 5726681536\n23 24 -715857120\n24 18 -1431626528\n24 19 -1431714240\n\
24 20 -1431626528\n24 23 -715857120\n24 24 5726681536\n24 25 -715857120\n25 19 -1431626528\n25 20 -715857120\n\
25 24 -715857120\n25 25 2863340768\n";

// The colours of the grid.
pub(crate) const GRID_COLORS: &str =
    "colors 6\n0 0 0\n1 1 3\n2 2 1\n3 3 3\n4 1 4\n5 1 5\n6 2 0\n7 3 4\n8 2 0\n9 2 1\n10 2 2\n11 3 3\n12 3 4\n\
13 3 3\n14 3 4\n15 3 5\n";

// The mesh text of a grid of one cell for the seed 0.
pub(crate) const DRAWN: &str = "4 1 0 0 0\n1 0 0 0\n2 2 0 0\n3 0 2 0\n4 2 2 0\n1 4 quad 1 2 4 3\n";

// Its problem text.
pub(crate) const DRAWN_PROBLEM: &str =
    "diffusion 1 1\ndiffusion 2 0.5\ndiffusion 3 3\ndiffusion 4 0.001\nsource 1 1\nsource 3 2\ndirichlet 0 0\n\
penalty 0.01\nrefine 0 0\n";

// Its matrix, as another program writes it.
pub(crate) const DRAWN_MATRIX: &str =
    "%%MatrixMarket matrix coordinate integer general\n% unit 2^-32\n9 9 9\n1 1 2883612\n2 2 5767224\n3 3 5767224\n\
4 4 11534448\n5 5 2883612\n6 6 5767224\n7 7 2883612\n8 8 5767224\n9 9 2883612\n";

// The summary of the unit square.
pub(crate) const SQUARE_SUMMARY: &str =
    "cells 1\ndofs 4\nentries 16\ndiagonal 11453363072\nweighted -10021385696\nrhs 0\n";

// The right side of the unit square where a source of 1 stands.
pub(crate) const SQUARE_SIDE: &str =
    "%%MatrixMarket matrix array integer general\n% unit 2^-32\n4 1\n1073741824\n1073741824\n1073741824\n1073741824\n";

// The matrix of the strip of which the second square is divided, as another program writes it. Its sixth row is that
// of the hanging corner.
pub(crate) const DIVIDED_MATRIX: &str =
    "%%MatrixMarket matrix coordinate integer general\n% unit 2^-32\n11 11 57\n1 1 2863340768\n1 2 -715857120\n\
1 3 -715857120\n1 4 -1431626528\n2 1 -715857120\n2 2 6442494800\n2 3 -1431626528\n2 4 -43856\n\
2 5 -1431670384\n2 7 -2147483648\n2 10 -715813264\n3 1 -715857120\n3 2 -1431626528\n3 3 2863340768\n\
3 4 -715857120\n4 1 -1431626528\n4 2 -43856\n4 3 -715857120\n4 4 6442494800\n4 5 -715813264\n4 7 -2147483648\n\
4 10 -1431670384\n5 2 -1431670384\n5 4 -715813264\n5 5 5726681536\n5 7 -1431714240\n5 8 -715857120\n\
5 9 -1431626528\n6 6 5726681536\n7 2 -2147483648\n7 4 -2147483648\n7 5 -1431714240\n7 7 11453363072\n\
7 8 -1431626528\n7 9 -1431714240\n7 10 -1431714240\n7 11 -1431626528\n8 5 -715857120\n8 7 -1431626528\n\
8 8 2863340768\n8 9 -715857120\n9 5 -1431626528\n9 7 -1431714240\n9 8 -715857120\n9 9 5726681536\n\
9 10 -1431626528\n9 11 -715857120\n10 2 -715813264\n10 4 -1431670384\n10 7 -1431714240\n10 9 -1431626528\n\
10 10 5726681536\n10 11 -715857120\n11 7 -1431626528\n11 9 -715857120\n11 10 -715857120\n11 11 2863340768\n";

// The system of the divided strip where node 2 is 3 and node 5 half of node 1 and 1 more, as another program writes it.
// So the hanging corner, in the sixth row, is a quarter of node 1 and 2 more.
pub(crate) const TIED_SYSTEM: &str =
    "%%MatrixMarket matrix coordinate integer general\n% unit 2^-32\n11 11 41\n1 1 3042337940\n1 3 -1073785680\n\
1 5 -357906632\n1 7 -1073741824\n1 10 -715835192\n2 2 5726681536\n3 1 -1073785680\n3 3 2863340768\n\
4 4 5726681536\n5 1 -357906632\n5 5 5726681536\n5 7 -1431714240\n5 8 -715857120\n5 9 -1431626528\n\
6 6 5726681536\n7 1 -1073741824\n7 5 -1431714240\n7 7 11453363072\n7 8 -1431626528\n7 9 -1431714240\n\
7 10 -1431714240\n7 11 -1431626528\n8 5 -715857120\n8 7 -1431626528\n8 8 2863340768\n8 9 -715857120\n\
9 5 -1431626528\n9 7 -1431714240\n9 8 -715857120\n9 9 5726681536\n9 10 -1431626528\n9 11 -715857120\n\
10 1 -715835192\n10 7 -1431714240\n10 9 -1431626528\n10 10 5726681536\n10 11 -715857120\n11 7 -1431626528\n\
11 9 -715857120\n11 10 -715857120\n11 11 2863340768\n%%MatrixMarket matrix array integer general\n\
% unit 2^-32\n11 1\n358016272\n17180044608\n5010736704\n5726681536\n5010824416\n11453363072\n8589934592\n0\n\
0\n3579110176\n0\n";

// The system of the unit square where all its corners are 1.
pub(crate) const SQUARE_ALONE: &str =
    "%%MatrixMarket matrix coordinate integer general\n% unit 2^-32\n4 4 4\n1 1 2863340768\n2 2 2863340768\n\
3 3 2863340768\n4 4 2863340768\n%%MatrixMarket matrix array integer general\n% unit 2^-32\n4 1\n2863340768\n\
2863340768\n2863340768\n2863340768\n";

// The system of the unit square with a source of 1, and 1 u on its edges with the data 2, as another program writes it.
pub(crate) const SQUARE_ROBIN: &str =
    "%%MatrixMarket matrix coordinate integer general\n% unit 2^-32\n4 4 16\n1 1 5726652298\n1 2 -29237\n\
1 3 -29237\n1 4 -1431626528\n2 1 -29237\n2 2 5726652298\n2 3 -1431626528\n2 4 -29237\n3 1 -29237\n\
3 2 -1431626528\n3 3 5726652298\n3 4 -29237\n4 1 -1431626528\n4 2 -29237\n4 3 -29237\n4 4 5726652298\n\
%%MatrixMarket matrix array integer general\n% unit 2^-32\n4 1\n9663676416\n9663676416\n9663676416\n\
9663676416\n";

// The strip with the id 7 to the left of its first square and the id 9 to the right of its second.
pub(crate) const MARKED_STRIP: &str =
    "6 4 0 0 0\n1 0 0 0\n2 1 0 0\n3 2 0 0\n4 0 1 0\n5 1 1 0\n6 2 1 0\n1 1 quad 1 2 5 4\n2 1 quad 2 3 6 5\n3 7 line 1 4\n\
4 9 line 3 6\n";

// A problem of it.
pub(crate) const PLAIN_PROBLEM: &str =
    "diffusion 1 0.5\nrobin 7 1 -2\nsource 1 0.1\ndirichlet 9 32768\npenalty 0.25\nrefine 0\n\
constraint 1 = 0.5*2 + -1*4 + 2\n";

// The same as a person may write it, with the ids of the lenient strip.
pub(crate) const LENIENT_PROBLEM: &str =
    "# a plate\r\ndiffusion 1 0.5\r\n\r\nrobin 7 1 -2\nsource 01 1e-1\ndirichlet\t9 32768\n\tpenalty  .25\n\
refine 0 0\n# ties\nconstraint 70 = 0.5*9 + -1*12 + 2\ndiffusion 4294967295 -32768\r\n";

// The strip's squares over nodes whose ids count from 1 up to the second one.
pub(crate) const OTHER_IDS: &str =
    "6 2 0 0 0\n1 0 0 0\n2 1 0 0\n9 1 1 0\n4 0 1 0\n3 2 0 0\n0 2 1 0\n1 1 quad 1 2 9 4\n2 1 quad 2 3 0 9\n";

// The mesh text of a grid of two by two cells for the seed 7.
pub(crate) const DRAWN_FOUR: &str =
    "9 4 0 0 0\n1 0 0 0\n2 2 0 0\n3 4 0 0\n4 0 2 0\n5 2.5 2.5 0\n6 4 2 0\n7 0 4 0\n8 2 4 0\n9 4 4 0\n\
1 2 quad 1 2 5 4\n2 2 quad 2 3 6 5\n3 2 quad 4 5 8 7\n4 4 quad 5 6 9 8\n";

// Its problem text.
pub(crate) const DRAWN_FOUR_PROBLEM: &str =
    "diffusion 1 1\ndiffusion 2 0.5\ndiffusion 3 3\ndiffusion 4 0.001\nsource 1 1\nsource 3 2\ndirichlet 0 0\n\
penalty 0.01\nrefine 0 3\n";

// A cell of four slanted edges.
pub(crate) const SKEW: &str =
    "4 1 0 0 0\n1 0 0 0\n2 2 0.25 0\n3 2.25 2.5 0\n4 -0.25 2 0\n1 1 quad 1 2 3 4\n";

// Its problem.
pub(crate) const SKEW_PROBLEM: &str = "diffusion 1 1.5\nsource 1 -0.07\nrobin 0 0.5 -3\n";

// Its system, worked from the formats by another program.
pub(crate) const SKEW_SYSTEM: &str =
    "%%MatrixMarket matrix coordinate integer general\n% unit 2^-32\n4 4 16\n1 1 7072741769\n1 2 -398290196\n\
1 3 -680194736\n1 4 -1665866183\n2 1 -398290196\n2 2 8133190317\n2 3 -2720505499\n2 4 -419419903\n\
3 1 -680194736\n3 2 -2720505499\n3 3 8022498851\n3 4 279900966\n4 1 -1665866183\n4 2 -419419903\n4 3 279900966\n\
4 4 6973668768\n%%MatrixMarket matrix array integer general\n% unit 2^-32\n4 1\n-26311738387\n-27920639875\n\
-29778217084\n-31387118573\n";

// A cell as large as can be.
pub(crate) const LARGE: &str =
    "4 1 0 0 0\n1 -1024 -1024 0\n2 1024 -1024 0\n3 1024 1024 0\n4 -1024 1024 0\n1 1 quad 1 2 3 4\n";

// Its problem, with all numbers at their limits.
pub(crate) const LARGE_PROBLEM: &str = "diffusion 1 32768\nsource 1 -32768\nrobin 0 32768 -32768\n";

// Its system, worked from the formats by another program.
pub(crate) const LARGE_SYSTEM: &str =
    "%%MatrixMarket matrix coordinate integer general\n% unit 2^-32\n4 4 16\n1 1 192247410051492522\n\
1 2 48014938819111595\n1 3 48014938819111595\n1 4 -46911538003968\n2 1 48014938819111595\n\
2 2 192247410051492522\n2 3 -46911538003968\n2 4 48014938819111595\n3 1 48014938819111595\n3 2 -46911538003968\n\
3 3 192247410051492522\n3 4 48014938819111595\n4 1 -46911538003968\n4 2 48014938819111595\n\
4 3 48014938819111595\n4 4 192247410051492522\n%%MatrixMarket matrix array integer general\n% unit 2^-32\n4 1\n\
-147862182965828124672\n-147862182965828124672\n-147862182965828124672\n-147862182965828124672\n";

// The strip with the id 7 below its first square and the id 3 to the left of it.
pub(crate) const LINED_STRIP: &str =
    "6 4 0 0 0\n1 0 0 0\n2 1 0 0\n3 2 0 0\n4 0 1 0\n5 1 1 0\n6 2 1 0\n1 1 quad 1 2 5 4\n2 1 quad 2 3 6 5\n\
3 7 line 1 2\n4 3 line 4 1\n";

// Its system where the id 7 has the value 1 and the id 3 the value 2, worked from the formats by another program.
// In the corner of both edges the least id decides.
pub(crate) const LINED_SYSTEM: &str =
    "%%MatrixMarket matrix coordinate integer general\n% unit 2^-32\n6 6 12\n1 1 2863340768\n2 2 5726681536\n\
3 3 2863340768\n4 4 5726681536\n4 5 -1431626528\n4 6 -715857120\n5 4 -1431626528\n5 5 2863340768\n\
5 6 -715857120\n6 4 -715857120\n6 5 -715857120\n6 6 2863340768\n%%MatrixMarket matrix array integer general\n\
% unit 2^-32\n6 1\n5726681536\n5726681536\n5726681536\n5726681536\n715857120\n1431626528\n";

// The unit square in MSH, with a section of names, a point and a line.
pub(crate) const MSH_SQUARE: &str =
    "$MeshFormat\n2.2 0 8\n$EndMeshFormat\n$PhysicalNames\n1\n2 1 \"body\"\n$EndPhysicalNames\n$Nodes\n4\n\
1 0 0 0\n2 1 0 0\n3 1 1 0\n4 0 1 0\n$EndNodes\n$Elements\n3\n1 15 2 0 1 1\n2 1 2 7 1 1 2\n3 3 2 1 1 1 2 3 4\n\
$EndElements\n";

// The same with a triangle in place of the line.
pub(crate) const MSH_TRIANGLE: &str =
    "$MeshFormat\n2.2 0 8\n$EndMeshFormat\n$PhysicalNames\n1\n2 1 \"body\"\n$EndPhysicalNames\n$Nodes\n4\n\
1 0 0 0\n2 1 0 0\n3 1 1 0\n4 0 1 0\n$EndNodes\n$Elements\n3\n1 15 2 0 1 1\n2 2 2 7 1 1 2 3\n3 3 2 1 1 1 2 3 4\n\
$EndElements\n";

// The unit square as the mode `mesh` writes it.
pub(crate) const WRITTEN_SQUARE: &str =
    "4 1 0 0 0\n1 0.0000000000000000 0.0000000000000000 0\n2 1.0000000000000000 0.0000000000000000 0\n\
3 1.0000000000000000 1.0000000000000000 0\n4 0.0000000000000000 1.0000000000000000 0\n1 1 quad 1 2 3 4\n";

// Three unit squares round a corner, as gmsh writes them: examples/angle.msh.
pub(crate) const ANGLE: &str =
    "$MeshFormat\n2.2 0 8\n$EndMeshFormat\n$PhysicalNames\n4\n1 7 \"outside\"\n1 9 \"inside\"\n2 1 \"brick\"\n\
2 2 \"insulation\"\n$EndPhysicalNames\n$Nodes\n8\n1 0 0 0\n2 2 0 0\n3 2 1 0\n4 1 1 0\n5 1 2 0\n6 0 2 0\n\
7 0 1 0\n8 1 0 0\n$EndNodes\n$Elements\n11\n1 1 2 7 1 1 8\n2 1 2 7 2 8 2\n3 1 2 7 3 2 3\n4 1 2 9 4 3 4\n\
5 1 2 9 5 4 5\n6 1 2 7 6 5 6\n7 1 2 7 7 6 7\n8 1 2 7 8 7 1\n9 3 2 1 1 1 8 4 7\n10 3 2 2 2 8 2 3 4\n\
11 3 2 2 3 4 5 6 7\n$EndElements\n";

// The same three squares as the mode `mesh` writes them.
pub(crate) const WRITTEN_ANGLE: &str =
    "8 11 0 0 0\n1 0.0000000000000000 0.0000000000000000 0\n2 2.0000000000000000 0.0000000000000000 0\n\
3 2.0000000000000000 1.0000000000000000 0\n4 1.0000000000000000 1.0000000000000000 0\n\
5 1.0000000000000000 2.0000000000000000 0\n6 0.0000000000000000 2.0000000000000000 0\n\
7 0.0000000000000000 1.0000000000000000 0\n8 1.0000000000000000 0.0000000000000000 0\n1 1 quad 1 8 4 7\n\
2 2 quad 8 2 3 4\n3 2 quad 4 5 6 7\n4 7 line 1 8\n5 7 line 8 2\n6 7 line 2 3\n7 9 line 3 4\n8 9 line 4 5\n\
9 7 line 5 6\n10 7 line 6 7\n11 7 line 7 1\n";

// A problem for them.
pub(crate) const ANGLE_PROBLEM: &str =
    "diffusion 1 80\ndiffusion 2 4\nrobin 7 25 -250\nrobin 9 8 160\nrefine 0\n";
