//! Cells of local forms, and the parts of faces between two of them.
ghost use Rattle.std.specs.Prelude.{◌≡◌, All, IsTrue, IfSome};
ghost use Rattle.fem_fixed.specs.Mesh.{IsWithinReach};
ghost use Rattle.fixed_q1.specs.Geometry.{IsInside};

use fem_fixed::Point;
use fixed_q1::{Part, place_of};

/// The x and y of four vertices in lexicographic order, in ticks.
pub(crate) type Corners = [i64; 8];

pub(crate) const UNIT: Corners = [0, 0, 65536, 0, 0, 65536, 65536, 65536];

/// The unit square to the right of that.
pub(crate) const RIGHT: Corners = [65536, 0, 131072, 0, 65536, 65536, 131072, 65536];

pub(crate) const SKEW: Corners = [0, 0, 131072, 16384, -16384, 131072, 147456, 163840];

/// The cell to the right of that.
pub(crate) const BESIDE: Corners = [131072, 16384, 262144, 0, 147456, 163840, 300000, 131072];

/// As large as can be, so that no product of it fits 64 bits.
pub(crate) const LARGE: Corners = [
    -67108864, -67108864, 67108864, -67108864, -67108864, 67108864, 67108864, 67108864,
];

/// As long as can be, and a tick high.
pub(crate) const FLAT: Corners = [-67108864, 0, 67108864, 0, -67108864, 1, 67108864, 1];

/// A triangle of a tick, with two vertices at one place.
pub(crate) const TICK: Corners = [655360, 0, 655361, 0, 655360, 1, 655360, 1];

/// Two cells as long as can be and four ticks high, one on the other.
pub(crate) const LOW: Corners = [-67108864, 0, 67108864, 0, -67108864, 4, 67108864, 4];

pub(crate) const HIGH: Corners = [-67108864, 4, 67108864, 4, -67108864, 8, 67108864, 8];

/// The x and y of both ends of a face, in ticks.
pub(crate) type Ends = [i64; 4];

/// The face between the unit square and the one to the right of it.
pub(crate) const BETWEEN: Ends = [65536, 0, 65536, 65536];

/// The face between the two long cells.
pub(crate) const LONG: Ends = [-67108864, 4, 67108864, 4];

/// A face that slants, three by four.
pub(crate) const SLANTED: Ends = [0, 262144, 196608, 0];

fn are_within_reach(points: &[Point]) -> bool
    ensures { IsTrue result → All IsWithinReach points.now }
{
    points.iter().all(|p| p.x.unsigned_abs() <= 67_108_864 && p.y.unsigned_abs() <= 67_108_864)
}

/// The vertices, where they are within the reach of the forms.
pub(crate) fn cell_of(corners: &Corners) -> Option<[Point; 4]>
    ensures { IfSome result (λ points. All IsWithinReach points) }
{
    let [x0, y0, x1, y1, x2, y2, x3, y3] = *corners;
    let points = [
        Point { x: x0, y: y0 },
        Point { x: x1, y: y1 },
        Point { x: x2, y: y2 },
        Point { x: x3, y: y3 },
    ];
    if are_within_reach(&points) {
        Some(points)
    } else {
        None
    }
}

/// The ends, where they are within the reach of the forms.
pub(crate) fn ends_of(ends: &Ends) -> Option<[Point; 2]>
    ensures { IfSome result (λ points. All IsWithinReach points) }
{
    let [x0, y0, x1, y1] = *ends;
    let points = [Point { x: x0, y: y0 }, Point { x: x1, y: y1 }];
    if are_within_reach(&points) {
        Some(points)
    } else {
        None
    }
}

/// A whole face between two cells: the cells, the number of the face in each of them, and the ends of the face.
pub(crate) type Across = (Corners, u8, Corners, u8, Ends);

pub(crate) const SQUARES: Across = (UNIT, 1, RIGHT, 0, BETWEEN);

pub(crate) const SKEWED: Across = (SKEW, 1, BESIDE, 0, [131072, 16384, 147456, 163840]);

pub(crate) const STRIPS: Across = (LOW, 3, HIGH, 2, LONG);

/// The slopes on the flat cell are above their limit.
pub(crate) const STEEP: Across = (LOW, 3, FLAT, 2, LONG);

/// The triangle is folded, seen from here and from there.
pub(crate) const FOLDED_THERE: Across = (UNIT, 1, TICK, 1, BETWEEN);

pub(crate) const FOLDED_HERE: Across = (TICK, 1, UNIT, 1, BETWEEN);

/// What the forms of a part take: both cells with the places of its middle in their unit squares, and its ends.
#[derive(Drop)]
pub(crate) struct Sides {
    pub(crate) here: [Point; 4],
    pub(crate) here_at: (i64, i64),
    pub(crate) there: [Point; 4],
    pub(crate) there_at: (i64, i64),
    pub(crate) ends: [Point; 2],
    ghost here_is_within: { All IsWithinReach here },
    ghost here_is_inside: { IsInside here_at.0 × IsInside here_at.1 },
    ghost there_is_within: { All IsWithinReach there },
    ghost there_is_inside: { IsInside there_at.0 × IsInside there_at.1 },
    ghost ends_are_within: { All IsWithinReach ends },
}

/// Both sides of a face, where they are within the reach of the forms.
pub(crate) fn sides_of(across: &Across) -> Option<Sides> {
    let (here, here_face, there, there_face, ends) = *across;
    if here_face >= 4 || there_face >= 4 {
        return None;
    }
    Some(Sides {
        here: cell_of(&here)?,
        here_at: place_of(here_face, Part::Whole),
        there: cell_of(&there)?,
        there_at: place_of(there_face, Part::Whole),
        ends: ends_of(&ends)?,
    })
}
