ghost use Rattle.std.specs.Prelude.{◌≡◌, ◌<◌, All, length};
ghost use Rattle.fem_fixed.specs.Mesh.{IsWithinReach};
ghost use Rattle.fixed_q1.specs.declared.places.Part.{Part};
ghost use Rattle.fixed_q1.specs.Geometry.{vector};
ghost use Rattle.fixed_q1.specs.Places.{reference_place};
ghost use Rattle.cell_blocks.specs.Blocks as blocks;
ghost use Rattle.cell_blocks.specs.Sides.{IsWithinPart};
ghost use Rattle.cell_blocks.specs.Views.{given};

use crate::setting::Setting;
use fem_fixed::Point;
use fixed_q1::{Part, place_of};

/// A part of a face, from one side.
#[derive(Clone, Copy)]
pub struct Side {
    pub cell: u32,
    pub face: u8,
    pub part: Part,
}

/// Where a part of an interior face lies, in ticks.
#[derive(Drop)]
pub struct PartPlace {
    /// The vertices of the cell here.
    pub here: [Point; 4],
    /// The midpoint of the part in the unit square of the cell here.
    pub here_at: (i64, i64),
    /// The vertices of the cell there.
    pub there: [Point; 4],
    /// The midpoint of the part in the unit square of the cell there.
    pub there_at: (i64, i64),
    /// The ends of the face that is the part whole.
    pub ends: [Point; 2],
}

impl PartPlace {
    /// The part that lies between these sides.
    pub fn of(setting: &Setting, here: &Side, there: &Side) -> PartPlace
        requires cell { here.now.cell < length setting.now.forest.now.cells }
        requires other { there.now.cell < length setting.now.forest.now.cells }
        requires face { here.now.face < 4 }
        requires other_face { there.now.face < 4 }
        ensures within { IsWithinPart result }
        ensures here { result.here ≡ blocks.points_of (given setting.now) here.now.cell }
        ensures here_at { vector result.here_at.0 result.here_at.1 ≡ reference_place here.now.face here.now.part }
        ensures there { result.there ≡ blocks.points_of (given setting.now) there.now.cell }
        ensures there_at { vector result.there_at.0 result.there_at.1 ≡ reference_place there.now.face there.now.part }
        ensures ends { result.ends ≡ blocks.part_ends (given setting.now) here.now.cell here.now.face there.now.cell there.now.face here.now.part }
    {
        PartPlace {
            here: setting.forest.points(here.cell),
            here_at: place_of(here.face, here.part),
            there: setting.forest.points(there.cell),
            there_at: place_of(there.face, there.part),
            ends: part_ends(setting, here, there),
        }
    }
}

/// The ends of a part: those of the face that is the part whole, of the cell here where both are.
fn part_ends(setting: &Setting, here: &Side, there: &Side) -> [Point; 2]
    requires cell { here.now.cell < length setting.now.forest.now.cells }
    requires other { there.now.cell < length setting.now.forest.now.cells }
    ensures value { result ≡ blocks.part_ends (given setting.now) here.now.cell here.now.face there.now.cell there.now.face here.now.part }
    ensures reach { All IsWithinReach result }
{
    match here.part {
        Part::Whole => setting.end_points(here.cell, here.face),
        Part::Half0 => setting.end_points(there.cell, there.face),
        Part::Half1 => setting.end_points(there.cell, there.face),
    }
}
