ghost use Rattle.std.specs.Prelude.{◌≡◌, ◌<◌, ◌++◌, All, length};
ghost use Rattle.fem_fixed.specs.Mesh.{IsWithinReach};
ghost use Rattle.corner_names.specs.Cells as cells;
ghost use Rattle.jump_refine.specs.Jumps as jumps;
ghost use Rattle.jump_refine.specs.Jumps.{IsFunctionOn, dofs_of};

use dof_numbers::Dofs;
use fem_fixed::Point;
use hanging_refine::Forest;

/// A function on a refined mesh, by its values at the dofs of degree 1, in ticks.
#[derive(Drop)]
pub struct MeshFunction<'a> {
    pub forest: &'a Forest,
    pub dofs: &'a Dofs,
    pub values: &'a [i64],
}

impl MeshFunction<'_> {
    /// The points of the two ends of a face of a cell.
    pub fn end_points(&self, cell: u32, face: u8) -> [Point; 2]
        requires cell { cell < length self.now.forest.now.cells }
        ensures value { result ≡ jumps.end_points self.now.forest.now cell face }
        ensures reach { All IsWithinReach result }
    {
        let points = self.forest.points(cell);
        [points[first_vertex(face)], points[last_vertex(face)]]
    }

    /// The dofs of two cells.
    pub fn both_dofs(&self, here: u32, there: u32) -> [u32; 8]
        requires function { IsFunctionOn self.now.forest.now self.now.dofs.now self.now.values.now }
        requires here { here < length self.now.forest.now.cells }
        requires there { there < length self.now.forest.now.cells }
        ensures value { result ≡ dofs_of self.now.dofs.now here ++ dofs_of self.now.dofs.now there }
        ensures within { All (λ dof. dof < length self.now.values.now) result }
    {
        joined_dofs(self.dofs.of_cell(here), self.dofs.of_cell(there))
    }
}

/// The four dofs of a cell and those of another one, one behind the other.
#[tactic(auto, using(crate::proofs::Within::four_and_four))]
fn joined_dofs(here: &[u32], there: &[u32]) -> [u32; 8]
    requires here { length here.now ≡ 4 }
    requires there { length there.now ≡ 4 }
    ensures { result ≡ here.now ++ there.now }
{
    [
        here[0], here[1], here[2], here[3], there[0], there[1], there[2], there[3],
    ]
}

/// The vertex at which a face starts.
fn first_vertex(face: u8) -> usize
    ensures value { result ≡ cells.face_start face }
    ensures small { result < 4 }
{
    match face {
        1 => 1,
        3 => 2,
        _ => 0,
    }
}

/// The vertex at which a face ends.
fn last_vertex(face: u8) -> usize
    ensures value { result ≡ cells.face_end face }
    ensures small { result < 4 }
{
    match face {
        0 => 2,
        2 => 1,
        _ => 3,
    }
}
