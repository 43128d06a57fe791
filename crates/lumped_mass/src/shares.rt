//! The shares of the vertices of a cell.
ghost use Rattle.std.specs.Prelude.{◌≡◌, ◌<◌, ◌≤◌, ◌^◌, ◌*ℤ◌, All, unsigned_abs};
ghost use Rattle.fem_fixed.specs.Mesh.{IsWithinReach};
ghost use Rattle.quad_mesh.specs.Geometry.{point_at, cross_product};
ghost use Rattle.lumped_mass.specs.Masses.{shares_of as wanted};

use fem_fixed::Point;

/// The shares of the vertices 0 to 3 of a cell with these corners: at each the cross product of its edges, in square
/// ticks.
#[tactic(auto, unfolding(crate::specs::Masses::shares_of))]
pub fn shares_of(points: &[Point; 4]) -> [i64; 4]
    requires { All IsWithinReach points.now }
    ensures value { result ≡ wanted points.now }
    ensures small { All (λ share. unsigned_abs share ≤ 2 ^ 55) result }
{
    [
        share(points, 0, 1, 2),
        share(points, 1, 3, 0),
        share(points, 2, 0, 3),
        share(points, 3, 2, 1),
    ]
}

// The cross product of the edges from a vertex to the next one and to the one before.
fn share(points: &[Point; 4], at: usize, ahead: usize, behind: usize) -> i64
    requires reach { All IsWithinReach points.now }
    requires vertices { (at < 4) × (ahead < 4) × (behind < 4) }
    ensures value { result ≡ cross_product (point_at points.now at) (point_at points.now ahead) (point_at points.now at) (point_at points.now behind) }
    ensures small { unsigned_abs result ≤ 2 ^ 55 }
{
    cross(points[at], points[ahead], points[behind])
}

fn cross(at: Point, ahead: Point, behind: Point) -> i64
    requires at { IsWithinReach at }
    requires ahead { IsWithinReach ahead }
    requires behind { IsWithinReach behind }
    ensures value { result ≡ cross_product at ahead at behind }
    ensures small { unsigned_abs result ≤ 2 ^ 55 }
{
    product(ahead.x - at.x, behind.y - at.y) - product(ahead.y - at.y, behind.x - at.x)
}

fn product(a: i64, b: i64) -> i64
    requires a { unsigned_abs a ≤ 2 ^ 27 }
    requires b { unsigned_abs b ≤ 2 ^ 27 }
    ensures value { result ≡ a *ℤ b }
    ensures small { unsigned_abs result ≤ 2 ^ 54 }
{
    a * b
}
