ghost use Rattle.std.specs.Prelude.{◌≡◌, ◌<◌, ◌≤◌, ◌^◌, ◌++◌, ◌∷◌, [], length, All, vec_capacity};
ghost use Rattle.fem_fixed.specs.Mesh.{IsWithinReach};
ghost use Rattle.fem_text.specs.Written.{text_of};
ghost use Rattle.ucd_write.specs.Text.{node_line, node_lines};

use crate::coordinates::append_coordinate;
use fem_fixed::Point;
use fem_text::{append, append_number};

/// Adds the lines of the nodes.
pub(crate) fn append_nodes(text: &mut Vec<u8>, ids: &[u32], points: &[Point])
    requires whole { length ids.now ≡ length points.now }
    requires reach { All IsWithinReach points.now }
    requires room { length (text.old.items ++ text_of (node_lines ids.now points.now)) ≤ vec_capacity text.old }
    ensures items { text.new.items ≡ text.old.items ++ text_of (node_lines ids.now points.now) }
    ensures room { vec_capacity text.old ≤ vec_capacity text.new }
    ensures ranges { All (λ id. id < 2 ^ 32) ids.now }
{
    for i in 0..ids.len() {
        append_node(text, ids[i], points[i]);
    }
}

#[tactic(auto, unfolding(crate::specs::Text::node_line))]
fn append_node(text: &mut Vec<u8>, id: u32, point: Point)
    requires reach { IsWithinReach point }
    requires room { length (text.old.items ++ text_of (node_line id point ∷ [])) ≤ vec_capacity text.old }
    ensures items { text.new.items ≡ text.old.items ++ text_of (node_line id point ∷ []) }
    ensures room { vec_capacity text.old ≤ vec_capacity text.new }
{
    append_number(text, id, b" ");
    append_coordinate(text, point.x);
    append_coordinate(text, point.y);
    append(text, b"0\n");
}
