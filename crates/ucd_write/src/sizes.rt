ghost use Rattle.std.specs.Prelude.{◌≡◌, ◌<◌, ◌≤◌, ◌+◌, ◌*◌, ◌^◌, ◌∷◌, [], length, decimal, All, unsigned_abs};
ghost use Rattle.fem_fixed.specs.Mesh.{IsWithinReach, AreWithin};
ghost use Rattle.mesh_nodes.specs.Bounds.{IsBounded};
ghost use Rattle.fem_text.specs.Written.{text_of, line_of};
ghost use Rattle.ucd_write.specs.Coordinates.{coordinate};
ghost use Rattle.ucd_write.specs.Text.{node_word, corner_words, header_line, node_line, quad_line, edge_line, node_lines, quad_lines, edge_lines, mesh_text};

use fem_fixed::{LineSpec, MeshParts, Point, QuadSpec};

/// How many bytes the text of a mesh takes.
pub(crate) fn text_size(parts: &MeshParts) -> usize
    requires { IsBounded parts.now }
    ensures { result ≡ length (mesh_text parts.now) }
{
    let quads = parts.quads().len() as u64;
    let cells = quads + parts.lines().len() as u64;
    let header = header_size(parts.points().len() as u64, cells);
    let nodes = nodes_size(parts.ids(), parts.points());
    let first = quads_size(parts.ids(), parts.quads());
    let last = edges_size(parts.ids(), quads + 1, parts.lines());
    header + nodes + first + last
}

#[tactic(auto, unfolding(crate::specs::Text::header_line))]
fn header_size(nodes: u64, cells: u64) -> usize
    ensures value { result ≡ length (text_of (header_line nodes cells ∷ [])) }
    ensures few { result ≤ 100 }
{
    digits(nodes) + digits(cells) + 8
}

fn nodes_size(ids: &[u32], points: &[Point]) -> usize
    requires whole { length ids.now ≡ length points.now }
    requires reach { All IsWithinReach points.now }
    requires few { length points.now ≤ 2 ^ 20 }
    ensures value { result ≡ length (text_of (node_lines ids.now points.now)) }
    ensures few { result ≤ 120 * 2 ^ 20 }
{
    let mut size = 0;
    for i in 0..ids.len() {
        size += node_size(ids[i], points[i]);
    }
    size
}

#[tactic(auto, unfolding(crate::specs::Text::node_line))]
fn node_size(id: u32, point: Point) -> usize
    requires { IsWithinReach point }
    ensures value { result ≡ length (text_of (node_line id point ∷ [])) }
    ensures few { result ≤ 120 }
{
    digits(id as u64) + coordinate_size(point.x) + coordinate_size(point.y) + 5
}

#[tactic(auto, using(crate::proofs::Lengths::coordinate_length))]
fn coordinate_size(ticks: i64) -> usize
    requires { unsigned_abs ticks ≤ 2 ^ 26 }
    ensures value { result ≡ length (coordinate ticks) }
    ensures few { result ≤ 40 }
{
    let size = digits(ticks.unsigned_abs() / 65_536) + 17;
    if ticks < 0 { size + 1 } else { size }
}

fn quads_size(ids: &[u32], quads: &[QuadSpec]) -> usize
    requires within { All (λ quad. AreWithin (length ids.now) quad.corners) quads.now }
    requires few { length quads.now ≤ 2 ^ 20 }
    ensures value { result ≡ length (text_of (quad_lines ids.now 1 quads.now)) }
    ensures few { result ≤ 160 * 2 ^ 20 }
{
    let mut size = 0;
    for i in 0..quads.len() {
        size += quad_size(ids, i as u64 + 1, &quads[i]);
    }
    size
}

#[tactic(auto, unfolding(crate::specs::Text::quad_line))]
fn quad_size(ids: &[u32], number: u64, quad: &QuadSpec) -> usize
    requires { AreWithin (length ids.now) quad.now.corners }
    ensures value { result ≡ length (text_of (quad_line ids.now number quad.now ∷ [])) }
    ensures few { result ≤ 160 }
{
    digits(number) + digits(quad.material as u64) + corners_size(ids, &quad.corners) + 7
}

fn corners_size(ids: &[u32], corners: &[u32; 4]) -> usize
    requires { AreWithin (length ids.now) corners.now }
    ensures value { result ≡ length (text_of (line_of (corner_words ids.now corners.now) ∷ [])) }
    ensures few { result ≤ 100 }
{
    let [a, b, c, d] = *corners;
    id_size(ids, a) + id_size(ids, b) + id_size(ids, c) + id_size(ids, d) + 4
}

fn id_size(ids: &[u32], position: u32) -> usize
    requires { position < length ids.now }
    ensures value { result ≡ length (node_word ids.now position) }
    ensures few { result ≤ 20 }
{
    digits(ids[position as usize] as u64)
}

fn edges_size(ids: &[u32], first: u64, lines: &[LineSpec]) -> usize
    requires within { All (λ line. AreWithin (length ids.now) line.ends) lines.now }
    requires few { first + length lines.now ≤ 2 ^ 22 }
    ensures value { result ≡ length (text_of (edge_lines ids.now first lines.now)) }
    ensures few { result ≤ 120 * 2 ^ 22 }
{
    let mut size = 0;
    for i in 0..lines.len() {
        size += edge_size(ids, first + i as u64, &lines[i]);
    }
    size
}

#[tactic(auto, unfolding(crate::specs::Text::edge_line))]
fn edge_size(ids: &[u32], number: u64, line: &LineSpec) -> usize
    requires { AreWithin (length ids.now) line.now.ends }
    ensures value { result ≡ length (text_of (edge_line ids.now number line.now ∷ [])) }
    ensures few { result ≤ 120 }
{
    let [from, to] = line.ends;
    digits(number) + digits(line.id as u64) + id_size(ids, from) + id_size(ids, to) + 9
}

// How many digits a number has.
fn digits(number: u64) -> usize
    ensures value { result ≡ length (decimal number) }
    ensures few { result ≤ 20 }
{
    match number.checked_ilog10() {
        Some(power) => power as usize + 1,
        None => 1,
    }
}
