ghost use Rattle.std.specs.Prelude.{◌≡◌, ◌<◌, ◌≤◌, ◌^◌, ◌+◌, ◌++◌, ◌∷◌, [], length, All, vec_capacity, slice_index, codes};
ghost use Rattle.fem_fixed.specs.Mesh.{AreWithin};
ghost use Rattle.fem_text.specs.Written.{text_of, line_of};
ghost use Rattle.ucd_write.specs.Ranges.{IsRangedQuad, IsRangedLine};
ghost use Rattle.ucd_write.specs.Text.{node_word, corner_words, quad_line, edge_line, quad_lines, edge_lines};

use fem_fixed::{LineSpec, QuadSpec};
use fem_text::append_number;

/// Adds the lines of the quadrilaterals, numbered from 1 on.
pub(crate) fn append_quads(text: &mut Vec<u8>, ids: &[u32], quads: &[QuadSpec])
    requires within { All (λ quad. AreWithin (length ids.now) quad.corners) quads.now }
    requires few { length quads.now ≤ 2 ^ 20 }
    requires room { length (text.old.items ++ text_of (quad_lines ids.now 1 quads.now)) ≤ vec_capacity text.old }
    ensures items { text.new.items ≡ text.old.items ++ text_of (quad_lines ids.now 1 quads.now) }
    ensures room { vec_capacity text.old ≤ vec_capacity text.new }
    ensures ranges { All IsRangedQuad quads.now }
{
    for i in 0..quads.len() {
        append_quad(text, ids, i as u64 + 1, &quads[i]);
    }
}

#[tactic(auto, unfolding(crate::specs::Text::quad_line))]
fn append_quad(text: &mut Vec<u8>, ids: &[u32], number: u64, quad: &QuadSpec)
    requires within { AreWithin (length ids.now) quad.now.corners }
    requires room { length (text.old.items ++ text_of (quad_line ids.now number quad.now ∷ [])) ≤ vec_capacity text.old }
    ensures items { text.new.items ≡ text.old.items ++ text_of (quad_line ids.now number quad.now ∷ []) }
    ensures room { vec_capacity text.old ≤ vec_capacity text.new }
    ensures ranges { IsRangedQuad quad.now }
{
    append_number(text, number, b" ");
    append_number(text, quad.material, b" quad ");
    append_corners(text, ids, &quad.corners);
}

fn append_corners(text: &mut Vec<u8>, ids: &[u32], corners: &[u32; 4])
    requires within { AreWithin (length ids.now) corners.now }
    requires room { length (text.old.items ++ text_of (line_of (corner_words ids.now corners.now) ∷ [])) ≤ vec_capacity text.old }
    ensures items { text.new.items ≡ text.old.items ++ text_of (line_of (corner_words ids.now corners.now) ∷ []) }
    ensures room { vec_capacity text.old ≤ vec_capacity text.new }
    ensures four { length corners.now ≡ 4 }
{
    let [a, b, c, d] = *corners;
    append_two(text, ids, a, b, b" ");
    append_two(text, ids, c, d, b"\n");
}

// Adds the ids of the nodes at two positions, and what stands behind them.
fn append_two(text: &mut Vec<u8>, ids: &[u32], first: u32, second: u32, behind: &[u8])
    requires first { first < length ids.now }
    requires second { second < length ids.now }
    requires room { length (text.old.items ++ (node_word ids.now first ++ 32 ∷ (node_word ids.now second ++ behind.now))) ≤ vec_capacity text.old }
    ensures items { text.new.items ≡ text.old.items ++ (node_word ids.now first ++ 32 ∷ (node_word ids.now second ++ behind.now)) }
    ensures room { vec_capacity text.old ≤ vec_capacity text.new }
{
    append_number(text, ids[first as usize], b" ");
    append_number(text, ids[second as usize], behind);
}

/// Adds the lines that carry boundary ids, numbered from this number on.
pub(crate) fn append_edges(text: &mut Vec<u8>, ids: &[u32], first: u64, lines: &[LineSpec])
    requires within { All (λ line. AreWithin (length ids.now) line.ends) lines.now }
    requires few { first + length lines.now ≤ 2 ^ 22 }
    requires room { length (text.old.items ++ text_of (edge_lines ids.now first lines.now)) ≤ vec_capacity text.old }
    ensures items { text.new.items ≡ text.old.items ++ text_of (edge_lines ids.now first lines.now) }
    ensures room { vec_capacity text.old ≤ vec_capacity text.new }
    ensures ranges { All IsRangedLine lines.now }
{
    for i in 0..lines.len() {
        append_edge(text, ids, first + i as u64, &lines[i]);
    }
}

#[tactic(auto, unfolding(crate::specs::Text::edge_line))]
fn append_edge(text: &mut Vec<u8>, ids: &[u32], number: u64, line: &LineSpec)
    requires within { AreWithin (length ids.now) line.now.ends }
    requires room { length (text.old.items ++ text_of (edge_line ids.now number line.now ∷ [])) ≤ vec_capacity text.old }
    ensures items { text.new.items ≡ text.old.items ++ text_of (edge_line ids.now number line.now ∷ []) }
    ensures room { vec_capacity text.old ≤ vec_capacity text.new }
    ensures ranges { IsRangedLine line.now }
{
    let [from, to] = line.ends;
    append_number(text, number, b" ");
    append_number(text, line.id, b" line ");
    append_two(text, ids, from, to, b"\n");
}
