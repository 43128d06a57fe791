ghost use Rattle.std.specs.Prelude.{◌≡◌, ◌≤◌, ◌++◌, ◌∷◌, [], length, vec_capacity, All, IfOk};
ghost use Rattle.fem_text.specs.Written.{text_of};
ghost use Rattle.ucd_read.specs.Ucd.{Ucd};
ghost use Rattle.ucd_write.specs.Ranges.{IsRangedQuad, IsRangedLine};
ghost use Rattle.ucd_write.specs.Text.{header_line, cell_lines, mesh_text};
ghost use Rattle.mesh_nodes.specs.Bounds.{IsBounded};

use crate::cells::{append_edges, append_quads};
use crate::nodes::append_nodes;
use crate::sizes::text_size;
use fem_fixed::{MeshParts, NoMemory};
use fem_text::append_number;
use std::alloc::Global;

/// The text of a mesh in UCD: a header, the nodes in order with their ids, and then the quadrilaterals and the lines, with
/// the ids of their nodes. A coordinate is written exactly, in sixteen digits behind the point. `read_ucd` reads the mesh
/// back.
///
/// The text is written into one buffer, which is taken once with just the size of the text; nothing behind that can run
/// out of memory.
pub fn ucd_text(alloc: Global, parts: &MeshParts) -> Result<Vec<u8>, NoMemory>
    requires { IsBounded parts.now }
    ensures text { IfOk result (λ text. text.items ≡ mesh_text parts.now) }
    ensures read_back { IfOk result (λ text. Ucd text.items parts.now) }
{
    let mut text = Vec::with_capacity(alloc, text_size(parts))?;
    let cells = parts.quads().len() as u64 + parts.lines().len() as u64;
    append_header(&mut text, parts.points().len() as u64, cells);
    append_nodes(&mut text, parts.ids(), parts.points());
    append_cells(&mut text, parts);
    Ok(text)
}

// Adds the lines of the cells.
fn append_cells(text: &mut Vec<u8>, parts: &MeshParts)
    requires bounded { IsBounded parts.now }
    requires room { length (text.old.items ++ text_of (cell_lines parts.now)) ≤ vec_capacity text.old }
    ensures items { text.new.items ≡ text.old.items ++ text_of (cell_lines parts.now) }
    ensures room { vec_capacity text.old ≤ vec_capacity text.new }
    ensures quads { All IsRangedQuad parts.now.quads }
    ensures lines { All IsRangedLine parts.now.lines }
{
    append_quads(text, parts.ids(), parts.quads());
    let next = parts.quads().len() as u64 + 1;
    append_edges(text, parts.ids(), next, parts.lines());
}

#[tactic(auto, unfolding(crate::specs::Text::header_line))]
fn append_header(text: &mut Vec<u8>, nodes: u64, cells: u64)
    requires { length (text.old.items ++ text_of (header_line nodes cells ∷ [])) ≤ vec_capacity text.old }
    ensures items { text.new.items ≡ text.old.items ++ text_of (header_line nodes cells ∷ []) }
    ensures room { vec_capacity text.old ≤ vec_capacity text.new }
{
    append_number(text, nodes, b" ");
    append_number(text, cells, b" 0 0 0\n");
}
