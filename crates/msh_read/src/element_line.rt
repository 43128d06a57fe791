ghost use Rattle.std.specs.Prelude.{◌≡◌, ◌==◌, drop, if◌then◌else◌, OnOk};
ghost use Rattle.fem_text.specs.Lines.{words_of};
ghost use Rattle.fem_text.specs.Words.{id_at};
ghost use Rattle.mesh_nodes.specs.Nodes.{ids_of};
ghost use Rattle.mesh_nodes.specs.NodeTable.{IsTable, node_list};
ghost use Rattle.msh_read.specs.Numbers.{last_of};
ghost use Rattle.msh_read.specs.Elements.{front_of, node_at, placed_element, element_line};

use crate::MshKind;
use crate::elements::Element;
use crate::numbers::read_numbers;
use crate::shape::Shape;
use fem_fixed::{LineSpec, QuadSpec, read_id};
use fem_text::{TextLine, WordsLeft};
use mesh_nodes::Nodes;

const QUAD_LIMIT: usize = 1 << 20;

/// How a row begins: the type, and how many tags there are.
#[derive(Clone, Copy)]
pub(crate) struct Front {
    pub(crate) shape: Shape,
    pub(crate) tags: u32,
}

/// The element of a row, over these nodes, behind this many quadrilaterals. The words are passed over once.
pub(crate) fn element_line(nodes: &Nodes, quads: usize, line: &TextLine) -> Result<Element, MshKind>
    requires { IsTable nodes.now }
    ensures { result ≡ element_line (ids_of (node_list nodes.now)) quads (words_of line.now.bytes.now) }
{
    let mut words = WordsLeft::of(line);
    let front = read_front(&mut words)?;
    let Some(numbers) = read_numbers(&mut words) else {
        return Err(MshKind::ElementLine);
    };
    if numbers.count != front.tags as u64 + front.shape.corner_count() {
        return Err(MshKind::ElementLine);
    }
    let tag = first_tag(front.tags, numbers.first);
    placed_element(nodes, front.shape, tag, quads, &numbers.last)
}

// The first tag, or 0 without tags.
fn first_tag(tags: u32, first: u32) -> u32
    ensures { result ≡ (if tags == 0 then 0 else first) }
{
    if tags == 0 { 0 } else { first }
}

// Reads the front of a row.
#[tactic(auto, unfolding(crate::specs::Elements::front_of))]
fn read_front(words: &mut WordsLeft) -> Result<Front, MshKind>
    ensures value { result ≡ front_of words.old }
    ensures left { OnOk result (words.new ≡ drop 3 words.old) }
{
    next_id(words)?;
    let number = next_id(words)?;
    let tags = next_id(words)?;
    let shape = Shape::of(number)?;
    Ok(Front { shape, tags })
}

// Reads a word that is to be an id.
fn next_id(words: &mut WordsLeft) -> Result<u32, MshKind>
    ensures value { result ≡ id_at MshKind.ElementLine words.old 0 }
    ensures left { words.new ≡ drop 1 words.old }
{
    match words.next_word() {
        Some(word) => read_id(word).ok_or(MshKind::ElementLine),
        None => Err(MshKind::ElementLine),
    }
}

// The element over nodes of the last of these ids, as many as its type has.
#[tactic(auto, unfolding(crate::specs::Elements::placed_element))]
fn placed_element(
    nodes: &Nodes,
    shape: Shape,
    tag: u32,
    quads: usize,
    last: &[u32; 4],
) -> Result<Element, MshKind>
    requires { IsTable nodes.now }
    ensures { result ≡ placed_element (ids_of (node_list nodes.now)) shape tag quads (last_of shape last.now) }
{
    match shape {
        Shape::Quad => placed_quad(nodes, tag, quads, last),
        Shape::Line => {
            let from = node_at(nodes, last[2])?;
            let to = node_at(nodes, last[3])?;
            Ok(Element::Line(LineSpec {
                id: tag,
                ends: [from, to],
            }))
        }
        Shape::Point => {
            node_at(nodes, last[3])?;
            Ok(Element::Point)
        }
    }
}

#[tactic(auto, unfolding(crate::specs::Elements::placed_element))]
fn placed_quad(
    nodes: &Nodes,
    tag: u32,
    quads: usize,
    corners: &[u32; 4],
) -> Result<Element, MshKind>
    requires { IsTable nodes.now }
    ensures { result ≡ placed_element (ids_of (node_list nodes.now)) Shape.Quad tag quads (last_of Shape.Quad corners.now) }
{
    let a = node_at(nodes, corners[0])?;
    let b = node_at(nodes, corners[1])?;
    let c = node_at(nodes, corners[2])?;
    let d = node_at(nodes, corners[3])?;
    if quads < QUAD_LIMIT {
        Ok(Element::Quad(QuadSpec {
            material: tag,
            corners: [a, b, c, d],
        }))
    } else {
        Err(MshKind::Limit)
    }
}

fn node_at(nodes: &Nodes, id: u32) -> Result<u32, MshKind>
    requires { IsTable nodes.now }
    ensures { result ≡ node_at (ids_of (node_list nodes.now)) id }
{
    nodes.place(id).ok_or(MshKind::UnknownNode)
}
