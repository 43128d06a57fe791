ghost use Rattle.std.specs.Prelude.{◌≡◌, ◌<◌, ◌^◌, ◌++◌, ◌∷◌, [], length, None, OnOk, IfOk};
ghost use Rattle.mesh_nodes.specs.Nodes.{place_of, ids_of, node_line};
ghost use Rattle.mesh_nodes.specs.NodeTable.{IsTable, node_list};

use crate::{Places, coordinate_at, height_at};
use fem_fixed::{NoMemory, Point};
use fem_text::{LineWords, exactly, id_at};
use std::alloc::Global;

/// A node: its id, and its point, in ticks of 2^-16.
#[derive(Clone, Copy)]
pub struct Node {
    pub id: u32,
    pub point: Point,
}

/// The nodes in file order, and the position of each id.
#[derive(Drop)]
pub struct Nodes {
    pub ids: Vec<u32>,
    pub points: Vec<Point>,
    pub places: Places,
}

impl Nodes {
    /// No nodes.
    pub fn new(alloc: Global) -> Self
        ensures table { IsTable result }
        ensures nodes { node_list result ≡ [] }
    {
        Nodes {
            ids: Vec::new(alloc),
            points: Vec::new(alloc),
            places: Places::new(),
        }
    }

    /// The position of the node with an id, counted from 0, where there is one.
    pub fn place(&self, id: u32) -> Option<u32>
        requires { IsTable self.now }
        ensures { result ≡ place_of (ids_of (node_list self.now)) id }
    {
        self.places.get(id)
    }

    /// Adds a node with a new id behind the others. An error says that memory ran out.
    pub fn push(&mut self, alloc: Global, node: Node) -> Result<(), NoMemory>
        requires table { IsTable self.old }
        requires fresh { place_of (ids_of (node_list self.old)) node.id ≡ None }
        requires room { length (node_list self.old) < 2 ^ 20 }
        ensures table { OnOk result (IsTable self.new) }
        ensures nodes { OnOk result (node_list self.new ≡ node_list self.old ++ node ∷ []) }
    {
        let place = self.ids.len() as u32;
        self.places.insert(alloc, node.id, place)?;
        self.ids.push(node.id)?;
        self.points.push(node.point)?;
        Ok(())
    }
}

/// The node of a line `id x y z`, behind these nodes. The kinds of fault are those of a line of another shape, of a
/// coordinate that is none, and of an id that an earlier line has.
#[tactic(auto, unfolding(crate::specs::Nodes::node_line))]
pub fn node_line<K: Copy>(
    shape: K,
    number: K,
    repeated: K,
    nodes: &Nodes,
    words: &LineWords,
) -> Result<Node, K>
    requires { IsTable nodes.now }
    ensures value { result ≡ node_line shape number repeated (node_list nodes.now) words.now }
    ensures fresh { IfOk result (λ node. place_of (ids_of (node_list nodes.now)) node.id ≡ None) }
{
    exactly(4, shape, words)?;
    let id = id_at(shape, words, 0)?;
    let x = coordinate_at(number, words, 1)?;
    let y = coordinate_at(number, words, 2)?;
    height_at(number, words, 3)?;
    if nodes.place(id).is_some() {
        return Err(repeated);
    }
    Ok(Node {
        id,
        point: Point { x, y },
    })
}
