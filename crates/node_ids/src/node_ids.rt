ghost use Rattle.std.specs.Prelude.{◌≡◌, ◌≤◌, ◌^◌, ◌↔◌, length, IsTrue, IfOk};
ghost use Rattle.node_ids.specs.NodeIds.{place_of, counted_place as counted_place_of, AreCounted};

use crate::sorted::{IdPlace, place_in, sorted_places};
use fem_fixed::NoMemory;
use std::alloc::Global;
use std::marker::Model;

/// The ids of the nodes of a mesh text. Contracts see the list of ids, in the order of the text.
#[derive(Drop)]
pub struct NodeIds<'a> {
    ids: &'a [u32],
    /// The places by id; none where the ids count from 1, and the place is known from the id.
    places: Option<Vec<IdPlace>>,
}

impl<'a> Model for NodeIds<'a> {
    ghost use Rattle.std.specs.Prelude.{ℕ, List, MatchOption};
    ghost use Rattle.node_ids.specs.NodeIds.{AreCounted, AreByIds};

    ghost Value = { List ℕ };

    ghost view = { λ a. a.ids.now };

    ghost invariant = { λ a. MatchOption a.places (AreCounted a.ids.now) (λ places. AreByIds a.ids.now places.items) };
}

impl<'a> NodeIds<'a> {
    /// Sorts the ids, where they don't count from 1.
    pub fn new(alloc: Global, ids: &'a [u32]) -> Result<NodeIds<'a>, NoMemory>
        requires { length ids.now ≤ 2 ^ 20 }
        ensures { IfOk result (λ made. made ≡ ids.now) }
    {
        if are_counted(ids) {
            return Ok(NodeIds { ids, places: None });
        }
        let places = sorted_places(alloc, ids)?;
        Ok(NodeIds {
            ids,
            places: Some(places),
        })
    }

    /// The position of the first node with an id, where there is one.
    pub fn place_of(&self, id: u32) -> Option<u32>
        ensures { result ≡ place_of self.now id }
    {
        match &self.places {
            None => counted_place(self.ids.len(), id),
            Some(places) => place_in(places, id),
        }
    }
}

/// Whether the ids count from 1.
fn are_counted(ids: &[u32]) -> bool
    requires { length ids.now ≤ 2 ^ 20 }
    ensures { IsTrue result → AreCounted ids.now }
{
    for (place, id) in ids.iter().enumerate() {
        if *id as usize != place + 1 {
            return false;
        }
    }
    true
}

/// The position of an id among ids that count from 1.
fn counted_place(count: usize, id: u32) -> Option<u32>
    ensures { result ≡ counted_place_of count id }
{
    if id >= 1 && id as usize <= count {
        return Some(id - 1);
    }
    None
}
