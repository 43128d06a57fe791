ghost use Rattle.std.specs.Prelude.{◌≡◌, ◌==◌, ℕ, Some, None, OnOk, IfOk, if◌then◌else◌};
ghost use Rattle.std.specs.Ordering.{nat_cmp};
ghost use Rattle.std.specs.BTreeMap.{get};
ghost use Rattle.mesh_nodes.specs.Places.{counted_place, place_in};

use fem_fixed::NoMemory;
use std::alloc::Global;
use std::collections::BTreeMap;

/// The positions of ids.
#[derive(Drop)]
pub enum Places {
    /// The ids from 1 up to this one have the positions from 0 on, and nothing is stored.
    Counted(u32),
    /// Each id has the position that is stored with it.
    Mapped(BTreeMap<u32, u32>),
}

impl Places {
    /// No positions.
    pub fn new() -> Self
        ensures { (id : ℕ) → place_in result id ≡ None }
    {
        Places::Counted(0)
    }

    /// The position of an id, where it has one.
    pub fn get(&self, id: u32) -> Option<u32>
        ensures { result ≡ place_in self.now id }
    {
        match self {
            Places::Counted(last) => counted_place(*last, id),
            Places::Mapped(map) => map.get(&id).copied(),
        }
    }

    /// Gives an id a position. The map is made at the first id that doesn't go on counting. An error says that memory ran
    /// out.
    pub fn insert(&mut self, alloc: Global, id: u32, place: u32) -> Result<(), NoMemory>
        ensures { OnOk result ((other : ℕ) → place_in self.new other ≡ (if id == other then Some place else place_in self.old other)) }
    {
        match self {
            Places::Counted(last) if place == *last && id.checked_sub(1) == Some(place) => {
                *last = id;
            }
            Places::Counted(last) => {
                let mut map = counted_map(alloc, *last)?;
                map.insert(id, place)?;
                *self = Places::Mapped(map);
            }
            Places::Mapped(map) => {
                map.insert(id, place)?;
            }
        }
        Ok(())
    }
}

/// The position of an id among those that count from 1 up to the last.
fn counted_place(last: u32, id: u32) -> Option<u32>
    ensures { result ≡ counted_place last id }
{
    if id >= 1 && id <= last {
        return Some(id - 1);
    }
    None
}

/// The same positions in a map.
fn counted_map(alloc: Global, last: u32) -> Result<BTreeMap<u32, u32>, NoMemory>
    ensures { IfOk result (λ map. (id : ℕ) → get nat_cmp map id ≡ counted_place last id) }
{
    let mut map = BTreeMap::new(alloc);
    for place in 0..last {
        map.insert(place + 1, place)?;
    }
    Ok(map)
}
