ghost use Rattle.std.specs.Prelude.{◌≡◌, ◌≤◌, ◌^◌, ℕ, List, length, map, IfOk};
ghost use Rattle.std.specs.List.{range_with_len};
ghost use Rattle.node_ids.specs.NodeIds.{place_of, AreByIds, listed};

use fem_fixed::NoMemory;
use std::alloc::Global;

/// An id, and the position of a node that has it.
pub type IdPlace = (u32, u32);

/// The ids with their positions, sorted by id, and where ids are equal by position.
pub fn sorted_places(alloc: Global, ids: &[u32]) -> Result<Vec<IdPlace>, NoMemory>
    requires { length ids.now ≤ 2 ^ 20 }
    ensures { IfOk result (λ places. AreByIds ids.now places.items) }
{
    let mut places = listed_places(alloc, ids)?;
    places.sort_unstable();
    Ok(places)
}

/// The ids with their positions.
fn listed_places(alloc: Global, ids: &[u32]) -> Result<Vec<IdPlace>, NoMemory>
    requires { length ids.now ≤ 2 ^ 20 }
    ensures { IfOk result (λ places. places.items ≡ listed ids.now (length ids.now)) }
{
    let mut places = Vec::with_capacity(alloc, ids.len())?;
    for (place, id) in ids.iter().enumerate() {
        places.push((*id, place as u32))?;
    }
    Ok(places)
}

/// The first position of an id.
pub fn place_in(places: &[IdPlace], id: u32) -> Option<u32>
    ensures { (ids : List ℕ) → AreByIds ids places.now → result ≡ place_of ids id }
{
    let start = places.partition_point(|entry| entry.0 < id);
    if start >= places.len() {
        return None;
    }
    let entry = places[start];
    if entry.0 != id {
        return None;
    }
    Some(entry.1)
}
