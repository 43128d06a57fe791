ghost use Rattle.std.specs.Prelude.{◌≡◌, length, IfOk};

use crate::local::LocalSystem;
use fem_fixed::NoMemory;
use std::alloc::Global;

/// The greatest number of visits of a cell: of itself, and of two parts of each of its four faces.
const MOST_VISITS: usize = 9;

/// The local systems of the visits of a cell, in their order: the first of the list, as many as are used. There is room for
/// those of every cell, of either degree.
#[derive(Drop)]
pub struct Systems {
    pub list: Vec<LocalSystem>,
    pub used: usize,
    ghost room: { length list.items ≡ 9 },
}

impl Systems {
    /// No local systems.
    pub fn new(alloc: Global) -> Result<Systems, NoMemory>
        ensures { IfOk result (λ systems. systems.used ≡ 0) }
    {
        Ok(Systems {
            list: vec![in alloc; LocalSystem::empty(); MOST_VISITS]?,
            used: 0,
        })
    }
}
