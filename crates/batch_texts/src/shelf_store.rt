ghost use Rattle.std.specs.Prelude.{◌≡◌};

use crate::Shelf;
use fem_text::{Store, StoreFault};
use std::alloc::Global;
use std::marker::Model;

/// The texts of a shelf as a store, which hands out copies of them. No call fails: a name may be absent, and memory may
/// run out. Nothing is written there: a write answers that memory ran out.
#[derive(Drop)]
pub struct ShelfStore<'a> {
    shelf: &'a Shelf,
    calls: u64,
}

impl<'a> Model for ShelfStore<'a> {
    ghost use Rattle.fem_text.specs.Memory.{CleanTexts};

    ghost Value = { CleanTexts };

    ghost view = { λ store. record { texts = store.shelf.now; calls = store.calls } };
}

impl<'a> ShelfStore<'a> {
    /// These texts. No call was made yet.
    pub fn over(shelf: &'a Shelf) -> Self
        ensures { result ≡ record { texts = shelf.now; calls = 0 } }
    {
        ShelfStore { shelf, calls: 0 }
    }
}

impl<'a> Store for ShelfStore<'a> {
    ghost use Rattle.std.specs.Prelude.{Some};
    ghost use Rattle.fem_text.specs.Counts.{none_failed};
    ghost use Rattle.fem_text.specs.Memory.{held_of};

    ghost holds = { λ store. Some (held_of store.texts) };

    ghost counts = { λ store. none_failed store.calls };

    fn read(&mut self, alloc: Global, name: &str, limit: u64) -> Result<Vec<u8>, StoreFault> {
        self.calls = self.calls.saturating_add(1);
        let Some(text) = self.shelf.text(name) else {
            return Err(StoreFault::Absent);
        };
        let size = (text.len() as u64).min(limit.saturating_add(1)) as usize;
        text[..size].to_vec(alloc).map_err(|_| StoreFault::NoMemory)
    }

    fn write(&mut self, _alloc: Global, _name: &str, _bytes: &[u8]) -> Result<(), StoreFault> {
        self.calls = self.calls.saturating_add(1);
        Err(StoreFault::NoMemory)
    }
}
