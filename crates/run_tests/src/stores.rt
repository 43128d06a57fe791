// A store of long texts, and one without memory.
ghost use Rattle.std.specs.Prelude.{◌+◌, ◌≤◌, length, None, IfOk};

use fem_text::{Counts, Store, StoreFault};
use std::alloc::{AllocError, Global};

// Each name has a text of blanks that is longer than any limit. What it holds isn't told.
#[derive(Drop)]
pub(crate) struct Blanks {
    counts: Counts,
}

impl Blanks {
    pub(crate) fn new() -> Self {
        Blanks {
            counts: Counts::new(),
        }
    }
}

// One blank more than the limit.
fn long_text(alloc: Global, limit: u64) -> Result<Vec<u8>, AllocError>
    ensures { IfOk result (λ text. length text.items ≤ limit + 1) }
{
    let size = limit.saturating_add(1) as usize;
    let mut text = Vec::with_capacity(alloc, size.saturating_add(4096))?;
    for _ in 0..limit / 4096 + 1 {
        text.extend_from_slice(&[b' '; 4096])?;
    }
    text.truncate(size);
    Ok(text)
}

impl Store for Blanks {
    ghost holds = { λ _. None };

    ghost counts = { λ store. store.counts };

    fn read(&mut self, alloc: Global, _name: &str, limit: u64) -> Result<Vec<u8>, StoreFault> {
        self.counts.count(false);
        long_text(alloc, limit).map_err(|_| StoreFault::NoMemory)
    }

    fn write(&mut self, _alloc: Global, _name: &str, _bytes: &[u8]) -> Result<(), StoreFault> {
        self.counts.count(false);
        Ok(())
    }
}

// No memory is left for any text. What it holds isn't told.
#[derive(Drop)]
pub(crate) struct Poor {
    counts: Counts,
}

impl Poor {
    pub(crate) fn new() -> Self {
        Poor {
            counts: Counts::new(),
        }
    }
}

impl Store for Poor {
    ghost holds = { λ _. None };

    ghost counts = { λ store. store.counts };

    fn read(&mut self, _alloc: Global, _name: &str, _limit: u64) -> Result<Vec<u8>, StoreFault> {
        self.counts.count(false);
        Err(StoreFault::NoMemory)
    }

    fn write(&mut self, _alloc: Global, _name: &str, _bytes: &[u8]) -> Result<(), StoreFault> {
        self.counts.count(false);
        Ok(())
    }
}
