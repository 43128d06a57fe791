ghost use Rattle.std.specs.Prelude.{◌≡◌, ◌<◌, ◌≤◌, ◌++◌, ◌∷◌, [], length, slice_index_or, OnOk, OnErr};
ghost use Rattle.std.specs.List.{concat, between};
ghost use Rattle.sparsity.specs.Cuts.{start_of};

use fem_fixed::NoMemory;
use std::alloc::Global;
use std::marker::Model;

/// Lists of numbers, one behind the other in one array.
#[derive(Drop)]
pub struct Lists {
    items: Vec<u32>,
    ends: Vec<usize>,
}

impl Model for Lists {
    ghost use Rattle.std.specs.Prelude.{ℕ, List, length};
    ghost use Rattle.sparsity.specs.Cuts.{cut, AreEnds};

    ghost Value = { List (List ℕ) };

    ghost view = { λ a. cut a.items.items 0 a.ends.items };

    ghost invariant = { λ a. AreEnds (length a.items.items) 0 a.ends.items };
}

impl Lists {
    /// No lists.
    pub fn new(alloc: Global) -> Lists
        ensures { result ≡ [] }
    {
        Lists {
            items: Vec::new(alloc),
            ends: Vec::new(alloc),
        }
    }

    /// How many lists there are.
    pub fn len(&self) -> usize
        ensures { result ≡ length self.now }
    {
        self.ends.len()
    }

    /// How many numbers all lists have together.
    pub fn total(&self) -> usize
        ensures { result ≡ length (concat self.now) }
    {
        self.items.len()
    }

    /// A list.
    pub fn get(&self, k: usize) -> &[u32]
        requires { k < length self.now }
        ensures { result.now ≡ slice_index_or self.now k [] }
    {
        part(&self.items, start(&self.ends, k), self.ends[k])
    }

    /// Adds a list behind the others. After an error all is as before.
    pub fn push(&mut self, list: &[u32]) -> Result<(), NoMemory>
        ensures ok { OnOk result (self.new ≡ self.old ++ list.now ∷ []) }
        ensures err { OnErr result (self.new ≡ self.old) }
    {
        let total = self.items.len();
        self.items.extend_from_slice(list)?;
        match self.ends.push(self.items.len()) {
            Ok(()) => Ok(()),
            Err(_) => {
                self.items.truncate(total);
                Err(NoMemory)
            }
        }
    }

    /// Adds all lists of others behind these.
    pub fn append(&mut self, others: &Lists) -> Result<(), NoMemory>
        ensures { OnOk result (self.new ≡ self.old ++ others.now) }
    {
        for k in 0..others.len() {
            self.push(others.get(k))?;
        }
        Ok(())
    }
}

/// Where a list starts.
fn start(ends: &[usize], k: usize) -> usize
    requires { k < length ends.now }
    ensures { result ≡ start_of 0 ends.now k }
{
    if k == 0 { 0 } else { ends[k - 1] }
}

/// The items between two places.
fn part(items: &[u32], start: usize, end: usize) -> &[u32]
    requires rising { start ≤ end }
    requires within { end ≤ length items.now }
    ensures { result.now ≡ between start end items.now }
{
    &items[start..end]
}
