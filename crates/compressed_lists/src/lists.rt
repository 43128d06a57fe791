ghost use Rattle.std.specs.Prelude.{◌≡◌, ◌<◌, ◌≤◌, ◌++◌, ◌∷◌, [], length, slice_index_or, OnOk, OnErr};
ghost use Rattle.std.specs.List.{between};
ghost use Rattle.compressed_lists.specs.Cuts.{start_of};

use fem_fixed::NoMemory;
use std::alloc::Global;
use std::marker::Model;

/// Lists, one behind the other in one array. Contracts see a list of lists.
#[derive(Drop)]
pub struct Lists<T> {
    items: Vec<T>,
    ends: Vec<usize>,
}

impl<T> Model for Lists<T> {
    ghost use Rattle.std.specs.Prelude.{ℕ, List, length};
    ghost use Rattle.compressed_lists.specs.Cuts.{cut, AreEnds};

    ghost Value = { List (List T) };

    ghost view = { λ a. cut a.items.items 0 a.ends.items };

    ghost invariant = { λ a. AreEnds (length a.items.items) 0 a.ends.items };
}

impl<T: Copy> Lists<T> {
    /// No lists.
    pub fn new(alloc: Global) -> Lists<T>
        ensures { result ≡ [] }
    {
        Lists {
            items: Vec::new(alloc),
            ends: Vec::new(alloc),
        }
    }

    /// How many lists there are.
    pub fn len(&self) -> usize
        ensures { result ≡ length self.now }
    {
        self.ends.len()
    }

    /// A list.
    pub fn get(&self, k: usize) -> &[T]
        requires { k < length self.now }
        ensures { result.now ≡ slice_index_or self.now k [] }
    {
        part(&self.items, start(&self.ends, k), self.ends[k])
    }

    /// Adds a list behind the others. After an error all is as before.
    pub fn push(&mut self, list: &[T]) -> Result<(), NoMemory>
        ensures ok { OnOk result (self.new ≡ self.old ++ list.now ∷ []) }
        ensures err { OnErr result (self.new ≡ self.old) }
    {
        let total = self.items.len();
        self.items.extend_from_slice(list)?;
        match self.ends.push(self.items.len()) {
            Ok(()) => Ok(()),
            Err(_) => {
                self.items.truncate(total);
                Err(NoMemory)
            }
        }
    }
}

/// Where a list starts.
fn start(ends: &[usize], k: usize) -> usize
    requires { k < length ends.now }
    ensures { result ≡ start_of 0 ends.now k }
{
    if k == 0 { 0 } else { ends[k - 1] }
}

/// The items between two places.
fn part<T>(items: &[T], start: usize, end: usize) -> &[T]
    requires rising { start ≤ end }
    requires within { end ≤ length items.now }
    ensures { result.now ≡ between start end items.now }
{
    &items[start..end]
}
