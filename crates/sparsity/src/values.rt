ghost use Rattle.std.specs.Prelude.{◌≡◌, ◌<◌, length, pos, replicate, slice_index_or, slice_set, IfOk};

use fem_fixed::NoMemory;
use std::alloc::Global;
use std::marker::Model;

/// The values of a row, one for each of its columns, in units of 2^-32. Contracts see the list of the values, which
/// are written one at a time.
#[derive(Drop)]
pub struct RowValues {
    items: Vec<i128>,
}

impl Model for RowValues {
    ghost use Rattle.std.specs.Prelude.{List, ℤ};

    ghost Value = { List ℤ };

    ghost view = { λ values. values.items.items };
}

impl RowValues {
    /// This many zeros.
    pub fn zero(alloc: Global, count: usize) -> Result<RowValues, NoMemory>
        ensures { IfOk result (λ values. values ≡ replicate count (pos 0)) }
    {
        Ok(RowValues {
            items: vec![in alloc; 0; count]?,
        })
    }

    /// How many values there are.
    pub fn len(&self) -> usize
        ensures { result ≡ length self.now }
    {
        self.items.len()
    }

    /// The value at a place.
    pub fn get(&self, place: usize) -> i128
        requires { place < length self.now }
        ensures { result ≡ slice_index_or self.now place (pos 0) }
    {
        self.items[place]
    }

    /// Writes the value at a place.
    pub fn set(&mut self, place: usize, value: i128)
        requires { place < length self.old }
        ensures { self.new ≡ slice_set self.old place value }
    {
        self.items[place] = value;
    }

    /// All values.
    pub fn as_slice(&self) -> &[i128]
        ensures { result.now ≡ self.now }
    {
        &self.items
    }
}

impl From<Vec<i128>> for RowValues {
    ghost from_gives = { λ items values. values ≡ items.items };

    fn from(items: Vec<i128>) -> RowValues
        ensures { result ≡ items.items }
    {
        RowValues { items }
    }
}

impl From<RowValues> for Vec<i128> {
    ghost from_gives = { λ values items. items.items ≡ values };

    fn from(values: RowValues) -> Vec<i128>
        ensures { result.items ≡ values }
    {
        values.items
    }
}
