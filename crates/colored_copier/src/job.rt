//! What a round runs.
ghost use Rattle.std.specs.Prelude.{◌≡◌, ℕ, ◌<◌, List};
ghost use Rattle.colored_copier.specs.Plans.{In};

use crate::turn::{RowTurn, RowWorked};

/// Items that are worked in any order, each with rows of its own: an item's value is worked into a copy object by any
/// thread, and then copied into each of its rows. (The worker and the copier of deal.II's WorkStream, with the copier run
/// in parallel for the cells of one colour.)
pub trait RowJob: Sync {
    /// What working needs besides, one object a thread.
    type Scratch: Send;

    /// Where the value of an item stands until it is copied.
    type Copy: Send;

    /// The value of a row.
    type Row: Send;

    /// The number of items.
    ghost count: { Self → ℕ };

    /// The rows of an item.
    ghost rows_of: { Self → ℕ → List ℕ };

    /// Which scratch objects have room for it: all.
    ghost has_place: { Self → Self.Scratch → Type 0 };

    /// Which copy objects have room for it.
    ghost has_room: { Self → Self.Copy → Type 0 };

    /// Which values fit a row.
    ghost fits: { Self → ℕ → Self.Row → Type 0 };

    /// A copy object stands for the value of an item.
    ghost stands: { Self → ℕ → Self.Copy → Type 0 };

    /// What an item makes of a row's value: of the value, the item and the row.
    ghost row_step: { Self → Self.Row → ℕ → ℕ → Self.Row };

    /// The number of items.
    fn items(&self) -> u64
        ensures { result ≡ count self.now };

    /// The rows of an item, rising.
    fn rows(&self, item: u64) -> &[u32]
        requires { item < count self.now }
        ensures { result.now ≡ rows_of self.now item };

    /// Works the item: whatever the objects held, the copy object then stands for the item's value.
    fn work(&self, turn: RowTurn, scratch: &mut Self::Scratch, copy: &mut Self::Copy) -> RowWorked
        requires { has_place self.now scratch.old × has_room self.now copy.old × (turn < count self.now) }
        ensures item { result ≡ turn }
        ensures value { has_room self.now copy.new × stands self.now turn copy.new };

    /// Copies the item's value into one of its rows.
    fn copy_row(&self, item: u64, row: u32, copy: &Self::Copy, value: &mut Self::Row)
        requires { (item < count self.now) × In row (rows_of self.now item) × stands self.now item copy.now × fits self.now row value.old }
        ensures { value.new ≡ row_step self.now value.old item row };

    /// Every scratch object has room.
    ghost all_have_place: { (j : Self) (s : Self.Scratch) → has_place j s };

    /// A value that fits its row fits it after a step.
    ghost still_fits: { (j : Self) (row : ℕ) (x : Self.Row) (i : ℕ) → fits j row x → fits j row (row_step j x i row) };
}
