//! The right to work an item, once, and the sign that it is worked.
ghost use Rattle.std.specs.Prelude.{◌≡◌};

use std::marker::Model;

/// The right to work an item once. It is given only by `Round::claim` and is spent by `done`. Contracts see the item.
pub struct RowTurn {
    item: u64,
}

impl Model for RowTurn {
    ghost use Rattle.std.specs.Prelude.{ℕ};

    ghost Value = { ℕ };

    ghost view = { λ t. t.item };
}

/// The sign that an item is worked, which `Round::write_rows` takes. It is given only by `RowTurn::done`. Contracts see the item.
pub struct RowWorked {
    item: u64,
}

impl Model for RowWorked {
    ghost use Rattle.std.specs.Prelude.{ℕ};

    ghost Value = { ℕ };

    ghost view = { λ t. t.item };
}

impl RowTurn {
    pub(crate) fn of(item: u64) -> RowTurn
        ensures { result ≡ item }
    {
        RowTurn { item }
    }

    /// The item, counted from 0.
    pub fn item(&self) -> u64
        ensures { result ≡ self.now }
    {
        self.item
    }

    /// The item is worked.
    pub fn done(self) -> RowWorked
        ensures { result ≡ self }
    {
        let RowTurn { item } = self;
        RowWorked { item }
    }
}

impl RowWorked {
    /// The item, counted from 0.
    pub fn item(&self) -> u64
        ensures { result ≡ self.now }
    {
        self.item
    }

    pub(crate) fn spend(self) {
        let RowWorked { item: _ } = self;
    }
}
