ghost use Rattle.std.specs.Prelude.{◌≡◌};
ghost use Rattle.matrix_market.specs.Market.{Matrix};

use std::marker::Model;

/// A matrix as a text has it: how many rows and columns it has, and its entries in the order of the text, each with its
/// row and its column from 0. Contracts see the two numbers and the list.
#[derive(Drop)]
pub struct Triples {
    rows: u32,
    columns: u32,
    entries: Vec<(u32, u32, i128)>,
}

impl Model for Triples {
    ghost use Rattle.matrix_market.specs.Market.{Matrix};

    ghost Value = { Matrix };

    ghost view = { λ a. record { rows = a.rows; columns = a.columns; entries = a.entries.items } };
}

impl Triples {
    pub(crate) fn new(rows: u32, columns: u32, entries: Vec<(u32, u32, i128)>) -> Triples
        ensures { result ≡ record { rows = rows; columns = columns; entries = entries.items } }
    {
        Triples {
            rows,
            columns,
            entries,
        }
    }

    /// How many rows there are.
    pub fn rows(&self) -> u32
        ensures { result ≡ self.now.rows }
    {
        self.rows
    }

    /// How many columns there are.
    pub fn columns(&self) -> u32
        ensures { result ≡ self.now.columns }
    {
        self.columns
    }

    /// The entries.
    pub fn entries(&self) -> &[(u32, u32, i128)]
        ensures { result.now ≡ self.now.entries }
    {
        &self.entries
    }

    /// The list of the entries.
    pub fn into_entries(self) -> Vec<(u32, u32, i128)>
        ensures { result.items ≡ self.entries }
    {
        self.entries
    }
}

/// The values of a right side, in the order of the text. Contracts see their list.
#[derive(Drop)]
pub struct Values {
    list: Vec<i128>,
}

impl Model for Values {
    ghost use Rattle.std.specs.Prelude.{List, ℤ};

    ghost Value = { List ℤ };

    ghost view = { λ values. values.list.items };
}

impl Values {
    /// The values.
    pub fn as_slice(&self) -> &[i128]
        ensures { result.now ≡ self.now }
    {
        &self.list
    }
}

impl From<Vec<i128>> for Values {
    ghost from_gives = { λ list values. values ≡ list.items };

    fn from(list: Vec<i128>) -> Values
        ensures { result ≡ list.items }
    {
        Values { list }
    }
}

impl From<Values> for Vec<i128> {
    ghost from_gives = { λ values list. list.items ≡ values };

    fn from(values: Values) -> Vec<i128>
        ensures { result.items ≡ values }
    {
        values.list
    }
}
