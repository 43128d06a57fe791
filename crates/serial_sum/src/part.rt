/// Where a contribution goes in its row.
#[derive(Clone, Copy, Debug, PartialEq, Eq)]
pub enum Target {
    /// The entry of this column.
    Column(u32),
    /// The right side.
    RightSide,
}

/// A value, in units of 2^-32, that is added to an entry of a row.
#[derive(Clone, Copy, Debug, PartialEq, Eq)]
pub struct Contribution {
    pub row: u32,
    pub target: Target,
    pub value: i128,
}
