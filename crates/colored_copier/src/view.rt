//! What the seat of a pass knows.

/// What a pass is doing.
pub enum Phase {
    /// It has claimed nothing.
    Fresh,
    /// It has claimed this item.
    Claimed(u64),
    /// It found this number, past the last item.
    Over(u64),
}

/// What a pass knows. No value of it is made.
pub struct View<X> {
    /// How many passes it stands for: 1, but while the passes are dealt or gathered.
    pub parts: u64,
    /// How many numbers past the last item these passes have found.
    pub overs: u64,
    pub number: u64,
    pub phase: Phase,
    /// None where the pass was joined into another.
    pub key: Option<X>,
}
