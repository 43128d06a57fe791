use fem_fixed::NoMemory;
use fem_text::TextFault;

/// What is wrong with a text in the Matrix Market exchange format.
#[derive(Clone, Copy, Debug, PartialEq, Eq)]
pub enum MarketKind {
    /// Line 1 isn't the banner, or there is no line 1.
    Banner = 1,
    /// The line in the place of the size line hasn't its shape: two ids and a count of at most twenty digits and of at
    /// most 33,554,432 for a matrix, an id and the word `1` for a right side.
    Size = 2,
    /// An entry line hasn't three words, or one for a right side; an index is no id, is 0 or is above its size; a value
    /// isn't an optional `-` and 1 to 39 digits in the range of `i128`; or a line that isn't blank follows the last
    /// entry.
    Entry = 3,
    /// The text ends before the size line or before an entry line that the size line counts. The line of the fault is
    /// the number of lines plus one.
    TooFew = 4,
    /// Memory ran out. It says nothing of the text, and its line is 0.
    NoMemory = 5,
}

/// The first fault of a text, and the number of its line, counted from 1.
pub type MarketFault = TextFault<MarketKind>;

impl From<NoMemory> for MarketKind {
    ghost use Rattle.std.specs.Prelude.{◌≡◌};
    ghost use Rattle.matrix_market.specs.declared.fault.MarketKind.TheVariants.{NoMemory};

    ghost from_gives = { λ _ kind. kind ≡ NoMemory };

    fn from(_error: NoMemory) -> MarketKind {
        MarketKind::NoMemory
    }
}
