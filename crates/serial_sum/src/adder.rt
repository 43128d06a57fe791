//! How contributions are added.
ghost use Rattle.std.specs.Prelude.{◌≡◌, ℕ, Bool, true};
ghost use Rattle.std.specs.Bool.{OnFalse};
ghost use Rattle.serial_sum.specs.Adders.{StayOut};
ghost use Rattle.serial_sum.specs.declared.part.Contribution.{Contribution as Given};

use crate::part::Contribution;

/// A way of adding contributions, one after another: to all rows of a system, or to one of them alone.
///
/// What has been told so far comes in and goes out, so that lists are added one behind the other.
pub trait Adder {
    /// What contributions are added to.
    type Sum;

    /// What is told of the additions so far.
    type Told;

    /// Which sums fit it.
    ghost fits: { Self → Self.Sum → Type 0 };

    /// Which contributions may be added.
    ghost may_add: { Self → Given → Type 0 };

    /// Whether contributions to a row change anything.
    ghost wanted: { Self → ℕ → Bool };

    /// The sum, and what is told, after a contribution.
    ghost step: { Self → Self.Sum × Self.Told → Given → Self.Sum × Self.Told };

    /// Whether contributions to a row change anything.
    fn wants(&self, row: u32) -> bool
        ensures value { result ≡ wanted self.now row }
        ensures others { OnFalse result (StayOut (step self.now) row) };

    /// Adds a contribution to a row that is wanted.
    fn add(&self, sum: &mut Self::Sum, told: Self::Told, given: Contribution) -> Self::Told
        requires { fits self.now sum.old × may_add self.now given × (wanted self.now given.row ≡ true) }
        ensures step { ◌≡◌ {A = Self.Sum × Self.Told} (sum.new, result) (step self.now (sum.old, told) given) }
        ensures fits { fits self.now sum.new };
}
