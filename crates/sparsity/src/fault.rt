use fem_fixed::NoMemory;

/// Why a pattern can't be made.
#[derive(Clone, Copy, Debug, PartialEq, Eq)]
pub enum PatternFault {
    /// There are more than 33,554,432 pairs.
    Limit = 1,
    /// Memory ran out. It is the one free answer: no clause ties it to a refused allocation.
    NoMemory = 2,
}

impl From<NoMemory> for PatternFault {
    ghost use Rattle.std.specs.Prelude.{◌≡◌};
    ghost use Rattle.sparsity.specs.declared.fault.PatternFault.TheVariants.{NoMemory as Memory};

    ghost from_gives = { λ _ e. e ≡ Memory };

    fn from(_error: NoMemory) -> PatternFault {
        PatternFault::NoMemory
    }
}
