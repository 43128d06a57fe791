ghost use Rattle.std.specs.Prelude.{◌≡◌, ◌≤◌, ◌<◌, ◌^◌, ◌+ℤ◌, ◌*ℤ◌, pos, unsigned_abs};
ghost use Rattle.run_summary.specs.Steps.{no_sum, with_value, IsWithin};

/// A sum of numbers with weights: 1 + k mod 7 for the number that was added after k others.
#[derive(Clone, Copy)]
pub(crate) struct WeightedSum {
    pub(crate) count: u64,
    pub(crate) sum: i128,
}

impl WeightedSum {
    /// The sum of no number.
    pub(crate) fn new() -> WeightedSum
        ensures { result ≡ no_sum }
    {
        WeightedSum { count: 0, sum: 0 }
    }

    /// Adds a number.
    pub(crate) fn add(&mut self, value: i128)
        requires small { unsigned_abs value ≤ 2 ^ 80 }
        requires few { self.old.count < 2 ^ 32 }
        requires within { IsWithin self.old }
        ensures value { self.new ≡ with_value self.old value }
        ensures within { IsWithin self.new }
    {
        self.sum = weigh(self.sum, value, self.count % 7 + 1);
        self.count += 1;
    }
}

// A sum after a number with a weight.
fn weigh(sum: i128, value: i128, weight: u64) -> i128
    requires small { unsigned_abs value ≤ 2 ^ 80 }
    requires few { weight ≤ 7 }
    requires within { unsigned_abs sum ≤ 2 ^ 115 }
    ensures { result ≡ sum +ℤ value *ℤ pos weight }
{
    sum + value * weight as i128
}
