ghost use Rattle.std.specs.Prelude.{◌≡◌};
ghost use Rattle.fem_text.specs.Counts.{no_calls, after_call};

/// What a store or a sink counts of its calls. A count that stands at the end of its type stays there.
#[derive(Clone, Copy, Debug, PartialEq, Eq)]
pub struct Counts {
    /// How many calls were made.
    pub calls: u64,
    /// How many of them failed.
    pub faults: u64,
    /// Whether the last one failed.
    pub failed_last: bool,
}

impl Counts {
    /// No call was made yet.
    pub fn new() -> Self
        ensures { result ≡ no_calls }
    {
        Counts {
            calls: 0,
            faults: 0,
            failed_last: false,
        }
    }

    /// Counts a call that failed or didn't.
    pub fn count(&mut self, failed: bool)
        ensures { self.new ≡ after_call failed self.old }
    {
        self.calls = self.calls.saturating_add(1);
        if failed {
            self.faults = self.faults.saturating_add(1);
        }
        self.failed_last = failed;
    }
}
