ghost use Rattle.std.specs.Prelude.{◌≡◌, IsOk, None};
ghost use Rattle.fem_text.specs.Counts.{one_more, none_failed};

use crate::{Failed, Sink};
use std::marker::Model;

/// Takes all bytes, and does not tell what it took. No put fails. Contracts see how many puts were made.
#[derive(Drop)]
pub struct DropSink {
    puts: u64,
}

impl Model for DropSink {
    ghost use Rattle.std.specs.Prelude.{ℕ};

    ghost Value = { ℕ };

    ghost view = { λ sink. sink.puts };
}

impl DropSink {
    /// No put was made yet.
    pub fn new() -> Self
        ensures { result ≡ 0 }
    {
        DropSink { puts: 0 }
    }
}

impl Sink for DropSink {
    ghost taken = { λ _. None };

    ghost counts = { λ puts. none_failed puts };

    fn put(&mut self, _bytes: &[u8]) -> Result<(), Failed>
        ensures well { IsOk result }
        ensures steps { self.new ≡ one_more self.old }
    {
        self.puts = self.puts.saturating_add(1);
        Ok(())
    }
}
