ghost use Rattle.std.specs.Prelude.{◌≡◌, ◌↔◌, ◌⊎◌, ◌+◌, ◌≤◌, length, IfOk, OnOk, OnErr, IsErrOf, Some, []};
ghost use Rattle.std.specs.Option.{option_copied};
ghost use Rattle.fem_text.specs.Outside.{Reads, Writes, WritesPrefix, IsAbsent, written};
ghost use Rattle.fem_text.specs.Counts.{one_more, after_call, none_failed};
ghost use Rattle.fem_text.specs.Store.{has_failed};
ghost use Rattle.fem_text.specs.Memory.{held_of};

use crate::held_texts::{no_entries, put_copy, read_copy, text_of};
use crate::{Store, StoreFault};
use fem_fixed::NoMemory;
use std::alloc::Global;
use std::collections::BTreeMap;
use std::marker::Model;

/// Texts in memory, under their names, where no call fails: a name may be absent, and memory may run out.
#[derive(Drop)]
pub struct CleanStore {
    alloc: Global,
    texts: BTreeMap<String, Vec<u8>>,
    calls: u64,
}

impl Model for CleanStore {
    ghost use Rattle.fem_text.specs.Memory.{CleanTexts, listed};

    ghost Value = { CleanTexts };

    ghost view = { λ store. record { texts = listed store.texts; calls = store.calls } };
}

impl CleanStore {
    /// An empty store. No call was made yet.
    pub fn new(alloc: Global) -> Self
        ensures { result ≡ record { texts = []; calls = 0 } }
    {
        CleanStore {
            alloc,
            texts: no_entries(alloc),
            calls: 0,
        }
    }

    /// Places a text under a name, in place of what stood there. It is no write, and is not counted.
    pub fn hold(&mut self, name: &str, bytes: &[u8]) -> Result<(), NoMemory>
        ensures ok { OnOk result (held_of self.new.texts ≡ written name.now bytes.now (held_of self.old.texts)) }
        ensures err { OnErr result (self.new.texts ≡ self.old.texts) }
        ensures rest { self.new ≡ record self.old { texts = self.new.texts } }
    {
        put_copy(self.alloc, &mut self.texts, name, bytes)
    }

    /// The text under a name, where it is held.
    pub fn held(&self, name: &str) -> Option<&[u8]>
        ensures { option_copied result ≡ held_of self.now.texts name.now }
    {
        text_of(&self.texts, name)
    }
}

impl Store for CleanStore {
    ghost holds = { λ store. Some (held_of store.texts) };

    ghost counts = { λ store. none_failed store.calls };

    fn read(&mut self, alloc: Global, name: &str, limit: u64) -> Result<Vec<u8>, StoreFault>
        ensures bytes { IfOk result (λ bytes. Reads (Some (held_of self.old.texts)) name.now limit bytes.items) }
        ensures cut { IfOk result (λ bytes. length bytes.items ≤ limit + 1) }
        ensures same { held_of self.new.texts ≡ held_of self.old.texts }
        ensures absent { IsErrOf result StoreFault.Absent ↔ IsAbsent (Some (held_of self.old.texts)) name.now }
        ensures counted { none_failed self.new.calls ≡ after_call (has_failed result) (none_failed self.old.calls) }
        ensures never_fails { IsErrOf result StoreFault.Failed → ⊥ }
        ensures steps { self.new ≡ record self.old { calls = one_more self.old.calls } }
    {
        self.calls = self.calls.saturating_add(1);
        read_copy(alloc, &self.texts, name, limit)
    }

    fn write(&mut self, alloc: Global, name: &str, bytes: &[u8]) -> Result<(), StoreFault>
        ensures ok { OnOk result (Writes (Some (held_of self.old.texts)) (Some (held_of self.new.texts)) name.now bytes.now) }
        ensures err { OnErr result (self.new.texts ≡ self.old.texts) }
        ensures never_absent { IsErrOf result StoreFault.Absent → ⊥ }
        ensures counted { none_failed self.new.calls ≡ after_call (has_failed result) (none_failed self.old.calls) }
        ensures never_fails { IsErrOf result StoreFault.Failed → ⊥ }
        ensures steps { self.new ≡ record self.old { texts = self.new.texts; calls = one_more self.old.calls } }
    {
        self.calls = self.calls.saturating_add(1);
        put_copy(alloc, &mut self.texts, name, bytes).map_err(|_| StoreFault::NoMemory)
    }
}
