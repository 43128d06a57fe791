ghost use Rattle.std.specs.Prelude.{◌≡◌, ◌∷◌, [], map, IfOk, IfErr, IsSome, OnOk};
ghost use Rattle.fem_text.specs.Counts.{after_call};
ghost use Rattle.fem_text.specs.Memory.{held_of};
ghost use Rattle.batch_texts.specs.Shelf.{IsNameFault, is_failed};
ghost use Rattle.batch_texts.specs.Names.{seen_name, read_names, ShelvesNames, StopsAtJob};

use crate::{NameFault, Shelf};
use fem_text::Store;
use std::alloc::Global;

/// The name of a text that is read, and the number of the job that reads it.
#[derive(Clone, Copy, Debug, PartialEq, Eq)]
pub struct JobName<'a> {
    pub job: u32,
    pub name: &'a str,
}

/// Why a text of a job isn't shelved.
#[derive(Clone, Copy, Debug, PartialEq, Eq)]
pub struct JobFault {
    pub job: u32,
    pub fault: NameFault,
}

impl Shelf {
    /// The text under this name alone.
    pub fn of_name<S: Store>(alloc: Global, name: &str, store: &mut S) -> Result<Shelf, NameFault>
        ensures ok { IfOk result (λ shelf. ShelvesNames (S.holds store.old) (name.now ∷ []) [] shelf (S.counts store.old) (S.counts store.new)) }
        ensures there { IfOk result (λ shelf. IsSome (held_of shelf name.now)) }
        ensures err { IfErr result (λ fault. IsNameFault (S.holds store.old) name.now [] fault × (S.counts store.new ≡ after_call (is_failed fault) (S.counts store.old))) }
        ensures same { S.holds store.new ≡ S.holds store.old }
    {
        let mut shelf = Shelf::new(alloc);
        match shelf.read(alloc, name, store) {
            Ok(()) => Ok(shelf),
            Err(fault) => Err(fault),
        }
    }

    /// Reads the texts under these names one after another, up to the first that isn't shelved. A name that was read is not
    /// read again. After a fault the texts before it were added.
    pub fn read_all<S: Store>(
        &mut self,
        alloc: Global,
        reads: &[JobName<'_>],
        store: &mut S,
    ) -> Result<(), JobFault>
        ensures ok { OnOk result (ShelvesNames (S.holds store.old) (read_names (map seen_name reads.now)) self.old self.new (S.counts store.old) (S.counts store.new)) }
        ensures err { IfErr result (λ stopped. StopsAtJob (S.holds store.old) (map seen_name reads.now) self.old self.new (S.counts store.old) (S.counts store.new) stopped.job stopped.fault) }
        ensures same { S.holds store.new ≡ S.holds store.old }
    {
        for read in reads {
            match self.read(alloc, read.name, store) {
                Ok(()) => {}
                Err(fault) => {
                    return Err(JobFault {
                        job: read.job,
                        fault,
                    });
                }
            }
        }
        Ok(())
    }
}
