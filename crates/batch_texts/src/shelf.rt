ghost use Rattle.std.specs.Prelude.{◌≡◌, ◌⊎◌, ◌+◌, ◌<◌, ◌≤◌, ◌++◌, ◌∷◌, [], length, false, IfErr, OnOk, OnErr};
ghost use Rattle.std.specs.Option.{option_copied};
ghost use Rattle.fem_text.specs.Memory.{held_of};
ghost use Rattle.batch_texts.specs.Shelf.{shelved, size_of, size_limit, is_shelved, ShelvesText, IsNameFault, after_name};

use fem_fixed::NoMemory;
use fem_text::{Store, StoreFault};
use indexmap::IndexMap;
use std::alloc::Global;
use std::marker::Model;

// The greatest length of a text, and of all texts together.
const SIZE_LIMIT: u64 = 268_435_456;

/// Why the text under a name isn't shelved.
#[derive(Clone, Copy, Debug, PartialEq, Eq)]
pub enum NameFault {
    /// The store tells that there is none.
    Absent,
    /// With it the texts would have more than 268,435,456 bytes.
    Size,
    /// The read failed.
    Failed,
    /// Memory ran out.
    NoMemory,
}

impl From<NoMemory> for NameFault {
    ghost use Rattle.std.specs.Prelude.{◌≡◌};
    ghost use Rattle.batch_texts.specs.declared.shelf.NameFault.TheVariants.{NoMemory};

    ghost from_gives = { λ _ fault. fault ≡ NoMemory };

    fn from(_error: NoMemory) -> NameFault {
        NameFault::NoMemory
    }
}

/// Texts that were read, each under its name. Contracts see them in the order in which they were read.
#[derive(Drop)]
pub struct Shelf {
    texts: IndexMap<String, Vec<u8>>,
    size: u64,
}

impl Model for Shelf {
    ghost use Rattle.std.specs.Prelude.{◌≡◌, ◌≤◌};
    ghost use Rattle.fem_text.specs.Memory.{Named};
    ghost use Rattle.batch_texts.specs.Shelf.{shelved, size_of, size_limit};

    ghost Value = { Named };

    ghost view = { λ shelf. shelved shelf.texts.entries };

    ghost invariant = { λ shelf. (shelf.size ≡ size_of (shelved shelf.texts.entries)) × (shelf.size ≤ size_limit) };
}

impl Shelf {
    /// No texts.
    pub fn new(alloc: Global) -> Shelf
        ensures { result ≡ [] }
    {
        Shelf {
            texts: IndexMap::new(alloc),
            size: 0,
        }
    }

    /// The text under a name, where it was read.
    #[tactic(auto, using(crate::proofs::Shelves::found))]
    pub fn text(&self, name: &str) -> Option<&[u8]>
        ensures { option_copied result ≡ held_of self.now name.now }
    {
        self.texts.get(name).map(|text| text.as_slice())
    }

    /// Reads the text under a name, where it wasn't read yet. After a fault no text was added.
    #[tactic(auto, unfolding(crate::specs::Shelf::size_limit), using(crate::proofs::Shelves::is_there, crate::proofs::Shelves::is_added, crate::proofs::Shelves::is_too_large))]
    pub fn read<S: Store>(
        &mut self,
        alloc: Global,
        name: &str,
        store: &mut S,
    ) -> Result<(), NameFault>
        ensures ok { OnOk result (ShelvesText (S.holds store.old) name.now self.old self.new) }
        ensures err { IfErr result (λ fault. IsNameFault (S.holds store.old) name.now self.old fault) }
        ensures kept { OnErr result (self.new ≡ self.old) }
        ensures same { S.holds store.new ≡ S.holds store.old }
        ensures calls { S.counts store.new ≡ after_name self.old name.now result (S.counts store.old) }
    {
        if self.text(name).is_some() {
            return Ok(());
        }
        match store.read(alloc, name, SIZE_LIMIT) {
            Ok(text) => self.add(alloc, name, text),
            Err(StoreFault::Failed) => Err(NameFault::Failed),
            Err(StoreFault::Absent) => Err(NameFault::Absent),
            Err(StoreFault::NoMemory) => Err(NameFault::NoMemory),
        }
    }

    // Adds the text under a name, where there is room for it.
    #[tactic(auto, unfolding(crate::specs::Shelf::size_limit), using(crate::proofs::Shelves::size_more))]
    fn add(&mut self, alloc: Global, name: &str, text: Vec<u8>) -> Result<(), NameFault>
        requires new { is_shelved self.old name.now ≡ false }
        ensures added { OnOk result (self.new ≡ self.old ++ (name.now, text.items) ∷ []) }
        ensures few { OnOk result (size_of self.old + length text.items ≤ size_limit) }
        ensures err { IfErr result (λ fault. (fault ≡ NameFault.NoMemory) ⊎ ((fault ≡ NameFault.Size) × (size_limit < size_of self.old + length text.items))) }
        ensures kept { OnErr result (self.new ≡ self.old) }
    {
        let length = text.len() as u64;
        if length > SIZE_LIMIT - self.size {
            return Err(NameFault::Size);
        }
        insert_new(alloc, &mut self.texts, name, text)?;
        self.size += length;
        Ok(())
    }
}

// Puts a text under a copy of a name that has none.
fn insert_new(
    alloc: Global,
    texts: &mut IndexMap<String, Vec<u8>>,
    name: &str,
    text: Vec<u8>,
) -> Result<(), NoMemory>
    requires { is_shelved (shelved texts.old.entries) name.now ≡ false }
    ensures ok { OnOk result (shelved texts.new.entries ≡ shelved texts.old.entries ++ (name.now, text.items) ∷ []) }
    ensures err { OnErr result (texts.new.entries ≡ texts.old.entries) }
{
    let key = String::from_str(alloc, name)?;
    texts.insert(key, text)?;
    Ok(())
}
