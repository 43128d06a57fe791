ghost use Rattle.std.specs.Prelude.{◌≡◌, ◌↔◌, ◌+◌, ◌≤◌, length, IfOk, OnOk, OnErr, IsErrOf, Some, []};
ghost use Rattle.std.specs.Option.{option_copied};
ghost use Rattle.fem_text.specs.Outside.{Reads, IsAbsent, written};
ghost use Rattle.fem_text.specs.Memory.{held_of, listed};

use crate::StoreFault;
use fem_fixed::NoMemory;
use std::alloc::Global;
use std::collections::BTreeMap;

/// No texts.
pub(crate) fn no_entries(alloc: Global) -> BTreeMap<String, Vec<u8>>
    ensures { listed result ≡ [] }
{
    BTreeMap::new(alloc)
}

/// The text under a name.
pub(crate) fn text_of<'a>(texts: &'a BTreeMap<String, Vec<u8>>, name: &str) -> Option<&'a [u8]>
    ensures { option_copied result ≡ held_of (listed texts.now) name.now }
{
    texts.get(name).map(|text| text.as_slice())
}

/// Puts a copy of the bytes under a copy of the name.
pub(crate) fn put_copy(
    alloc: Global,
    texts: &mut BTreeMap<String, Vec<u8>>,
    name: &str,
    bytes: &[u8],
) -> Result<(), NoMemory>
    ensures ok { OnOk result (held_of (listed texts.new) ≡ written name.now bytes.now (held_of (listed texts.old))) }
    ensures err { OnErr result (listed texts.new ≡ listed texts.old) }
{
    let key = String::from_str(alloc, name)?;
    let text = bytes.to_vec(alloc)?;
    texts.insert(key, text)?;
    Ok(())
}

/// A copy of the text under a name, cut after limit + 1 bytes.
pub(crate) fn read_copy(
    alloc: Global,
    texts: &BTreeMap<String, Vec<u8>>,
    name: &str,
    limit: u64,
) -> Result<Vec<u8>, StoreFault>
    ensures bytes { IfOk result (λ bytes. Reads (Some (held_of (listed texts.now))) name.now limit bytes.items) }
    ensures cut { IfOk result (λ bytes. length bytes.items ≤ limit + 1) }
    ensures absent { IsErrOf result StoreFault.Absent ↔ IsAbsent (Some (held_of (listed texts.now))) name.now }
    ensures never_fails { IsErrOf result StoreFault.Failed → ⊥ }
{
    let Some(text) = text_of(texts, name) else {
        return Err(StoreFault::Absent);
    };
    let size = (text.len() as u64).min(limit.saturating_add(1)) as usize;
    text[..size].to_vec(alloc).map_err(|_| StoreFault::NoMemory)
}
