ghost use Rattle.std.specs.Prelude.{◌≡◌, ◌+◌, ◌≤◌, length, IfOk, OnOk, OnErr, IsErrOf, vec_len};
ghost use Rattle.std.specs.Io.KnownBytes.{Appends, Consumes};
ghost use Rattle.fem_text.specs.Outside.{GaveUpTo};
ghost use Rattle.fem_text.specs.Streams.{ConsumesUpTo, AppendsPrefix};

use crate::{Failed, StoreFault};
use std::alloc::{AllocError, Global};
use std::io::{Read, Stderr, Stdout, Write};

/// A runtime with streams for output and for diagnostics.
pub trait Streams {
    type Output: Write + Drop;

    type Diagnostics: Write + Drop;

    /// Standard output.
    fn output(&self) -> Self::Output;

    /// Standard error.
    fn diagnostics(&self) -> Self::Diagnostics;
}

impl Streams for HostRuntime {
    type Output = Stdout;

    type Diagnostics = Stderr;

    fn output(&self) -> Stdout {
        self.stdout()
    }

    fn diagnostics(&self) -> Stderr {
        self.stderr()
    }
}

// How many bytes one read is asked for.
const PIECE: usize = 65536;

/// The bytes of a source to its end, cut after limit + 1 bytes. They were consumed, and no byte more; where a read
/// fails or memory runs out, at most limit + 1 bytes were.
pub(crate) fn read_up_to<S: Read>(
    alloc: Global,
    source: &mut S,
    limit: u64,
) -> Result<Vec<u8>, StoreFault>
    ensures bytes { IfOk result (λ bytes. GaveUpTo (S.remaining source.old) limit bytes.items) }
    ensures consumed { IfOk result (λ bytes. Consumes (S.remaining source.old) (S.remaining source.new) bytes.items) }
    ensures most { ConsumesUpTo (S.remaining source.old) (S.remaining source.new) (limit + 1) }
    ensures cut { IfOk result (λ bytes. length bytes.items ≤ limit + 1) }
    ensures never_absent { IsErrOf result StoreFault.Absent → ⊥ }
{
    let mut bytes = Vec::new(alloc);
    let Ok(mut buffer) = zeros(alloc) else {
        return Err(StoreFault::NoMemory);
    };
    while bytes.len() as u64 <= limit {
        let room = (limit - bytes.len() as u64).min(PIECE as u64 - 1) as usize + 1;
        let piece = &mut buffer[..room];
        let Ok(count) = source.read(piece) else {
            return Err(StoreFault::Failed);
        };
        if count == 0 {
            return Ok(bytes);
        }
        if bytes.extend_from_slice(&piece[..count]).is_err() {
            return Err(StoreFault::NoMemory);
        }
    }
    Ok(bytes)
}

fn zeros(alloc: Global) -> Result<Vec<u8>, AllocError>
    ensures { IfOk result (λ buffer. vec_len buffer ≡ PIECE) }
{
    vec![in alloc; 0u8; PIECE]
}

/// Writes all the bytes. Where a write fails, or takes nothing, a prefix of them was written.
pub(crate) fn write_all<W: Write>(target: &mut W, bytes: &[u8]) -> Result<(), Failed>
    ensures ok { OnOk result (Appends (W.contents target.old) (W.contents target.new) bytes.now) }
    ensures err { OnErr result (AppendsPrefix (W.contents target.old) (W.contents target.new) bytes.now) }
{
    let mut sent = 0;
    while sent < bytes.len() {
        match target.write(&bytes[sent..]) {
            Ok(count) if count > 0 => sent += count,
            _ => return Err(Failed),
        }
    }
    Ok(())
}
