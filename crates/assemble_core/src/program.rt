ghost use Rattle.std.specs.Prelude.{◌≡◌, true};
ghost use Rattle.assemble_core.specs.Run.{is_status};

use crate::run_chosen;
use fem_text::{DiskStore, StdSink, Streams};
use scratch_pool::OpenGate;
use std::alloc::Global;
use std::env;
use std::io::ErrorKind;
use std::rt::Runtime;
use std::sync::Wait;
use std::thread::Threads;

/// Runs the program on the words of its command line, over files and the standard streams, and answers the status.
/// Where a word isn't text the status is 2, where memory runs out for the words it is 12, and nothing is printed.
pub fn run_program<R: Runtime + AllocGlobal + Threads + Wait + Sync + Streams>(rt: &R) -> u8
    ensures { is_status result ≡ true }
{
    let alloc = rt.alloc();
    let args = match env::args(rt) {
        Ok(args) => args,
        Err(error) if error.kind() == ErrorKind::InvalidData => return 2,
        Err(_) => return 12,
    };
    let Ok(words) = args.skip(1).collect::<Vec<String>>(alloc) else {
        return 12;
    };
    run_on_disk(rt, alloc, words.as_slice())
}

// Runs the words over files and the standard streams.
fn run_on_disk<R: Runtime + Threads + Wait + Sync + Streams>(
    rt: &R,
    alloc: Global,
    words: &[String],
) -> u8
    ensures { is_status result ≡ true }
{
    let mut store = DiskStore::new(rt);
    let mut out = StdSink::new(rt, false);
    let mut err = StdSink::new(rt, true);
    run_chosen(rt, alloc, words, &mut store, &mut out, &mut err, &OpenGate)
}
