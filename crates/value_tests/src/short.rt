//! A runtime whose input gives, and whose streams take, three bytes a call at most, and of which one call can fail.
use fem_text::Streams;
use std::alloc::Allocator;
use std::cell::RefCell;
use std::fs::{File, Metadata, OpenOptions};
use std::io::{self, BufRead, ErrorKind, Input, Lines, Read, Write};
use std::rt::Files;

/// What the input holds and what the streams took; the number of the call, counted from 1, that fails, and of the write
/// that takes nothing, or 0.
#[derive(Drop)]
pub(crate) struct ShortRuntime<'a> {
    pub(crate) input: &'a [u8],
    pub(crate) taken: &'a RefCell<Vec<u8>>,
    pub(crate) fails_at: u32,
    pub(crate) stops_at: u32,
}

fn failed() -> io::Error {
    io::Error::from(ErrorKind::Other)
}

/// The input, from the first byte that wasn't given yet.
#[derive(Drop)]
pub(crate) struct ShortSource<'a> {
    left: &'a [u8],
    reads: u32,
    fails_at: u32,
}

impl Read for ShortSource<'_> {
    fn read(&mut self, buf: &mut [u8]) -> io::Result<usize> {
        self.reads = self.reads.saturating_add(1);
        if self.reads == self.fails_at {
            return Err(failed());
        }
        let count = self.left.len().min(buf.len()).min(3);
        buf[..count].copy_from_slice(&self.left[..count]);
        self.left = &self.left[count..];
        Ok(count)
    }
}

impl BufRead for ShortSource<'_> {
    fn fill_buf(&mut self) -> io::Result<&[u8]> {
        Ok(self.left)
    }

    fn consume(&mut self, amount: usize) {
        self.left = &self.left[amount.min(self.left.len())..];
    }
}

/// A stream.
#[derive(Drop)]
pub(crate) struct ShortTarget<'a> {
    taken: &'a RefCell<Vec<u8>>,
    writes: u32,
    fails_at: u32,
    stops_at: u32,
}

// Adds bytes to those that were taken.
fn keep(taken: &RefCell<Vec<u8>>, bytes: &[u8]) -> io::Result<()> {
    match taken.try_borrow_mut() {
        Ok(mut taken) => taken.extend_from_slice(bytes).map_err(|_| failed()),
        Err(_) => Err(failed()),
    }
}

impl Write for ShortTarget<'_> {
    fn write(&mut self, buf: &[u8]) -> io::Result<usize> {
        self.writes = self.writes.saturating_add(1);
        if self.writes == self.fails_at {
            return Err(failed());
        }
        if self.writes == self.stops_at {
            return Ok(0);
        }
        let count = buf.len().min(3);
        keep(self.taken, &buf[..count])?;
        Ok(count)
    }

    fn flush(&mut self) -> io::Result<()> {
        Ok(())
    }
}

impl<'a> Streams for ShortRuntime<'a> {
    type Output = ShortTarget<'a>;

    type Diagnostics = ShortTarget<'a>;

    fn output(&self) -> ShortTarget<'a> {
        ShortTarget {
            taken: self.taken,
            writes: 0,
            fails_at: self.fails_at,
            stops_at: self.stops_at,
        }
    }

    fn diagnostics(&self) -> ShortTarget<'a> {
        self.output()
    }
}

impl<'a> Input for ShortRuntime<'a> {
    type Reader = ShortSource<'a>;

    fn read_line<A: Allocator + Clone>(&self, _buf: &mut String<A>) -> io::Result<usize> {
        Err(failed())
    }

    fn lines<A: Allocator>(&self, alloc: A) -> Lines<ShortSource<'a>, A> {
        self.reader().lines(alloc)
    }

    fn reader(&self) -> ShortSource<'a> {
        ShortSource {
            left: self.input,
            reads: 0,
            fails_at: self.fails_at,
        }
    }
}

/// There are no files.
impl<'a> Files for ShortRuntime<'a> {
    type File = File;

    type Dir = ShortSource<'a>;

    fn open_file(&self, _how: &OpenOptions, _path: &str) -> io::Result<File> {
        Err(failed())
    }

    fn open_dir(&self, _path: &str) -> io::Result<ShortSource<'a>> {
        Err(failed())
    }

    fn metadata(&self, _path: &str) -> io::Result<Metadata> {
        Err(failed())
    }

    fn symlink_metadata(&self, _path: &str) -> io::Result<Metadata> {
        Err(failed())
    }

    fn copy(&self, _from: &str, _to: &str) -> io::Result<u64> {
        Err(failed())
    }

    fn rename(&self, _from: &str, _to: &str) -> io::Result<()> {
        Err(failed())
    }

    fn remove_file(&self, _path: &str) -> io::Result<()> {
        Err(failed())
    }

    fn create_dir(&self, _path: &str) -> io::Result<()> {
        Err(failed())
    }

    fn remove_dir(&self, _path: &str) -> io::Result<()> {
        Err(failed())
    }

    fn remove_dir_all<B: Allocator>(&self, _alloc: B, _path: &str) -> io::Result<()> {
        Err(failed())
    }
}
