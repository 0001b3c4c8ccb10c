//! A reader and a writer that pass bytes piece by piece, and can be made to fail.
use std::alloc::Global;
use std::io;
use std::io::{Read, Write};

fn failure() -> io::Error {
    io::Error::from(io::ErrorKind::ConnectionReset)
}

/// A reader that first returns up to `first` bytes, then up to `step` at a time, and fails after
/// `reads` reads.
#[derive(Drop)]
pub struct Pieces<'a> {
    rest: &'a [u8],
    first: usize,
    step: usize,
    reads: usize,
}

impl<'a> Pieces<'a> {
    /// A reader of these bytes, up to `step` at a time, which doesn't fail.
    pub fn new(bytes: &'a [u8], step: usize) -> Pieces<'a> {
        Pieces {
            rest: bytes,
            first: step,
            step,
            reads: 10_000_000,
        }
    }

    /// A reader that doesn't fail, with a first piece of another length.
    pub fn first(bytes: &'a [u8], first: usize, step: usize) -> Pieces<'a> {
        Pieces {
            rest: bytes,
            first,
            step,
            reads: 10_000_000,
        }
    }

    /// A reader that fails after `reads` reads.
    pub fn failing(bytes: &'a [u8], step: usize, reads: usize) -> Pieces<'a> {
        Pieces {
            rest: bytes,
            first: step,
            step,
            reads,
        }
    }
}

impl Read for Pieces<'_> {
    fn read(&mut self, buf: &mut [u8]) -> io::Result<usize> {
        if self.reads == 0 {
            return Err(failure());
        }
        self.reads -= 1;
        let most = self.first.min(buf.len());
        self.first = self.step;
        self.rest.read(&mut buf[..most])
    }
}

/// A writer that takes up to `step` bytes at a time, and after `writes` writes fails, or takes no
/// byte.
#[derive(Drop)]
pub struct Sink {
    bytes: Vec<u8>,
    step: usize,
    writes: usize,
    fails: bool,
}

impl Sink {
    /// A writer that takes all.
    pub fn new(alloc: Global) -> Sink {
        Sink::of(alloc, 10_000_000, 10_000_000, true)
    }

    /// A writer that takes up to `step` bytes at a time, `writes` times.
    pub fn of(alloc: Global, step: usize, writes: usize, fails: bool) -> Sink {
        Sink {
            bytes: Vec::new(alloc),
            step,
            writes,
            fails,
        }
    }

    /// What was written.
    pub fn written(&self) -> &[u8] {
        self.bytes.as_slice()
    }
}

impl Write for Sink {
    fn write(&mut self, buf: &[u8]) -> io::Result<usize> {
        if self.writes == 0 {
            return if self.fails { Err(failure()) } else { Ok(0) };
        }
        self.writes -= 1;
        let most = self.step.min(buf.len());
        self.bytes.write(&buf[..most])
    }

    fn flush(&mut self) -> io::Result<()> {
        Ok(())
    }
}
