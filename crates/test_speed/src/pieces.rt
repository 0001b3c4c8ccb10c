//! A reader that returns its bytes piece by piece, and a writer that counts what it takes.

use std::io;
use std::io::{Read, Write};

/// A reader of these bytes, up to `step` at a time.
#[derive(Drop)]
pub struct Pieces<'a> {
    rest: &'a [u8],
    step: usize,
}

impl<'a> Pieces<'a> {
    /// A reader of these bytes, up to `step` at a time.
    pub fn new(bytes: &'a [u8], step: usize) -> Pieces<'a> {
        Pieces { rest: bytes, step }
    }
}

impl Read for Pieces<'_> {
    fn read(&mut self, buf: &mut [u8]) -> io::Result<usize> {
        let most = self.step.min(buf.len());
        self.rest.read(&mut buf[..most])
    }
}

/// A writer that counts bytes, and keeps none.
#[derive(Drop)]
pub struct Counter {
    taken: usize,
}

impl Counter {
    /// A writer that has taken nothing.
    pub fn new() -> Counter {
        Counter { taken: 0 }
    }

    /// How many bytes were written.
    pub fn taken(&self) -> usize {
        self.taken
    }
}

impl Write for Counter {
    fn write(&mut self, buf: &[u8]) -> io::Result<usize> {
        self.taken = self.taken.saturating_add(buf.len());
        Ok(buf.len())
    }

    fn flush(&mut self) -> io::Result<()> {
        Ok(())
    }
}
