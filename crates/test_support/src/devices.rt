//! Readers and writers over memory, for tests.
ghost use Rattle.std.specs.Prelude.{◌≤◌, Some};

use std::io;
use std::io::{ErrorKind, Read, Write};

/// A reader that gives its bytes in blocks, and fails in one of its reads; reads are numbered from 1.
#[derive(Drop)]
pub struct BlockReader<'a> {
    rest: &'a [u8],
    block: usize,
    reads: u64,
    failing: u64,
    ghost some: { 1 ≤ block },
}

impl<'a> BlockReader<'a> {
    pub fn new(rest: &'a [u8], block: usize, failing: u64) -> BlockReader<'a>
        requires { 1 ≤ block }
    {
        BlockReader {
            rest,
            block,
            reads: 0,
            failing,
        }
    }
}

impl<'a> Read for BlockReader<'a> {
    ghost remaining = { λ r. Some r.rest.now };

    fn read(&mut self, buf: &mut [u8]) -> io::Result<usize> {
        self.reads = self.reads.saturating_add(1);
        if self.reads == self.failing {
            return Err(io::Error::from(ErrorKind::Interrupted));
        }
        let n = self.block.min(buf.len());
        self.rest.read(&mut buf[..n])
    }
}

/// What a writer does once its room is used up.
#[derive(Clone, Copy, PartialEq, Eq)]
pub enum Full {
    /// It answers an error.
    Fails,
    /// It takes 0 bytes.
    Takes0,
}

/// A writer that takes so many bytes at a time, and so many in all.
#[derive(Drop)]
pub struct NarrowWriter {
    out: Vec<u8>,
    width: usize,
    left: usize,
    full: Full,
    flushes: bool,
}

impl NarrowWriter {
    pub fn new(out: Vec<u8>, width: usize, left: usize, full: Full, flushes: bool) -> NarrowWriter {
        NarrowWriter {
            out,
            width,
            left,
            full,
            flushes,
        }
    }

    /// What it took.
    pub fn into_bytes(self) -> Vec<u8> {
        let NarrowWriter {
            out,
            width: _,
            left: _,
            full: _,
            flushes: _,
        } = self;
        out
    }
}

impl Write for NarrowWriter {
    ghost contents = { λ w. Some w.out.items };

    fn write(&mut self, buf: &[u8]) -> io::Result<usize> {
        let n = buf.len().min(self.width).min(self.left);
        if n == 0 {
            return match self.full {
                Full::Fails => Err(io::Error::from(ErrorKind::Other)),
                Full::Takes0 => Ok(0),
            };
        }
        self.out.extend_from_slice(&buf[..n])?;
        self.left -= n;
        Ok(n)
    }

    fn flush(&mut self) -> io::Result<()> {
        if self.flushes {
            Ok(())
        } else {
            Err(io::Error::from(ErrorKind::Other))
        }
    }
}

/// A writer that takes all, and fails in one of its flushes; flushes are numbered from 1.
#[derive(Drop)]
pub struct FlushCounter {
    out: Vec<u8>,
    flushes: u64,
    failing: u64,
}

impl FlushCounter {
    pub fn new(out: Vec<u8>, failing: u64) -> FlushCounter {
        FlushCounter {
            out,
            flushes: 0,
            failing,
        }
    }

    /// How often it was told to flush.
    pub fn flushes(&self) -> u64 {
        self.flushes
    }

    /// What it took.
    pub fn bytes(&self) -> &[u8] {
        &self.out
    }
}

impl Write for FlushCounter {
    ghost contents = { λ w. Some w.out.items };

    fn write(&mut self, buf: &[u8]) -> io::Result<usize> {
        self.out.extend_from_slice(buf)?;
        Ok(buf.len())
    }

    fn flush(&mut self) -> io::Result<()> {
        self.flushes = self.flushes.saturating_add(1);
        if self.flushes == self.failing {
            Err(io::Error::from(ErrorKind::Other))
        } else {
            Ok(())
        }
    }
}
