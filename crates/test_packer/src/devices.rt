//! Reads counted into a database over memory, with devices that fail.
use crate::texts::words_of;
use kmc_device::Counted;
use kmc_options::{Program, settings};
use kmc_packer::{PackReadsError, pack_reads};
use std::alloc::Global;
use std::process::Abort;
use std::sync::Wait;
use std::thread::Threads;
use test_support::{BlockReader, Full, NarrowWriter};

/// How the devices behave.
#[derive(Clone, Copy)]
pub struct Devices {
    /// The read that fails; 0 for none.
    pub failing: u64,
    /// The bytes that the writer of the prefix file takes in all, and whether its flush succeeds.
    pub prefix: (usize, bool),
    /// The same of the suffix file.
    pub suffix: (usize, bool),
}

/// Devices that do not fail.
pub const SOUND: Devices = Devices {
    failing: 0,
    prefix: (1 << 24, true),
    suffix: (1 << 24, true),
};

/// The answer, and what was written to the two files.
#[derive(Drop)]
pub struct Written {
    pub answer: Result<u64, PackReadsError>,
    pub prefix: Vec<u8>,
    pub suffix: Vec<u8>,
}

/// Counts the text by the settings that these words give, with a reader that gives a thousand bytes at a time and writers that take few.
pub fn made<T: Abort + Threads + Wait + Sync + Alloc<A = Global>>(
    rt: &T,
    words: &str,
    first_part: Option<usize>,
    text: &[u8],
    devices: Devices,
) -> Written {
    let argv = words_of(rt.alloc(), words).expect(rt, "memory");
    let params = settings(rt.alloc(), Program::Kmc, argv).expect(rt, words);
    let mut reader = Counted::new(BlockReader::new(text, 1000, devices.failing));
    let (room, flushes) = devices.prefix;
    let out = NarrowWriter::new(Vec::new(rt.alloc()), 5000, room, Full::Fails, flushes);
    let mut prefix = Counted::new(out);
    let (room, flushes) = devices.suffix;
    let out = NarrowWriter::new(Vec::new(rt.alloc()), 7, room, Full::Takes0, flushes);
    let mut suffix = Counted::new(out);
    let answer = pack_reads(
        rt,
        rt.alloc(),
        &params,
        first_part,
        &mut reader,
        &mut prefix,
        &mut suffix,
    );
    Written {
        answer,
        prefix: prefix.into_inner().into_bytes(),
        suffix: suffix.into_inner().into_bytes(),
    }
}
