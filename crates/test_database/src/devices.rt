//! Dumps packed over memory.
use kmc_base::Strands;
use kmc_database::{PackError, PackOptions, pack};
use kmc_device::Counted;
use kmc_sum::TextReader;
use std::alloc::Global;
use std::test::Fail;
use test_support::{BlockReader, Full, NarrowWriter};

/// How the devices behave.
#[derive(Clone, Copy)]
pub struct Devices {
    /// The read that fails; 0 for none.
    pub failing: u64,
    /// The bytes that the writer of the prefix file takes in all, and whether its flush succeeds.
    pub prefix: (usize, bool),
    /// The same of the suffix file.
    pub suffix: (usize, bool),
}

/// Devices that do not fail.
pub const SOUND: Devices = Devices {
    failing: 0,
    prefix: (1 << 20, true),
    suffix: (1 << 20, true),
};

/// What was written, and the answer.
#[derive(Drop)]
pub struct Written {
    pub answer: Result<u64, PackError>,
    pub prefix: Vec<u8>,
    pub suffix: Vec<u8>,
}

/// Words of any length, counts of so many bytes, and limits.
pub fn counts_of(counter: usize, least: u32, greatest: u64) -> PackOptions {
    PackOptions {
        k: None,
        prefix: None,
        counter,
        least,
        greatest,
        strands: Strands::Joined,
    }
}

/// Packs the text, with a reader that gives seven bytes at a time.
pub fn packed(
    rt: &impl Alloc<A = Global>,
    text: &str,
    options: &PackOptions,
    devices: Devices,
) -> Result<Written, Fail> {
    let mut reader = Counted::new(TextReader(BlockReader::new(
        text.as_bytes(),
        7,
        devices.failing,
    )));
    let (prefix_room, prefix_flushes) = devices.prefix;
    let out = Vec::new(rt.alloc());
    let out = NarrowWriter::new(out, 5000, prefix_room, Full::Fails, prefix_flushes);
    let mut prefix = Counted::new(out);
    let (suffix_room, suffix_flushes) = devices.suffix;
    let out = Vec::new(rt.alloc());
    let out = NarrowWriter::new(out, 5, suffix_room, Full::Takes0, suffix_flushes);
    let mut suffix = Counted::new(out);
    let answer = pack(rt.alloc(), options, &mut reader, &mut prefix, &mut suffix);
    Ok(Written {
        answer,
        prefix: prefix.into_inner().into_bytes(),
        suffix: suffix.into_inner().into_bytes(),
    })
}
