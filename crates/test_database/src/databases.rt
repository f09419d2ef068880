//! Databases unpacked over memory.
use kmc_database::{UnpackError, unpack};
use kmc_device::Counted;
use std::alloc::Global;
use std::test::Fail;
use test_support::{BlockReader, Full, NarrowWriter};

/// How the devices behave.
#[derive(Clone, Copy)]
pub struct Readers {
    /// The read that fails when the prefix file is read for the first time; 0 for none.
    pub first: u64,
    /// The same of the second time, and of the suffix file.
    pub prefix: u64,
    pub suffix: u64,
    /// The bytes that the writer takes in all, and whether its flush succeeds.
    pub writer: (usize, bool),
}

/// Devices that do not fail.
pub const ALL_SOUND: Readers = Readers {
    first: 0,
    prefix: 0,
    suffix: 0,
    writer: (1 << 20, true),
};

/// What was written, and the answer.
#[derive(Drop)]
pub struct Dumped {
    pub answer: Result<u64, UnpackError>,
    pub text: Vec<u8>,
}

/// Unpacks the two files, with readers that give seven, eleven and five bytes at a time.
pub fn unpacked<'a>(
    rt: &impl Alloc<A = Global>,
    prefix: &'a [u8],
    suffix: &'a [u8],
    devices: Readers,
) -> Result<Dumped, Fail> {
    let mut first = Counted::new(BlockReader::new(prefix, 7, devices.first));
    let mut table = Counted::new(BlockReader::new(prefix, 11, devices.prefix));
    let mut rows = Counted::new(BlockReader::new(suffix, 5, devices.suffix));
    let (room, flushes) = devices.writer;
    let out = NarrowWriter::new(Vec::new(rt.alloc()), 3, room, Full::Takes0, flushes);
    let mut writer = Counted::new(out);
    let answer = unpack(rt.alloc(), &mut first, &mut table, &mut rows, &mut writer);
    Ok(Dumped {
        answer,
        text: writer.into_inner().into_bytes(),
    })
}
