//! Databases searched over memory.
ghost use Rattle.std.specs.Prelude.{◌≡◌, OnErr, OnOk};
ghost use Rattle.kmc_device.specs.Device.{RisesByOne};

use kmc_database::{Held, Places, SearchError, query_database};
use kmc_device::{Counted, ReadFault};
use std::alloc::Global;
use std::test::Fail;
use test_support::{BlockReader, Full, NarrowWriter};

/// How the devices behave.
#[derive(Clone, Copy)]
pub struct Seekers {
    /// The call on the prefix file that fails; 0 for none.
    pub prefix: u64,
    /// The same of the suffix file, and the read of the words.
    pub suffix: u64,
    pub words: u64,
    /// The bytes that the writer takes in all, and whether its flush succeeds.
    pub writer: (usize, bool),
    /// Whether each strand is asked for by itself.
    pub apart: bool,
}

/// Devices that do not fail.
pub const ALL_SOUND: Seekers = Seekers {
    prefix: 0,
    suffix: 0,
    words: 0,
    writer: (1 << 20, true),
    apart: false,
};

/// A file in memory of which one call fails.
#[derive(Drop)]
struct Failing {
    held: Held,
    left: u64,
    failures: u64,
}

impl Failing {
    /// Whether this call fails.
    fn fails(&mut self) -> bool
        ensures { self.new.failures ≡ self.old.failures }
    {
        if self.left == 0 {
            return false;
        }
        self.left -= 1;
        self.left == 0
    }

    /// A failure, which is counted.
    fn failed(&mut self) -> ReadFault
        ensures { RisesByOne self.old.failures self.new.failures }
    {
        self.failures = self.failures.saturating_add(1);
        ReadFault
    }
}

impl Places for Failing {
    ghost failures = { λ f. f.failures };

    fn read_at(&mut self, place: u64, buffer: &mut [u8]) -> Result<bool, ReadFault> {
        if self.fails() {
            return Err(self.failed());
        }
        self.held.read_at(place, buffer)
    }

    fn size(&mut self) -> Result<u64, ReadFault> {
        if self.fails() {
            return Err(self.failed());
        }
        self.held.size()
    }
}

/// What was written, and the answer.
#[derive(Drop)]
pub struct Found {
    pub answer: Result<u64, SearchError>,
    pub text: Vec<u8>,
}

/// The bytes as a file of which this call fails.
fn file(rt: &impl Alloc<A = Global>, bytes: &[u8], left: u64) -> Result<Failing, Fail> {
    let mut copy = Vec::new(rt.alloc());
    copy.extend_from_slice(bytes)?;
    Ok(Failing {
        held: Held { bytes: copy },
        left,
        failures: 0,
    })
}

/// Looks the words up in the two files, with a reader that gives seven bytes at a time.
pub fn searched(
    rt: &impl Alloc<A = Global>,
    prefix: &[u8],
    suffix: &[u8],
    words: &str,
    devices: Seekers,
) -> Result<Found, Fail> {
    let mut table = file(rt, prefix, devices.prefix)?;
    let mut rows = file(rt, suffix, devices.suffix)?;
    let mut asked = Counted::new(BlockReader::new(words.as_bytes(), 7, devices.words));
    let (room, flushes) = devices.writer;
    let out = NarrowWriter::new(Vec::new(rt.alloc()), 3, room, Full::Takes0, flushes);
    let mut writer = Counted::new(out);
    let answer = query_database(
        rt.alloc(),
        devices.apart,
        &mut table,
        &mut rows,
        &mut asked,
        &mut writer,
    );
    Ok(Found {
        answer,
        text: writer.into_inner().into_bytes(),
    })
}
