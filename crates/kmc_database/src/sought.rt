//! A file of which a part is read by seeking its place.
ghost use Rattle.std.specs.Prelude.{◌≡◌, OnErr, OnOk};
ghost use Rattle.kmc_device.specs.Device.{RisesByOne};

use crate::places::Places;
use kmc_device::ReadFault;
use std::io;
use std::io::{ErrorKind, Read, Seek, SeekFrom};

/// A device that is read by seeking, and how many of its reads failed. What bytes it has is not known to contracts: those of seeking do not
/// say what a read gives behind a place.
#[derive(Drop)]
pub struct Sought<T> {
    inner: T,
    failures: u64,
}

/// Fills a buffer from a place on, and says whether there are so many bytes.
fn fill_at<T: Read + Seek>(device: &mut T, place: u64, buffer: &mut [u8]) -> io::Result<bool> {
    device.seek(SeekFrom::Start(place))?;
    match device.read_exact(buffer) {
        Ok(()) => Ok(true),
        Err(error) => {
            if error.kind() == ErrorKind::UnexpectedEof {
                Ok(false)
            } else {
                Err(error)
            }
        }
    }
}

impl<T> Sought<T> {
    /// The device with no failure yet.
    pub fn new(inner: T) -> Sought<T>
        ensures inner { result.inner ≡ inner }
        ensures failures { result.failures ≡ 0 }
    {
        Sought { inner, failures: 0 }
    }

    /// The answer of a call, which is counted if it failed.
    fn counted<X: Drop>(&mut self, answer: io::Result<X>) -> Result<X, ReadFault>
        ensures kept { OnOk result (self.new.failures ≡ self.old.failures) }
        ensures failed { OnErr result (RisesByOne self.old.failures self.new.failures) }
    {
        match answer {
            Ok(value) => Ok(value),
            Err(_) => {
                self.failures = self.failures.saturating_add(1);
                Err(ReadFault)
            }
        }
    }
}

impl<T: Read + Seek> Places for Sought<T> {
    ghost failures = { λ s. s.failures };

    fn read_at(&mut self, place: u64, buffer: &mut [u8]) -> Result<bool, ReadFault> {
        let answer = fill_at(&mut self.inner, place, buffer);
        self.counted(answer)
    }

    fn size(&mut self) -> Result<u64, ReadFault> {
        let answer = self.inner.seek(SeekFrom::End(0));
        self.counted(answer)
    }
}
