//! A file that is held in memory.
ghost use Rattle.std.specs.Prelude.{◌≡◌, Some};

use crate::places::Places;
use kmc_device::ReadFault;

/// The bytes of a file, held in memory.
#[derive(Drop)]
pub struct Held {
    pub bytes: Vec<u8>,
}

impl Places for Held {
    ghost bytes = { λ h. Some h.bytes.items };

    ghost failures = { λ h. 0 };

    fn read_at(&mut self, place: u64, buffer: &mut [u8]) -> Result<bool, ReadFault> {
        let size = self.bytes.len() as u64;
        if place > size || size - place < buffer.len() as u64 {
            return Ok(false);
        }
        let from = place as usize;
        buffer.copy_from_slice(&self.bytes[from..from + buffer.len()]);
        Ok(true)
    }

    fn size(&mut self) -> Result<u64, ReadFault> {
        Ok(self.bytes.len() as u64)
    }
}
