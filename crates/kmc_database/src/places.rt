//! Files of which a part is read at any place.
ghost use Rattle.std.specs.Prelude.{◌≡◌, ℕ, List, Option, length, IfOk, OnErr, OnOk, Some, None};
ghost use Rattle.kmc_device.specs.Device.{RisesByOne};
ghost use Rattle.kmc_database.specs.Part.{IsReadAt};

use kmc_device::ReadFault;

/// A file of which a part can be read at any place.
pub trait Places {
    // All its bytes, where they are known.
    ghost bytes: { Self → Option (List ℕ) } = { λ _. None };

    // How many reads failed, as far as a `u64` tells.
    ghost failures: { Self → ℕ };

    /// Fills a buffer with the bytes from a place on, and says whether the file has so many. If not, the buffer may hold anything.
    fn read_at(&mut self, place: u64, buffer: &mut [u8]) -> Result<bool, ReadFault>
        ensures bytes { bytes self.new ≡ bytes self.old }
        ensures read { IfOk result (λ read. (xs : List ℕ) → bytes self.old ≡ Some xs
            → IsReadAt xs place buffer.new read) }
        ensures kept { OnOk result (failures self.new ≡ failures self.old) }
        ensures failed { OnErr result (RisesByOne (failures self.old) (failures self.new)) };

    /// How many bytes the file has.
    fn size(&mut self) -> Result<u64, ReadFault>
        ensures bytes { bytes self.new ≡ bytes self.old }
        ensures size { IfOk result (λ size. (xs : List ℕ) → bytes self.old ≡ Some xs
            → size ≡ length xs) }
        ensures kept { OnOk result (failures self.new ≡ failures self.old) }
        ensures failed { OnErr result (RisesByOne (failures self.old) (failures self.new)) };
}
