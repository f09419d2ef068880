//! A whole file that is read.
ghost use Rattle.std.specs.Prelude.{◌≡◌, length, map, OnOk, OnErr, IfErr};
ghost use Rattle.kmc_slice_files.specs.Files.{IsSlicing};
ghost use Rattle.kmc_slice_files.specs.Reads.{GaveSome, held_bytes};
ghost use Rattle.kmc_slice_files.specs.Whole.{GaveFile, IsSliceFault, SliceTells};

use crate::frames::{FileFault, read_frames};
use crate::header::{HeaderFault, Slicing, read_header};
use crate::read::BLOCK;
use kmc_device::Counted;
use std::io::Read;

/// The first fault of a file.
#[derive(Clone, Copy, Debug, PartialEq, Eq)]
pub enum SliceFault {
    /// Its header.
    Header(HeaderFault),
    /// It tells of this shape and place, and others were expected.
    Other(Slicing),
    /// What stands behind its header.
    File(FileFault),
}

impl SliceFault {
    ghost use Rattle.kmc_slice_files.specs.RefusalNumbers.{number_of_slice_fault};

    /// The number of the refusal, as docs/REFUSALS.md lists it.
    pub fn number(&self) -> u8
        ensures { result ≡ number_of_slice_fault self.now }
    {
        match self {
            SliceFault::Header(_) => 1,
            SliceFault::Other(_) => 2,
            SliceFault::File(_) => 3,
        }
    }
}

impl From<HeaderFault> for SliceFault {
    ghost use Rattle.kmc_slice_files.specs.declared.slice.SliceFault.TheVariants.{Header};

    ghost from_gives = { λ fault e. e ≡ Header fault };

    fn from(fault: HeaderFault) -> SliceFault {
        SliceFault::Header(fault)
    }
}

impl From<FileFault> for SliceFault {
    ghost use Rattle.kmc_slice_files.specs.declared.slice.SliceFault.TheVariants.{File};

    ghost from_gives = { λ fault e. e ≡ File fault };

    fn from(fault: FileFault) -> SliceFault {
        SliceFault::File(fault)
    }
}

/// Reads a file of this shape and place, of bins as many as there are bodies. The bodies of its frames go behind what their
/// bins have. After a fault the bodies may have more than they had, and are of no use.
pub fn read_slice<R: Read>(
    reader: &mut Counted<R>,
    bodies: &mut [Vec<u8>],
    expected: &Slicing,
) -> Result<(), SliceFault>
    requires { length bodies.old ≡ expected.now.shape.n }
    ensures ok { OnOk result
        (GaveFile expected.now.shape expected.now.slices expected.now.slice
        (R.remaining reader.old.inner) (R.remaining reader.new.inner)
        (map (λ v. v.items) bodies.old) (map (λ v. v.items) bodies.new)) }
    ensures is { OnOk result (IsSlicing expected.now.shape expected.now.slices expected.now.slice) }
    ensures kept { OnOk result (reader.new.failures ≡ reader.old.failures) }
    ensures fault { IfErr result
        (IsSliceFault expected.now.shape expected.now.slices expected.now.slice
        (R.remaining reader.old.inner) (R.remaining reader.new.inner)
        (map (λ v. v.items) bodies.old)) }
    ensures device { IfErr result (SliceTells reader.old.failures reader.new.failures) }
    ensures held { OnErr result
        (GaveSome (held_bytes (map (λ v. v.items) bodies.old))
        (held_bytes (map (λ v. v.items) bodies.new)) BLOCK (R.remaining reader.old.inner)
        (R.remaining reader.new.inner)) }
{
    let told = read_header(reader)?;
    if told != *expected {
        return Err(SliceFault::Other(told));
    }
    read_frames(reader, bodies, expected)?;
    Ok(())
}
