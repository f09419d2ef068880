//! The files of one slice, read one after the other.
ghost use Rattle.std.specs.Prelude.{◌≡◌, [], ◌∷◌, ◌++◌, List, ℕ, Option, map, OnOk, IfOk, IfErr, IsErrOf};
ghost use Rattle.kmc_slice_files.specs.Whole.{IsSliceFault, SliceTells};
ghost use Rattle.kmc_slice_files.specs.declared.slice.SliceFault.{SliceFault};
ghost use Rattle.kmc_slices.specs.Gathered.{AreGathered, AreRecords, GaveHeader, IsFirstFileFault, IsOfSlice, Tells};
ghost use Rattle.kmc_slices.specs.declared.gathering.GatherError.TheVariants.{Memory, File};

use kmc_device::Counted;
use kmc_slice_files::{SliceFault, Slicing, read_frames, read_header, read_slice};
use kmc_store::Bins;
use std::alloc::{AllocError, Global};
use std::io::Read;
use std::marker::Model;
use thiserror::Error;

/// The records of one slice, of as many parts of the reads as files were read. Contracts see the slice's place and the records
/// of each bin.
#[derive(Drop)]
pub struct SliceRecords {
    slicing: Slicing,
    bodies: Vec<Vec<u8>>,
}

impl Model for SliceRecords {
    ghost use Rattle.std.specs.Prelude.{map};
    ghost use Rattle.kmc_slices.specs.Gathered.{Records, AreRecords};

    ghost Value = { Records };

    ghost view = { λ a. record {
      shape = a.slicing.shape;
      slices = a.slicing.slices;
      slice = a.slicing.slice;
      bodies = map (λ v. v.items) a.bodies.items;
    } };

    ghost invariant = { λ a. AreRecords a.slicing.shape a.slicing.slices a.slicing.slice (map (λ v. v.items) a.bodies.items) };
}

/// Why the records of a slice's first file were not read.
#[derive(Clone, Copy, Debug, PartialEq, Eq, Error)]
pub enum GatherError {
    /// Memory for empty bins was refused.
    #[error("out of memory")]
    Memory,
    /// The first fault of the file.
    #[error("{0}")]
    File(SliceFault),
}

impl GatherError {
    ghost use Rattle.kmc_slices.specs.RefusalNumbers.{number_of_gather_error};

    /// The number of the refusal, as docs/REFUSALS.md lists it.
    pub fn number(&self) -> u8
        ensures { result ≡ number_of_gather_error self.now }
    {
        match self {
            GatherError::Memory => 1,
            GatherError::File(_) => 2,
        }
    }
}

impl From<AllocError> for GatherError {
    ghost from_gives = { λ _ e. e ≡ Memory };

    fn from(_: AllocError) -> GatherError {
        GatherError::Memory
    }
}

impl SliceRecords {
    /// The records of the slice of which the first file tells.
    pub fn begin<R: Read>(
        alloc: Global,
        reader: &mut Counted<R>,
    ) -> Result<SliceRecords, GatherError>
        ensures ok { IfOk result
            (AreGathered ((R.remaining reader.old.inner, R.remaining reader.new.inner) ∷ [])) }
        ensures kept { OnOk result (reader.new.failures ≡ reader.old.failures) }
        ensures fault { (fault : SliceFault) → IsErrOf result (File fault)
            → IsFirstFileFault (R.remaining reader.old.inner) (R.remaining reader.new.inner) fault }
        ensures memory { IsErrOf result Memory
            → GaveHeader (R.remaining reader.old.inner) (R.remaining reader.new.inner) }
        ensures device { IfErr result (Tells reader.old.failures reader.new.failures) }
    {
        let slicing = match read_header(reader) {
            Ok(slicing) => slicing,
            Err(fault) => return Err(GatherError::File(SliceFault::Header(fault))),
        };
        let mut bodies = Bins::new(alloc, slicing.shape)?.into_bodies();
        match read_frames(reader, bodies.as_mut_slice(), &slicing) {
            Ok(()) => Ok(SliceRecords { slicing, bodies }),
            Err(fault) => Err(GatherError::File(SliceFault::File(fault))),
        }
    }

    /// Adds the records of another file of the same slice. After a fault what the slice has is of no use.
    pub fn add<R: Read>(&mut self, reader: &mut Counted<R>) -> Result<(), SliceFault>
        ensures same { IsOfSlice self.old self.new }
        ensures ok { (readings : List (Option (List ℕ) × Option (List ℕ))) → AreGathered readings self.old
            → OnOk result (AreGathered
            (readings ++ (R.remaining reader.old.inner, R.remaining reader.new.inner) ∷ []) self.new) }
        ensures kept { OnOk result (reader.new.failures ≡ reader.old.failures) }
        ensures fault { IfErr result (IsSliceFault self.old.shape self.old.slices self.old.slice
            (R.remaining reader.old.inner) (R.remaining reader.new.inner) self.old.bodies) }
        ensures device { IfErr result (SliceTells reader.old.failures reader.new.failures) }
    {
        read_slice(reader, self.bodies.as_mut_slice(), &self.slicing)
    }

    /// The place of the slice, and the records of each of its bins.
    pub(crate) fn into_parts(self) -> (Slicing, Vec<Vec<u8>>)
        ensures slicing { result.0 ≡ record { shape = self.shape; slices = self.slices; slice = self.slice } }
        ensures bodies { map (λ v. v.items) result.1.items ≡ self.bodies }
        ensures are { AreRecords self.shape self.slices self.slice self.bodies }
    {
        let SliceRecords { slicing, bodies } = self;
        (slicing, bodies)
    }
}
