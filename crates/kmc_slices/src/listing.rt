//! The dump of a slice.
ghost use Rattle.std.specs.Prelude.{◌≡◌, ◌≢◌, ℕ, List, length, IfOk, IfErr, IsErrOf};
ghost use Rattle.std.specs.Io.KnownBytes.{Appends};
ghost use Rattle.kmc_device.specs.Device.{AppendsFront, RisesByOne};
ghost use Rattle.kmc_lists.specs.Line.{text_of};
ghost use Rattle.kmc_store.specs.Bins.{AreBins};
ghost use Rattle.kmc_slices.specs.Outside.{IsBinFault};
ghost use Rattle.kmc_slices.specs.declared.bin_fault.BinFault.{BinFault};
ghost use Rattle.kmc_stage_two.specs.Stages.{IsDumpOfBins};
ghost use Rattle.kmc_slices.specs.declared.listing.ListError.TheVariants.{Memory, Foreign, Write};

use crate::bin_fault::{BinFault, JudgeError};
use crate::gathering::SliceRecords;
use crate::judging::judged_lists;
use kmc_device::Counted;
use kmc_dump::{DumpError, write_bins};
use kmc_options::Params;
use std::alloc::{AllocError, Global};
use std::io;
use std::sync::Wait;
use std::thread::Threads;
use thiserror::Error;

/// Why a slice was not listed.
#[derive(Clone, Copy, Debug, PartialEq, Eq, Error)]
pub enum ListError {
    /// The first bin whose records are none of that bin, and why. Nothing was written.
    #[error("{0}")]
    Foreign(BinFault),
    /// Memory was refused. The records of each bin are of that bin, and nothing was written.
    #[error("out of memory")]
    Memory,
    /// A write or the flush failed. A front of the dump is out.
    #[error("write failed")]
    Write,
}

impl ListError {
    ghost use Rattle.kmc_slices.specs.RefusalNumbers.{number_of_list_error};

    /// The number of the refusal, as docs/REFUSALS.md lists it.
    pub fn number(&self) -> u8
        ensures { result ≡ number_of_list_error self.now }
    {
        match self {
            ListError::Foreign(_) => 1,
            ListError::Memory => 2,
            ListError::Write => 3,
        }
    }
}

impl From<AllocError> for ListError {
    ghost from_gives = { λ _ e. e ≡ Memory };

    fn from(_: AllocError) -> ListError {
        ListError::Memory
    }
}

impl From<DumpError> for ListError {
    ghost use Rattle.kmc_slices.specs.Listing.{list_error};

    ghost from_gives = { λ error e. e ≡ list_error error };

    fn from(error: DumpError) -> ListError {
        match error {
            DumpError::Memory => ListError::Memory,
            DumpError::Write => ListError::Write,
        }
    }
}

/// Writes the dump of the records of a slice, within the limits and by the strands and threads of these settings, and nothing
/// else. The answer is the number of lines. Records that came from outside are judged as they are counted: each must be whole, with
/// words of its bin alone.
pub fn list_records<T: Threads + Wait + Sync, W: io::Write>(
    rt: &T,
    alloc: Global,
    records: SliceRecords,
    params: &Params,
    writer: &mut Counted<W>,
) -> Result<u64, ListError>
    ensures ok { IfOk result (λ lines. (pairs : List (List ℕ × ℕ))
        × IsDumpOfBins params.now.strands records.shape.k params.now.limits records.bodies pairs
        × (lines ≡ length pairs)
        × Appends (W.contents writer.old.inner) (W.contents writer.new.inner) (text_of pairs)) }
    ensures bins { IfOk result (λ lines. (words : List ℕ) × AreBins records.shape records.bodies words) }
    ensures kept { IfOk result (λ lines. writer.new.failures ≡ writer.old.failures) }
    ensures foreign { (fault : BinFault) → IsErrOf result (Foreign fault)
        → IsBinFault records.shape records.bodies fault }
    ensures judged { IsErrOf result Memory → (words : List ℕ) × AreBins records.shape records.bodies words }
    ensures front { IsErrOf result Write → (pairs : List (List ℕ × ℕ))
        × IsDumpOfBins params.now.strands records.shape.k params.now.limits records.bodies pairs
        × AppendsFront (W.contents writer.old.inner) (W.contents writer.new.inner) (text_of pairs) }
    ensures failed { IsErrOf result Write → RisesByOne writer.old.failures writer.new.failures }
    ensures silent { IfErr result (λ e. e ≢ Write → writer.new ≡ writer.old) }
{
    let (slicing, bodies) = records.into_parts();
    let lists = match judged_lists(
        rt,
        alloc,
        slicing.shape,
        bodies,
        params.strands,
        &params.limits,
        params.counters,
    ) {
        Ok(lists) => lists,
        Err(JudgeError::Foreign(fault)) => return Err(ListError::Foreign(fault)),
        Err(JudgeError::Memory) => return Err(ListError::Memory),
    };
    let lines = write_bins(
        rt,
        alloc,
        writer,
        &lists,
        slicing.shape.k(),
        params.counters,
    )?;
    Ok(lines)
}
