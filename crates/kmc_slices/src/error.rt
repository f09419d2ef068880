//! Why reads were not cut to the files of slices.
ghost use Rattle.std.specs.Prelude.{◌≡◌};
ghost use Rattle.kmc_slices.specs.Cut.{IsToldAs};
ghost use Rattle.kmc_slices.specs.declared.error.CutError.TheVariants.{Memory};

use kmc_reads::{InputError, ReadsError};
use std::alloc::AllocError;
use thiserror::Error;

/// Why reads were not cut to the files of slices. Of several causes the one that is met first is answered.
#[derive(Clone, Copy, Debug, PartialEq, Eq, Error)]
pub enum CutError {
    /// A growth or the start of a thread was refused.
    #[error("out of memory")]
    Memory,
    /// A read failed, of whatever kind.
    #[error("read failed")]
    Read,
    /// A write to the file of this slice or its flush failed, or a write took nothing of what was left.
    #[error("the file of slice {0} cannot be written")]
    Write(usize),
    /// The text is no list of reads; never for want of memory.
    #[error("{0}")]
    Input(ReadsError),
    /// 2^32 reads gave bytes.
    #[error("input too long")]
    TooLong,
}

impl CutError {
    ghost use Rattle.kmc_slices.specs.RefusalNumbers.{number_of_cut_error};

    /// The number of the refusal, as docs/REFUSALS.md lists it.
    pub fn number(&self) -> u8
        ensures { result ≡ number_of_cut_error self.now }
    {
        match self {
            CutError::Memory => 1,
            CutError::Read => 2,
            CutError::Write(_) => 3,
            CutError::Input(_) => 4,
            CutError::TooLong => 5,
        }
    }
}

impl From<AllocError> for CutError {
    ghost from_gives = { λ _ e. e ≡ Memory };

    fn from(_: AllocError) -> CutError {
        CutError::Memory
    }
}

/// How a refusal of the reading is told.
pub(crate) fn told(e: InputError) -> CutError
    ensures { IsToldAs e result }
{
    match e {
        InputError::Memory => CutError::Memory,
        InputError::Read => CutError::Read,
        InputError::Faulty(fault) => CutError::Input(fault),
        InputError::TooLong => CutError::TooLong,
    }
}
