//! Why a database is not unpacked.
ghost use Rattle.std.specs.Prelude.{◌≡◌};

use crate::reading::FormFault;
use thiserror::Error;

/// Why a database is not unpacked. Rows are numbered from 1, entries of the table from 0.
#[derive(Clone, Copy, Debug, PartialEq, Eq, Error)]
pub enum UnpackError {
    /// The prefix file does not end with a header of KMC 1's form.
    #[error("the prefix file has no header: {0}")]
    Form(FormFault),
    /// The prefix file is shorter or longer than its header asks for.
    #[error("the prefix file has another length")]
    Length,
    /// The prefix file does not begin with `KMCP`.
    #[error("the prefix file does not begin with its marker")]
    PrefixMarker,
    /// The suffix file does not begin with `KMCS`.
    #[error("the suffix file does not begin with its marker")]
    SuffixMarker,
    /// This entry of the table is less than the one before, or more than there are rows, or the first one and not 0.
    #[error("entry {0} of the table is out of order")]
    Entry(u64),
    /// The suffix file ends in this row.
    #[error("the suffix file ends in row {0}")]
    Cut(u64),
    /// The word of this row is not above that of the row before.
    #[error("row {0} does not rise")]
    NotRising(u64),
    /// This row has a count of 0.
    #[error("row {0} has no count")]
    ZeroCount(u64),
    /// Behind all rows the suffix file has not `KMCS`, or more than that.
    #[error("the suffix file does not end behind its rows")]
    SuffixEnd,
    /// The prefix file had another end when it was read the second time.
    #[error("the prefix file was changed")]
    Changed,
    /// A read of the prefix file failed.
    #[error("cannot read the prefix file")]
    ReadPrefix,
    /// A read of the suffix file failed.
    #[error("cannot read the suffix file")]
    ReadSuffix,
    /// A write or the flush of the dump failed, or a write took nothing.
    #[error("cannot write the dump")]
    Write,
    /// Memory was refused.
    #[error("out of memory")]
    Memory,
}

impl UnpackError {
    ghost use Rattle.kmc_database.specs.RefusalNumbers.{number_of_unpack_error};

    /// The number of the refusal, as docs/REFUSALS.md lists it.
    pub fn number(&self) -> u8
        ensures { result ≡ number_of_unpack_error self.now }
    {
        match self {
            UnpackError::Form(_) => 1,
            UnpackError::Length => 2,
            UnpackError::PrefixMarker => 3,
            UnpackError::SuffixMarker => 4,
            UnpackError::Entry(_) => 5,
            UnpackError::Cut(_) => 6,
            UnpackError::NotRising(_) => 7,
            UnpackError::ZeroCount(_) => 8,
            UnpackError::SuffixEnd => 9,
            UnpackError::Changed => 10,
            UnpackError::ReadPrefix => 11,
            UnpackError::ReadSuffix => 12,
            UnpackError::Write => 13,
            UnpackError::Memory => 14,
        }
    }
}
