//! Why reads are not packed.
ghost use Rattle.std.specs.Prelude.{◌≡◌};
ghost use Rattle.kmc_packer.specs.Errors.{reads_error};

use crate::lists_error::PackListsError;
use kmc_options::RunError;
use thiserror::Error;

/// Why reads are not counted into a database. Of several causes the one that is met first is answered.
#[derive(Clone, Copy, Debug, PartialEq, Eq, Error)]
pub enum PackReadsError {
    /// Words of so many symbols have no first part as long as was asked for.
    #[error("words of {0} symbols have no such first part")]
    Prefix(usize),
    /// The reads were not counted: a read failed, the text is no list of reads or too long, or memory was refused. Never a failed write.
    #[error("{0}")]
    Count(RunError),
    /// A count does not fit the bytes of a count.
    #[error("a k-mer occurs more often than the bytes of a count tell")]
    TooGreat,
    /// A write or the flush of the prefix file failed, or a write took nothing.
    #[error("cannot write the prefix file")]
    WritePrefix,
    /// A write or the flush of the suffix file failed, or a write took nothing.
    #[error("cannot write the suffix file")]
    WriteSuffix,
    /// Memory was refused after the reads were counted.
    #[error("out of memory")]
    Memory,
}

impl PackReadsError {
    ghost use Rattle.kmc_packer.specs.RefusalNumbers.{number_of_pack_reads_error};

    /// The number of the refusal, as docs/REFUSALS.md lists it.
    pub fn number(&self) -> u8
        ensures { result ≡ number_of_pack_reads_error self.now }
    {
        match self {
            PackReadsError::Prefix(_) => 1,
            PackReadsError::Count(_) => 2,
            PackReadsError::TooGreat => 3,
            PackReadsError::WritePrefix => 4,
            PackReadsError::WriteSuffix => 5,
            PackReadsError::Memory => 6,
        }
    }
}

impl From<PackListsError> for PackReadsError {
    ghost from_gives = { λ error e. e ≡ reads_error error };

    fn from(error: PackListsError) -> PackReadsError {
        match error {
            PackListsError::TooGreat => PackReadsError::TooGreat,
            PackListsError::WritePrefix => PackReadsError::WritePrefix,
            PackListsError::WriteSuffix => PackReadsError::WriteSuffix,
            PackListsError::Memory => PackReadsError::Memory,
        }
    }
}
