//! Refusals.
ghost use Rattle.std.specs.Prelude.{◌≡◌};
ghost use Rattle.kmc_reads.specs.declared.error.ReadsError.TheVariants.{Memory};

use std::alloc::AllocError;
use thiserror::Error;

/// Why a text gave no reads. Lines are numbered from 1, blank ones too; a number past the
/// greatest `u64` is given as that.
#[derive(Clone, Copy, Debug, PartialEq, Eq, Error)]
pub enum ReadsError {
    /// Memory for the reads was refused. It says nothing of the text.
    #[error("out of memory")]
    Memory,
    /// This line stands where a header must, and does not begin with `@` (FASTQ) or `>` (FASTA).
    #[error("line {0}: bad header")]
    BadHeader(u64),
    /// The third line of a FASTQ record does not begin with `+`.
    #[error("line {0}: bad plus line")]
    BadPlus(u64),
    /// The quality line of a FASTQ record is not as long as the sequence.
    #[error("line {0}: quality length differs")]
    QualityLength(u64),
    /// A FASTQ text ended inside a record: the first line that is not there.
    #[error("line {0}: record cut short")]
    Truncated(u64),
}

impl ReadsError {
    ghost use Rattle.kmc_reads.specs.RefusalNumbers.{number_of_reads_error};

    /// The number of the refusal, as docs/REFUSALS.md lists it.
    pub fn number(&self) -> u8
        ensures { result ≡ number_of_reads_error self.now }
    {
        match self {
            ReadsError::Memory => 1,
            ReadsError::BadHeader(_) => 2,
            ReadsError::BadPlus(_) => 3,
            ReadsError::QualityLength(_) => 4,
            ReadsError::Truncated(_) => 5,
        }
    }
}

impl From<AllocError> for ReadsError {
    ghost from_gives = { λ _ e. e ≡ Memory };

    fn from(_: AllocError) -> ReadsError {
        ReadsError::Memory
    }
}
