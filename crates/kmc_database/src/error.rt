//! Why a dump is not packed.
ghost use Rattle.std.specs.Prelude.{◌≡◌};
ghost use Rattle.kmc_database.specs.declared.error.PackError.TheVariants.{Source};

use kmc_sum::{SourceError, SourceFault};
use thiserror::Error;

/// Why a dump is not packed.
#[derive(Clone, Copy, Debug, PartialEq, Eq, Error)]
pub enum PackError {
    /// A read of the dump failed, or a line of it is at fault: the first one.
    #[error("the dump {0}")]
    Source(SourceFault),
    /// The dump has no line, and no length of words was asked for.
    #[error("the dump has no line to tell the length of words")]
    Empty,
    /// Words of so many symbols have no first part as long as was asked for.
    #[error("words of {0} symbols have no such first part")]
    Prefix(usize),
    /// The count of this line, numbered from 1, does not fit the bytes of a count.
    #[error("the count of line {0} does not fit its bytes")]
    TooGreat(u64),
    /// A write or the flush of the prefix file failed, or a write took nothing.
    #[error("cannot write the prefix file")]
    WritePrefix,
    /// A write or the flush of the suffix file failed, or a write took nothing.
    #[error("cannot write the suffix file")]
    WriteSuffix,
    /// Memory was refused.
    #[error("out of memory")]
    Memory,
    /// The dump has 2^64 - 2 lines or more: so many are not counted.
    #[error("too many lines")]
    TooLong,
}

impl PackError {
    ghost use Rattle.kmc_database.specs.RefusalNumbers.{number_of_pack_error};

    /// The number of the refusal, as docs/REFUSALS.md lists it.
    pub fn number(&self) -> u8
        ensures { result ≡ number_of_pack_error self.now }
    {
        match self {
            PackError::Source(_) => 1,
            PackError::Empty => 2,
            PackError::Prefix(_) => 3,
            PackError::TooGreat(_) => 4,
            PackError::WritePrefix => 5,
            PackError::WriteSuffix => 6,
            PackError::Memory => 7,
            PackError::TooLong => 8,
        }
    }
}

impl From<SourceError> for PackError {
    ghost from_gives = { λ e p. p ≡ Source e.fault };

    fn from(error: SourceError) -> PackError {
        PackError::Source(error.fault)
    }
}
