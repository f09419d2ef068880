//! Why lists are not packed.
ghost use Rattle.std.specs.Prelude.{◌≡◌};

use thiserror::Error;

/// Why lists are not packed.
#[derive(Clone, Copy, Debug, PartialEq, Eq, Error)]
pub enum PackListsError {
    /// A count does not fit the bytes of a count.
    #[error("a k-mer occurs more often than the bytes of a count tell")]
    TooGreat,
    /// A write or the flush of the prefix file failed, or a write took nothing.
    #[error("cannot write the prefix file")]
    WritePrefix,
    /// A write or the flush of the suffix file failed, or a write took nothing.
    #[error("cannot write the suffix file")]
    WriteSuffix,
    /// Memory was refused.
    #[error("out of memory")]
    Memory,
}

impl PackListsError {
    ghost use Rattle.kmc_packer.specs.RefusalNumbers.{number_of_pack_lists_error};

    /// The number of the refusal, as crates/REFUSALS.md lists it.
    pub fn number(&self) -> u8
        ensures { result ≡ number_of_pack_lists_error self.now }
    {
        match self {
            PackListsError::TooGreat => 1,
            PackListsError::WritePrefix => 2,
            PackListsError::WriteSuffix => 3,
            PackListsError::Memory => 4,
        }
    }
}
