//! Why a body is not that of a part.
ghost use Rattle.std.specs.Prelude.{◌≡◌};

use crate::fault::RecordFault;
use thiserror::Error;

/// Why a body is not that of a part: its first fault, in the order of the body.
#[derive(Clone, Copy, Debug, PartialEq, Eq, Error)]
pub enum PartError {
    /// A record is damaged: its fault and where it begins.
    #[error("record at byte {1}: {0}")]
    Damaged(RecordFault, usize),
    /// A record has a word of another bin: where it begins.
    #[error("record at byte {0}: a word of another bin")]
    WrongBin(usize),
    /// A growth was refused to a caller who judges bodies. To judge one body wants no memory.
    #[error("out of memory")]
    Memory,
}

impl PartError {
    ghost use Rattle.kmc_record.specs.PartNumbers.{number_of_part_error};

    /// The number of the refusal, as docs/REFUSALS.md lists it.
    pub fn number(&self) -> u8
        ensures { result ≡ number_of_part_error self.now }
    {
        match self {
            PartError::Damaged(_, _) => 1,
            PartError::WrongBin(_) => 2,
            PartError::Memory => 3,
        }
    }
}
