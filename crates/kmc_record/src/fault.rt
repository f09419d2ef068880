//! What is wrong with bytes that should be records.
ghost use Rattle.std.specs.Prelude.{◌≡◌};

use std::alloc::AllocError;
use thiserror::Error;

/// What is wrong with the record that bytes should begin with, in the order of the tests.
#[derive(Clone, Copy, Debug, PartialEq, Eq, Error)]
pub enum RecordFault {
    /// There is no first byte, or fewer follow than it asks for.
    #[error("record cut short")]
    Short,
    /// A bit behind the last symbol is one.
    #[error("a bit behind the last symbol is one")]
    Padding,
}

impl RecordFault {
    ghost use Rattle.kmc_record.specs.RefusalNumbers.{number_of_record_fault};

    /// The number of the refusal, as docs/REFUSALS.md lists it.
    pub fn number(&self) -> u8
        ensures { result ≡ number_of_record_fault self.now }
    {
        match self {
            RecordFault::Short => 1,
            RecordFault::Padding => 2,
        }
    }
}

/// Why a body was not unpacked, or not counted.
#[derive(Clone, Copy, Debug, PartialEq, Eq, Error)]
pub enum BodyError {
    /// The first record that is damaged: its fault and where it begins.
    #[error("record at byte {1}: {0}")]
    Damaged(RecordFault, usize),
    /// A growth was refused.
    #[error("out of memory")]
    Memory,
    /// A bin was asked for, and the body is not that of the bin. [`count_words`](crate::belong::count_words) tells where, and why.
    #[error("not the records of the bin that is asked for")]
    WrongBin,
}

impl BodyError {
    ghost use Rattle.kmc_record.specs.RefusalNumbers.{number_of_body_error};

    /// The number of the refusal, as docs/REFUSALS.md lists it.
    pub fn number(&self) -> u8
        ensures { result ≡ number_of_body_error self.now }
    {
        match self {
            BodyError::Damaged(_, _) => 1,
            BodyError::Memory => 2,
            BodyError::WrongBin => 3,
        }
    }
}

impl From<AllocError> for BodyError {
    ghost use Rattle.kmc_record.specs.declared.fault.BodyError.TheVariants.{Memory};

    ghost from_gives = { λ _ e. e ≡ Memory };

    fn from(_: AllocError) -> BodyError {
        BodyError::Memory
    }
}
