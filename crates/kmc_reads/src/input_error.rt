//! Why an input was not read to its end.
ghost use Rattle.std.specs.Prelude.{◌≡◌};
ghost use Rattle.kmc_reads.specs.Errors.{input_error};
ghost use Rattle.kmc_reads.specs.declared.input_error.InputError.TheVariants.{Memory};

use crate::error::ReadsError;
use std::alloc::AllocError;
use thiserror::Error;

/// Why an input was not read to its end. Of several causes the one that is met first is answered.
#[derive(Clone, Copy, Debug, PartialEq, Eq, Error)]
pub enum InputError {
    /// A growth or the start of a thread was refused.
    #[error("out of memory")]
    Memory,
    /// A read failed, of whatever kind.
    #[error("read failed")]
    Read,
    /// The text is no list of reads; never for want of memory.
    #[error("{0}")]
    Faulty(ReadsError),
    /// 2^32 reads gave bytes.
    #[error("input too long")]
    TooLong,
}

impl InputError {
    ghost use Rattle.kmc_reads.specs.InputNumbers.{number_of_input_error};

    /// The number of the refusal, as docs/REFUSALS.md lists it.
    pub fn number(&self) -> u8
        ensures { result ≡ number_of_input_error self.now }
    {
        match self {
            InputError::Memory => 1,
            InputError::Read => 2,
            InputError::Faulty(_) => 4,
            InputError::TooLong => 5,
        }
    }
}

impl From<AllocError> for InputError {
    ghost from_gives = { λ _ e. e ≡ Memory };

    fn from(_: AllocError) -> InputError {
        InputError::Memory
    }
}

impl From<ReadsError> for InputError {
    ghost from_gives = { λ error e. e ≡ input_error error };

    fn from(error: ReadsError) -> InputError {
        if error == ReadsError::Memory {
            return InputError::Memory;
        }
        InputError::Faulty(error)
    }
}
