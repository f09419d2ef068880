//! Why a run gave up.
ghost use Rattle.std.specs.Prelude.{◌≡◌};
ghost use Rattle.kmc_options.specs.Errors.{run_error};

use kmc_reads::{InputError, ReadsError};
use thiserror::Error;

/// Why a run gave up. Of several causes the one that is met first is answered.
#[derive(Clone, Copy, Debug, PartialEq, Eq, Error)]
pub enum RunError {
    /// A growth or the start of a thread was refused.
    #[error("out of memory")]
    Memory,
    /// A read failed, of whatever kind.
    #[error("read failed")]
    Read,
    /// A write or the flush failed, or a write took nothing of what was left.
    #[error("write failed")]
    Write,
    /// The text is no list of reads; never for want of memory.
    #[error("{0}")]
    Input(ReadsError),
    /// 2^32 reads gave bytes.
    #[error("input too long")]
    TooLong,
}

impl RunError {
    ghost use Rattle.kmc_options.specs.RefusalNumbers.{number_of_run_error};

    /// The number of the refusal, as docs/REFUSALS.md lists it.
    pub fn number(&self) -> u8
        ensures { result ≡ number_of_run_error self.now }
    {
        match self {
            RunError::Memory => 1,
            RunError::Read => 2,
            RunError::Write => 3,
            RunError::Input(_) => 4,
            RunError::TooLong => 5,
        }
    }
}

impl From<InputError> for RunError {
    ghost from_gives = { λ error e. e ≡ run_error error };

    fn from(error: InputError) -> RunError {
        match error {
            InputError::Memory => RunError::Memory,
            InputError::Read => RunError::Read,
            InputError::Faulty(fault) => RunError::Input(fault),
            InputError::TooLong => RunError::TooLong,
        }
    }
}
