//! Why bodies from outside are no bins.
ghost use Rattle.std.specs.Prelude.{◌≡◌};

use kmc_record::PartError;
use thiserror::Error;

/// The first bin whose body is not records of that bin, and why: the body's first fault, never want of memory.
#[derive(Clone, Copy, Debug, PartialEq, Eq, Error)]
#[error("bin {bin}: {why}")]
pub struct BinFault {
    pub bin: usize,
    pub why: PartError,
}

/// Why bodies are no bins of a shape.
#[derive(Clone, Copy, Debug, PartialEq, Eq, Error)]
pub enum JudgeError {
    /// The first bin whose body is not records of that bin, and why.
    #[error("{0}")]
    Foreign(BinFault),
    /// A growth was refused. Every body is records of its bin.
    #[error("out of memory")]
    Memory,
}

impl JudgeError {
    ghost use Rattle.kmc_slices.specs.RefusalNumbers.{number_of_judge_error};

    /// The number of the refusal, as docs/REFUSALS.md lists it.
    pub fn number(&self) -> u8
        ensures { result ≡ number_of_judge_error self.now }
    {
        match self {
            JudgeError::Foreign(_) => 1,
            JudgeError::Memory => 2,
        }
    }
}
