//! Why workers end without their result.
ghost use Rattle.std.specs.Prelude.{◌≡◌, Ok, Err};
ghost use Rattle.kmc_partqueue.specs.Causes.{both, earlier, told};
ghost use Rattle.kmc_partqueue.specs.declared.refusal.GivenUp.TheVariants.{Memory};

use std::alloc::{AllocError, AllocFailed};
use thiserror::Error;

/// Why the workers end without their result.
#[derive(Clone, Copy, Debug, Error)]
pub enum Refusal {
    /// A growth or the start of a thread was refused.
    #[error("out of memory")]
    Memory,
    /// A writer has put as many parts as have numbers.
    #[error("part numbers spent")]
    NumbersSpent,
}

impl Refusal {
    ghost use Rattle.kmc_partqueue.specs.RefusalNumbers.{number_of_refusal};

    /// The number of the refusal, as docs/REFUSALS.md lists it.
    pub fn number(&self) -> u8
        ensures { result ≡ number_of_refusal self.now }
    {
        match self {
            Refusal::Memory => 1,
            Refusal::NumbersSpent => 6,
        }
    }
}

/// Why one worker ends without its result.
#[derive(Clone, Copy)]
pub enum GivenUp {
    /// A growth or the start of a thread was refused.
    Memory,
    /// The writer has put as many parts as have numbers.
    NumbersSpent,
    /// Another worker was refused, and this one was told to stop.
    Stopped,
}

impl GivenUp {
    /// Of two refusals the one that is answered: want of memory before spent numbers, and either before a stop.
    fn or(self, other: GivenUp) -> GivenUp
        ensures { result ≡ earlier self other }
    {
        match (self, other) {
            (GivenUp::Memory, _) | (_, GivenUp::Memory) => GivenUp::Memory,
            (GivenUp::NumbersSpent, _) | (_, GivenUp::NumbersSpent) => GivenUp::NumbersSpent,
            (GivenUp::Stopped, GivenUp::Stopped) => GivenUp::Stopped,
        }
    }

    /// What callers are told: a stop that has no other cause is want of memory.
    pub fn told(self) -> Refusal
        ensures { result ≡ told self }
    {
        match self {
            GivenUp::Memory | GivenUp::Stopped => Refusal::Memory,
            GivenUp::NumbersSpent => Refusal::NumbersSpent,
        }
    }
}

/// What two workers hand back, or of their refusals the one that is answered.
pub fn both<A: Drop, B: Drop>(
    first: Result<A, GivenUp>,
    second: Result<B, GivenUp>,
) -> Result<(A, B), GivenUp>
    ensures { result ≡ both first second }
{
    match (first, second) {
        (Ok(a), Ok(b)) => Ok((a, b)),
        (Ok(_), Err(cause)) => Err(cause),
        (Err(cause), Ok(_)) => Err(cause),
        (Err(cause), Err(other)) => Err(cause.or(other)),
    }
}

impl From<AllocError> for GivenUp {
    ghost from_gives = { λ _ e. e ≡ Memory };

    fn from(_: AllocError) -> GivenUp {
        GivenUp::Memory
    }
}

impl<T: Drop> From<AllocFailed<T>> for GivenUp {
    ghost from_gives = { λ _ e. e ≡ Memory };

    fn from(_: AllocFailed<T>) -> GivenUp {
        GivenUp::Memory
    }
}

impl From<AllocError> for Refusal {
    ghost use Rattle.kmc_partqueue.specs.declared.refusal.Refusal.TheVariants.{Memory};

    ghost from_gives = { λ _ e. e ≡ Memory };

    fn from(_: AllocError) -> Refusal {
        Refusal::Memory
    }
}
