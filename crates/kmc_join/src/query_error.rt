//! Why a query is given up.
ghost use Rattle.std.specs.Prelude.{◌≡◌};

use kmc_sum::SourceFault;

/// Why a query is given up. The words are read first, then the dump; lines are numbered from 1.
#[derive(Clone, Copy, Debug, PartialEq, Eq)]
pub enum QueryError {
    /// A read of the words failed.
    ReadWords,
    /// This line of the words is none of 1 to 64 letters A, C, G, T and a line feed, and those before it are.
    NoWord(u64),
    /// The word of this line is not as long as those before it.
    OtherLength(u64),
    /// The words are not as long as the word of the dump's first line.
    Unlike,
    /// A read of the dump failed, or a line of it is at fault: the first one.
    Dump(SourceFault),
    /// A write or the flush failed, or a write took nothing.
    Write,
    /// Memory was refused. Nothing was read of the dump.
    Memory,
    /// The dump has 2^64 - 2 lines or more.
    TooLong,
}

impl QueryError {
    ghost use Rattle.kmc_join.specs.RefusalNumbers.{number_of_query_error};

    /// The number of the refusal, as docs/REFUSALS.md lists it.
    pub fn number(&self) -> u8
        ensures { result ≡ number_of_query_error self.now }
    {
        match self {
            QueryError::ReadWords => 1,
            QueryError::NoWord(_) => 2,
            QueryError::OtherLength(_) => 3,
            QueryError::Unlike => 4,
            QueryError::Dump(_) => 5,
            QueryError::Write => 6,
            QueryError::Memory => 7,
            QueryError::TooLong => 8,
        }
    }
}
