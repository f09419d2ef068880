//! Why words are not looked up in a database.
ghost use Rattle.std.specs.Prelude.{◌≡◌};

use crate::look_up_error::LookUpError;
use crate::open_error::OpenError;
use kmc_join::QueryError;

/// Why words are not looked up in a database. It is opened first, then the words are read, then they are looked up.
#[derive(Clone, Copy, Debug, PartialEq, Eq)]
pub enum SearchError {
    /// The database is not opened.
    Open(OpenError),
    /// Each strand was asked for by itself, and the database counts a word and its reverse complement together.
    OneStrand,
    /// A read of the words failed, a line of them is at fault, or memory was refused.
    Words(QueryError),
    /// The words are not as long as those of the database.
    OtherLength,
    /// A word is not looked up.
    LookUp(LookUpError),
    /// A write or the flush failed, or a write took nothing.
    Write,
}

impl SearchError {
    ghost use Rattle.kmc_database.specs.RefusalNumbers.{number_of_search_error};

    /// The number of the refusal, as docs/REFUSALS.md lists it.
    pub fn number(&self) -> u8
        ensures { result ≡ number_of_search_error self.now }
    {
        match self {
            SearchError::Open(_) => 1,
            SearchError::OneStrand => 2,
            SearchError::Words(_) => 3,
            SearchError::OtherLength => 4,
            SearchError::LookUp(_) => 5,
            SearchError::Write => 6,
        }
    }
}
