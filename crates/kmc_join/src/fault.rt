//! What a fault shows its user: one line on standard error, and the exit status.
ghost use Rattle.std.specs.Prelude.{◌≡◌, Some, map, string_bytes};
ghost use Rattle.kmc_join.specs.Messages.{is_misuse, is_unwritten, message_of};
ghost use Rattle.kmc_join.specs.declared.fault.JoinFault.TheVariants.{Join};
ghost use Rattle.kmc_sum.specs.declared.error.SumError.TheVariants.{Memory};

use crate::query_error::QueryError;
use crate::query_message::QueryMessage;
use crate::request::JoinRequestError;
use kmc_options::{Ending, name_at};
use kmc_sum::SumError;
use std::alloc::AllocError;
use std::fmt;

/// Why the program ends without what it was asked for. The files are numbered from 0, in the order of the words.
#[derive(Clone, Copy, Debug, PartialEq, Eq)]
pub enum JoinFault {
    /// The words ask for nothing.
    Request(JoinRequestError),
    /// This file cannot be opened.
    NotOpened(usize),
    /// The join of the files, or the histogram of one, was given up.
    Join(SumError),
    /// The query of the first file was given up.
    Query(QueryError),
}

impl JoinFault {
    ghost use Rattle.kmc_join.specs.RefusalNumbers.{number_of_fault};

    /// The number of the refusal, as docs/REFUSALS.md lists it.
    pub fn number(&self) -> u8
        ensures { result ≡ number_of_fault self.now }
    {
        match self {
            JoinFault::Request(_) => 1,
            JoinFault::NotOpened(_) => 2,
            JoinFault::Join(_) => 3,
            JoinFault::Query(_) => 4,
        }
    }
}

impl From<AllocError> for JoinFault {
    ghost from_gives = { λ _ f. f ≡ Join Memory };

    fn from(_: AllocError) -> JoinFault {
        JoinFault::Join(SumError::Memory)
    }
}

/// The line that tells the user of a fault, with the names of the files as they were given.
#[derive(Clone, Copy)]
pub struct Message<'a> {
    pub files: &'a [String],
    pub fault: JoinFault,
}

/// The line of a fault that is none of a file.
pub(crate) fn unnamed<'a>(fault: JoinFault) -> Message<'a>
    ensures { result.fault ≡ fault }
{
    Message { files: &[], fault }
}

impl Ending for Message<'_> {
    ghost misused = { λ m. is_misuse m.fault };

    ghost unwritten = { λ m. is_unwritten m.fault };

    fn is_misuse(&self) -> bool {
        match self.fault {
            JoinFault::Request(JoinRequestError::Memory) => false,
            JoinFault::Request(_) => true,
            JoinFault::NotOpened(_) | JoinFault::Join(_) | JoinFault::Query(_) => false,
        }
    }

    fn is_unwritten(&self) -> bool {
        match self.fault {
            JoinFault::Join(SumError::Write) | JoinFault::Query(QueryError::Write) => true,
            _ => false,
        }
    }
}

impl fmt::Display for Message<'_> {
    ghost output = { λ m. Some (message_of (map string_bytes m.files.now) m.fault) };

    fn fmt<W: fmt::Write>(&self, f: &mut fmt::Formatter<W>) -> fmt::Result {
        match self.fault {
            JoinFault::Request(error) => write!(f, "{error}"),
            JoinFault::NotOpened(source) => {
                let name = name_at(self.files, source);
                write!(f, "kmc_db: {name}: cannot be opened")
            }
            JoinFault::Join(SumError::Source(error)) => {
                let name = name_at(self.files, error.source);
                let fault = error.fault;
                write!(f, "kmc_db: {name}: {fault}")
            }
            JoinFault::Join(SumError::Write) => write!(f, "kmc_db: cannot write"),
            JoinFault::Join(SumError::Memory) => write!(f, "kmc_db: out of memory"),
            JoinFault::Join(SumError::TooLong) => write!(f, "kmc_db: too many lines"),
            JoinFault::Query(error) => {
                let dump = name_at(self.files, 0);
                let told = QueryMessage { dump, error };
                write!(f, "{told}")
            }
        }
    }
}
