//! What a fault shows its user: one line on standard error, and the exit status.
ghost use Rattle.std.specs.Prelude.{◌≡◌, Some, map, string_bytes};
ghost use Rattle.kmc_sum.specs.Messages.{is_misuse, is_unwritten, message_of};
ghost use Rattle.kmc_sum.specs.declared.error.SumError.TheVariants.{Memory};
ghost use Rattle.kmc_sum.specs.declared.fault.Fault.TheVariants.{Sum};

use crate::error::SumError;
use crate::request::RequestError;
use kmc_options::{Ending, name_at};
use std::alloc::AllocError;
use std::fmt;

/// Why the program ends without its dump. The files are numbered from 0, in the order of the words.
#[derive(Clone, Copy, Debug, PartialEq, Eq)]
pub enum Fault {
    /// The words ask for nothing.
    Request(RequestError),
    /// This file cannot be opened.
    NotOpened(usize),
    /// The merge of the files was given up.
    Sum(SumError),
}

impl Fault {
    ghost use Rattle.kmc_sum.specs.RefusalNumbers.{number_of_fault};

    /// The number of the refusal, as docs/REFUSALS.md lists it.
    pub fn number(&self) -> u8
        ensures { result ≡ number_of_fault self.now }
    {
        match self {
            Fault::Request(_) => 1,
            Fault::NotOpened(_) => 2,
            Fault::Sum(_) => 3,
        }
    }
}

impl From<AllocError> for Fault {
    ghost from_gives = { λ _ f. f ≡ Sum Memory };

    fn from(_: AllocError) -> Fault {
        Fault::Sum(SumError::Memory)
    }
}

/// The line that tells the user of a fault, with the names of the files as they were given.
#[derive(Clone, Copy)]
pub struct Message<'a> {
    pub files: &'a [String],
    pub fault: Fault,
}

/// The line of a fault that is none of a file.
pub(crate) fn unnamed<'a>(fault: Fault) -> Message<'a>
    ensures { result.fault ≡ fault }
{
    Message { files: &[], fault }
}

impl Ending for Message<'_> {
    ghost misused = { λ m. is_misuse m.fault };

    ghost unwritten = { λ m. is_unwritten m.fault };

    fn is_misuse(&self) -> bool {
        match self.fault {
            Fault::Request(RequestError::Memory) => false,
            Fault::Request(_) => true,
            Fault::NotOpened(_) | Fault::Sum(_) => false,
        }
    }

    fn is_unwritten(&self) -> bool {
        match self.fault {
            Fault::Sum(SumError::Write) => true,
            _ => false,
        }
    }
}

impl fmt::Display for Message<'_> {
    ghost output = { λ m. Some (message_of (map string_bytes m.files.now) m.fault) };

    fn fmt<W: fmt::Write>(&self, f: &mut fmt::Formatter<W>) -> fmt::Result {
        match self.fault {
            Fault::Request(error) => write!(f, "{error}"),
            Fault::NotOpened(source) => {
                let name = name_at(self.files, source);
                write!(f, "kmc_merge: {name}: cannot be opened")
            }
            Fault::Sum(SumError::Source(error)) => {
                let name = name_at(self.files, error.source);
                let fault = error.fault;
                write!(f, "kmc_merge: {name}: {fault}")
            }
            Fault::Sum(SumError::Write) => write!(f, "kmc_merge: cannot write"),
            Fault::Sum(SumError::Memory) => write!(f, "kmc_merge: out of memory"),
            Fault::Sum(SumError::TooLong) => write!(f, "kmc_merge: too many lines"),
        }
    }
}
