//! What a fault of the listing shows its user: one line on standard error, and the exit status.
ghost use Rattle.std.specs.Prelude.{◌≡◌, Some, map, string_bytes};
ghost use Rattle.kmc_slices.specs.ListProgram.{is_misuse, is_unwritten};
ghost use Rattle.kmc_slices.specs.Messages.{message_of_list};

use crate::listing::ListError;
use crate::programs::foreign::Foreign;
use kmc_options::{Ending, ListRequestError, name_at};
use kmc_slice_files::SliceFault;
use std::fmt;

/// Why the program ends without its dump. The files are numbered from 0, in the order of the words.
#[derive(Clone, Copy, Debug, PartialEq, Eq)]
pub enum ListFault {
    /// The words ask for nothing.
    Request(ListRequestError),
    /// This file cannot be opened.
    NotOpened(usize),
    /// The first fault of this file.
    File(usize, SliceFault),
    /// The records were not listed.
    Dump(ListError),
}

impl ListFault {
    ghost use Rattle.kmc_slices.specs.ProgramNumbers.{number_of_list_fault};

    /// The number of the refusal, as docs/REFUSALS.md lists it.
    pub fn number(&self) -> u8
        ensures { result ≡ number_of_list_fault self.now }
    {
        match self {
            ListFault::Request(_) => 1,
            ListFault::NotOpened(_) => 2,
            ListFault::File(_, _) => 3,
            ListFault::Dump(_) => 4,
        }
    }
}

/// The line that tells the user of a fault, with the names of the files as they were given.
#[derive(Clone, Copy)]
pub struct ListMessage<'a> {
    pub files: &'a [String],
    pub fault: ListFault,
}

/// The line of words that ask for nothing.
pub(crate) fn unnamed<'a>(error: ListRequestError) -> ListMessage<'a>
    ensures { result.fault ≡ ListFault.Request error }
{
    let fault = ListFault::Request(error);
    ListMessage { files: &[], fault }
}

impl Ending for ListMessage<'_> {
    ghost misused = { λ m. is_misuse m.fault };

    ghost unwritten = { λ m. is_unwritten m.fault };

    fn is_misuse(&self) -> bool {
        match self.fault {
            ListFault::Request(ListRequestError::Memory) => false,
            ListFault::Request(_) => true,
            _ => false,
        }
    }

    fn is_unwritten(&self) -> bool {
        match self.fault {
            ListFault::Dump(ListError::Write) => true,
            _ => false,
        }
    }
}

impl fmt::Display for ListMessage<'_> {
    ghost output = { λ m. Some (message_of_list (map string_bytes m.files.now) m.fault) };

    fn fmt<W: fmt::Write>(&self, f: &mut fmt::Formatter<W>) -> fmt::Result {
        match self.fault {
            ListFault::Request(error) => write!(f, "{error}"),
            ListFault::NotOpened(i) => {
                let name = name_at(self.files, i);
                write!(f, "kmc_list: {name}: cannot be opened")
            }
            ListFault::File(i, fault) => {
                let name = name_at(self.files, i);
                write!(f, "kmc_list: {name}: {fault}")
            }
            ListFault::Dump(ListError::Foreign(fault)) => {
                let what = Foreign(fault);
                write!(f, "kmc_list: {what}")
            }
            ListFault::Dump(ListError::Memory) => write!(f, "kmc_list: out of memory"),
            ListFault::Dump(ListError::Write) => write!(f, "kmc_list: cannot write"),
        }
    }
}
