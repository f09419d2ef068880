//! What a fault of the cutting shows its user: one line on standard error, and the exit status.
ghost use Rattle.std.specs.Prelude.{◌≡◌, Some, false};
ghost use Rattle.kmc_slices.specs.CutProgram.{is_misuse};
ghost use Rattle.kmc_slices.specs.Messages.{message_of_cut};

use crate::error::CutError;
use kmc_options::{CutRequestError, Ending};
use kmc_reads::ReadsMessage;
use kmc_slice_files::CreateFault;
use std::fmt;

/// Why the program ends without whole files.
#[derive(Clone, Copy, Debug, PartialEq, Eq)]
pub enum CutFault {
    /// The words ask for nothing.
    Request(CutRequestError),
    /// A file cannot be made, or memory for them was refused.
    NotMade(CreateFault),
    /// The reads were not cut.
    Cut(CutError),
}

impl CutFault {
    ghost use Rattle.kmc_slices.specs.ProgramNumbers.{number_of_cut_fault};

    /// The number of the refusal, as docs/REFUSALS.md lists it.
    pub fn number(&self) -> u8
        ensures { result ≡ number_of_cut_fault self.now }
    {
        match self {
            CutFault::Request(_) => 1,
            CutFault::NotMade(_) => 2,
            CutFault::Cut(_) => 3,
        }
    }
}

/// The line that tells the user of a fault, with the prefix of the files as it was given.
#[derive(Clone, Copy)]
pub struct CutMessage<'a> {
    pub prefix: &'a str,
    pub fault: CutFault,
}

/// The line of words that ask for nothing.
pub(crate) fn unnamed<'a>(error: CutRequestError) -> CutMessage<'a>
    ensures { result.fault ≡ CutFault.Request error }
{
    let fault = CutFault::Request(error);
    CutMessage { prefix: "", fault }
}

impl Ending for CutMessage<'_> {
    ghost misused = { λ m. is_misuse m.fault };

    ghost unwritten = { λ _. false };

    fn is_misuse(&self) -> bool {
        match self.fault {
            CutFault::Request(CutRequestError::Memory) => false,
            CutFault::Request(_) => true,
            CutFault::NotMade(_) | CutFault::Cut(_) => false,
        }
    }

    /// The program writes to files that it makes.
    fn is_unwritten(&self) -> bool {
        false
    }
}

impl fmt::Display for CutMessage<'_> {
    ghost output = { λ m. Some (message_of_cut m.prefix.now m.fault) };

    fn fmt<W: fmt::Write>(&self, f: &mut fmt::Formatter<W>) -> fmt::Result {
        let prefix = self.prefix;
        match self.fault {
            CutFault::Request(error) => write!(f, "{error}"),
            CutFault::NotMade(CreateFault::File(s)) => {
                write!(
                    f,
                    "kmc_cut: {prefix}.{s}: cannot be made; one that is there is written over with --force alone"
                )
            }
            CutFault::NotMade(CreateFault::Memory) => write!(f, "kmc_cut: out of memory"),
            CutFault::Cut(CutError::Memory) => write!(f, "kmc_cut: out of memory"),
            CutFault::Cut(CutError::Read) => write!(f, "kmc_cut: read failed"),
            CutFault::Cut(CutError::Write(s)) => {
                write!(f, "kmc_cut: {prefix}.{s}: cannot be written")
            }
            CutFault::Cut(CutError::Input(error)) => {
                let why = ReadsMessage(error);
                write!(f, "kmc_cut: {why}")
            }
            CutFault::Cut(CutError::TooLong) => write!(f, "kmc_cut: input too long"),
        }
    }
}
