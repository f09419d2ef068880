//! What the words of a command line ask for: limits and the names of files.
ghost use Rattle.std.specs.Prelude.{◌≡◌, Some, MatchResult, map, string_bytes};
ghost use Rattle.kmc_sum.specs.Messages.{text_of_request_error};
ghost use Rattle.kmc_sum.specs.Request.{IsRequest, Explains};

use kmc_count::Limits;
use kmc_options::{FilesRequest, Named, ParamsError, Program, Setting, files_request};
use std::alloc::Global;
use std::fmt;

/// The limits of a merge and the names of its files, in the order of the words.
#[derive(Drop)]
pub struct Request {
    pub limits: Limits,
    pub files: Vec<String>,
}

/// Why the words ask for nothing. Their form is judged first, and then the options in the order -ci, -cx, -cs.
#[derive(Clone, Copy, Debug, PartialEq, Eq)]
pub enum RequestError {
    /// A word is no option, an option is given twice or without its value, or there is no file or too many.
    Usage,
    /// The value of this option is no number, or out of the option's range.
    OutOfRange(Setting),
    /// Memory for the words was refused. It says nothing of them.
    Memory,
}

impl RequestError {
    ghost use Rattle.kmc_sum.specs.RefusalNumbers.{number_of_request_error};

    /// The number of the refusal, as docs/REFUSALS.md lists it.
    pub fn number(&self) -> u8
        ensures { result ≡ number_of_request_error self.now }
    {
        match self {
            RequestError::Usage => 1,
            RequestError::OutOfRange(_) => 2,
            RequestError::Memory => 3,
        }
    }
}

impl fmt::Display for RequestError {
    ghost output = { λ e. Some (text_of_request_error e) };

    fn fmt<W: fmt::Write>(&self, f: &mut fmt::Formatter<W>) -> fmt::Result {
        match self {
            RequestError::Usage => f.write_str(Program::KmcMerge.usage()),
            RequestError::OutOfRange(setting) => {
                let name = setting.name();
                write!(f, "kmc_merge: value of -{name} is out of range")
            }
            RequestError::Memory => write!(f, "kmc_merge: out of memory"),
        }
    }
}

/// What the words ask for: limits by `-ci<n>`, `-cx<n>` and `-cs<n>`, or these in long form, each at most once, and the names of 1 to
/// `most` files.
pub fn asked_for(alloc: Global, words: Vec<String>, most: usize) -> Result<Request, RequestError>
    ensures { let texts = map string_bytes words.items in MatchResult result
        (λ r. IsRequest most texts r.limits (map string_bytes r.files.items))
        (Explains most texts) }
{
    match files_request(alloc, Program::KmcMerge, most, words) {
        Ok(FilesRequest { params, files }) => Ok(Request {
            limits: params.limits,
            files,
        }),
        Err(ParamsError::Usage) => Err(RequestError::Usage),
        Err(ParamsError::OutOfRange(setting)) => Err(RequestError::OutOfRange(setting)),
        Err(ParamsError::Memory) => Err(RequestError::Memory),
    }
}
