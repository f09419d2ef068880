//! What the words of a command line ask for: an operation, limits of the result and of each file, and the names of two files.
ghost use Rattle.std.specs.Prelude.{◌≡◌, Some, MatchResult, map, string_bytes};
ghost use Rattle.kmc_join.specs.Messages.{text_of_request_error};
ghost use Rattle.kmc_join.specs.Request.{IsRequest, Explains};
ghost use Rattle.kmc_join.specs.declared.request.JoinRequestError.TheVariants.{Memory};

use crate::range_words::{left_range, right_range};
use crate::rule::JoinRule;
use crate::words::{ChoiceWords, choice_words, operation_named};
use kmc_count::Limits;
use kmc_options::{FilesRequest, Named, ParamsError, Program, Setting, files_request};
use std::alloc::{AllocError, Global};
use std::fmt;

/// The operation with the counts that it takes of each file, the limits of its result, and the names of the two files, in the order of the
/// words.
#[derive(Drop)]
pub struct JoinRequest {
    pub rule: JoinRule,
    pub limits: Limits,
    pub files: Vec<String>,
}

/// Why the words ask for nothing. Their form is judged first, then the options in the order -ci, -cx, -cs, then the operation, the number
/// of files and the limits of each file.
#[derive(Clone, Copy, Debug, PartialEq, Eq)]
pub enum JoinRequestError {
    /// A word is no option, an option is given twice or without its value, a limit of one file is no number or out of its range, there is
    /// no such operation or choice, or there are not two files.
    Usage,
    /// The value of this option is no number, or out of the option's range.
    OutOfRange(Setting),
    /// Memory for the words was refused. It says nothing of them.
    Memory,
}

impl JoinRequestError {
    ghost use Rattle.kmc_join.specs.RefusalNumbers.{number_of_request_error};

    /// The number of the refusal, as docs/REFUSALS.md lists it.
    pub fn number(&self) -> u8
        ensures { result ≡ number_of_request_error self.now }
    {
        match self {
            JoinRequestError::Usage => 1,
            JoinRequestError::OutOfRange(_) => 2,
            JoinRequestError::Memory => 3,
        }
    }
}

impl From<AllocError> for JoinRequestError {
    ghost from_gives = { λ _ e. e ≡ Memory };

    fn from(_: AllocError) -> JoinRequestError {
        JoinRequestError::Memory
    }
}

impl fmt::Display for JoinRequestError {
    ghost output = { λ e. Some (text_of_request_error e) };

    fn fmt<W: fmt::Write>(&self, f: &mut fmt::Formatter<W>) -> fmt::Result {
        match self {
            JoinRequestError::Usage => f.write_str(Program::KmcDb.usage()),
            JoinRequestError::OutOfRange(setting) => {
                let name = setting.name();
                write!(f, "kmc_db: value of -{name} is out of range")
            }
            JoinRequestError::Memory => write!(f, "kmc_db: out of memory"),
        }
    }
}

/// The most words that are no options: an operation and two files.
const MOST_NAMES: usize = 3;

/// What the words ask for: an operation by its name, a choice by `-oc<choice>`, limits of the result by `-ci<n>`, `-cx<n>` and `-cs<n>`, or
/// these three in long form, limits of the first file by `-lci<n>` and `-lcx<n>` and of the second by `-rci<n>` and `-rcx<n>`, each at most
/// once, and the names of two files.
pub fn asked_for(alloc: Global, words: Vec<String>) -> Result<JoinRequest, JoinRequestError>
    ensures { let texts = map string_bytes words.items in MatchResult result
        (λ r. IsRequest texts r.rule r.limits (map string_bytes r.files.items))
        (Explains texts) }
{
    let left = left_range(alloc, &words)?;
    let right = right_range(alloc, &words)?;
    let ChoiceWords { choices, others } = choice_words(alloc, words)?;
    let FilesRequest { params, files } = match files_request(
        alloc,
        Program::KmcDb,
        MOST_NAMES,
        others,
    ) {
        Ok(asked) => asked,
        Err(ParamsError::Usage) => return Err(JoinRequestError::Usage),
        Err(ParamsError::OutOfRange(setting)) => return Err(JoinRequestError::OutOfRange(setting)),
        Err(ParamsError::Memory) => return Err(JoinRequestError::Memory),
    };
    let mut files = files;
    if files.len() != MOST_NAMES {
        return Err(JoinRequestError::Usage);
    }
    let name = files.remove(0);
    let Some(operation) = operation_named(&name, &choices) else {
        return Err(JoinRequestError::Usage);
    };
    let (Some(left), Some(right)) = (left, right) else {
        return Err(JoinRequestError::Usage);
    };
    Ok(JoinRequest {
        rule: JoinRule {
            operation,
            left,
            right,
        },
        limits: params.limits,
        files,
    })
}
