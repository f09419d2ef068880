//! What the words of a command line ask of the program that lists.
ghost use Rattle.std.specs.Prelude.{◌≡◌, IfOk, IsErrOf, map, string_bytes};
ghost use Rattle.kmc_options.specs.declared.setting.Setting.{Setting};
ghost use Rattle.kmc_options.specs.Requests.{AsksForList, IsListRequest, IsOutOfRange};

use crate::error::ParamsError;
use crate::program::Program;
use crate::run_params::Params;
use crate::setting::Setting;
use crate::slices::files::{FilesRequest, files_request};
use std::alloc::Global;

/// The most files of one slice.
pub const MOST_FILES: usize = 100_000;

/// What is asked for: the dump of the records of these files of one slice, by the limits, the strands and the threads of these
/// settings. How the reads were cut stands in the files.
#[derive(Drop)]
pub struct ListRequest {
    pub params: Params,
    pub files: Vec<String>,
}

/// Why the words ask for no list. Usage is judged first, then the options in the order of kmc.
#[derive(Clone, Copy, Debug, PartialEq, Eq)]
pub enum ListRequestError {
    /// A word is no option of this program, an option is given twice or without its value, or there is no file or more than 100,000.
    Usage,
    /// The value of this option is no number, or out of its range.
    OutOfRange(Setting),
    /// Memory was refused.
    Memory,
}

impl ListRequestError {
    ghost use Rattle.kmc_options.specs.SliceRequestNumbers.{number_of_list_request_error};

    /// The number of the refusal, as docs/REFUSALS.md lists it.
    pub fn number(&self) -> u8
        ensures { result ≡ number_of_list_request_error self.now }
    {
        match self {
            ListRequestError::Usage => 1,
            ListRequestError::OutOfRange(_) => 2,
            ListRequestError::Memory => 3,
        }
    }
}

/// What the words ask for.
pub fn list_request(alloc: Global, words: Vec<String>) -> Result<ListRequest, ListRequestError>
    ensures asked { IfOk result (IsListRequest (map string_bytes words.items)) }
    ensures usage { IsErrOf result ListRequestError.Usage → AsksForList (map string_bytes words.items) → ⊥ }
    ensures range { (s : Setting) → IsErrOf result (ListRequestError.OutOfRange s)
        → AsksForList (map string_bytes words.items) × IsOutOfRange Program.KmcList (map string_bytes words.items) s }
{
    match files_request(alloc, Program::KmcList, MOST_FILES, words) {
        Ok(FilesRequest { params, files }) => Ok(ListRequest { params, files }),
        Err(ParamsError::Usage) => Err(ListRequestError::Usage),
        Err(ParamsError::OutOfRange(setting)) => Err(ListRequestError::OutOfRange(setting)),
        Err(ParamsError::Memory) => Err(ListRequestError::Memory),
    }
}
