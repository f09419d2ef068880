//! What the words of a command line ask of a program that takes options and names of files.
ghost use Rattle.std.specs.Prelude.{◌≡◌, ℕ, IfOk, IsErrOf, map, string_bytes};
ghost use Rattle.kmc_options.specs.declared.setting.Setting.{Setting};
ghost use Rattle.kmc_options.specs.Requests.{AsksForFiles, IsFilesRequest, IsOutOfRange};

use crate::command_line::settings;
use crate::error::ParamsError;
use crate::program::Program;
use crate::run_params::Params;
use crate::slices::sorting::{SortedWords, sorted_words};
use std::alloc::Global;

/// The settings that the options give, and the names of files, in the order of the words.
#[derive(Drop)]
pub struct FilesRequest {
    pub params: Params,
    pub files: Vec<String>,
}

/// What the words ask of a program that takes options and the names of 1 to `most` files. Usage is judged first: a word is no option
/// of this program, an option is given twice or without its value, or there is no file or there are too many; then the options
/// (OutOfRange), in the order of the program's table.
pub fn files_request(
    alloc: Global,
    program: Program,
    most: usize,
    words: Vec<String>,
) -> Result<FilesRequest, ParamsError>
    ensures asked { IfOk result (λ r. IsFilesRequest program most (map string_bytes words.items)
        r.params (map string_bytes r.files.items)) }
    ensures usage { IsErrOf result ParamsError.Usage → AsksForFiles program most (map string_bytes words.items) → ⊥ }
    ensures range { (s : Setting) → IsErrOf result (ParamsError.OutOfRange s)
        → AsksForFiles program most (map string_bytes words.items)
        × IsOutOfRange program (map string_bytes words.items) s }
{
    let SortedWords {
        names,
        slices,
        others,
        force,
    } = sorted_words(alloc, words)?;
    let count = names.len();
    if count == 0 || count > most || slices.len() > 0 || force {
        return Err(ParamsError::Usage);
    }
    match settings(alloc, program, others) {
        Ok(params) => Ok(FilesRequest {
            params,
            files: names,
        }),
        Err(error) => Err(error),
    }
}
