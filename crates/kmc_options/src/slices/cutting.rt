//! What the words of a command line ask of the program that cuts.
ghost use Rattle.std.specs.Prelude.{◌≡◌, IfOk, IsErrOf, MatchOption, ℕ, map, string_bytes};
ghost use Rattle.kmc_options.specs.declared.setting.Setting.{Setting};
ghost use Rattle.kmc_options.specs.Requests.{AsksForCut, IsCutRequest, IsNumberOfSlices, IsOutOfRange, IsSlicesOutOfRange};
ghost use Rattle.kmc_options.specs.declared.slices.cutting.CutRequestError.TheVariants.{Memory};

use crate::command_line::settings;
use crate::digits::number;
use crate::error::ParamsError;
use crate::program::Program;
use crate::run_params::Params;
use crate::setting::Setting;
use crate::slices::sorting::{SortedWords, only, sorted_words};
use crate::slices::spelling::slices_text;
use std::alloc::{AllocError, Global};

/// The most slices that reads are cut into.
pub const MOST_SLICES: u64 = 1000;

/// What is asked for: the reads of standard input, cut by these settings into the records of so many slices, in files whose names
/// begin with the prefix.
#[derive(Drop)]
pub struct CutRequest {
    pub params: Params,
    /// 1 to 1000, and no more than there are bins.
    pub slices: u64,
    pub prefix: String,
    /// Whether files that exist may be written over.
    pub force: bool,
}

/// Why the words ask for no cut. Usage is judged first, then KMC's options in the order of kmc, then the slices.
#[derive(Clone, Copy, Debug, PartialEq, Eq)]
pub enum CutRequestError {
    /// A word is no option of this program, an option is given twice or without its value, or there is not one prefix and one number
    /// of slices.
    Usage,
    /// The value of this option is no number, or out of its range.
    OutOfRange(Setting),
    /// The number of slices is no number, or it is not from 1 to 1000, or there are fewer bins.
    Slices,
    /// Memory was refused.
    Memory,
}

impl CutRequestError {
    ghost use Rattle.kmc_options.specs.SliceRequestNumbers.{number_of_cut_request_error};

    /// The number of the refusal, as docs/REFUSALS.md lists it.
    pub fn number(&self) -> u8
        ensures { result ≡ number_of_cut_request_error self.now }
    {
        match self {
            CutRequestError::Usage => 1,
            CutRequestError::OutOfRange(_) => 2,
            CutRequestError::Slices => 3,
            CutRequestError::Memory => 4,
        }
    }
}

impl From<AllocError> for CutRequestError {
    ghost from_gives = { λ _ e. e ≡ Memory };

    fn from(_: AllocError) -> CutRequestError {
        CutRequestError::Memory
    }
}

/// The number of slices that a word gives.
fn number_of_slices(word: &str, bins: usize) -> Option<u64>
    ensures { MatchOption result ((n : ℕ) → IsNumberOfSlices word.now bins n → ⊥)
        (IsNumberOfSlices word.now bins) }
{
    let number = number(slices_text(word)?)?;
    if number >= 1 && number <= MOST_SLICES && number <= bins as u64 {
        Some(number)
    } else {
        None
    }
}

/// What the words ask for.
pub fn cut_request(alloc: Global, words: Vec<String>) -> Result<CutRequest, CutRequestError>
    ensures asked { IfOk result (IsCutRequest (map string_bytes words.items)) }
    ensures usage { IsErrOf result CutRequestError.Usage → AsksForCut (map string_bytes words.items) → ⊥ }
    ensures range { (s : Setting) → IsErrOf result (CutRequestError.OutOfRange s)
        → AsksForCut (map string_bytes words.items) × IsOutOfRange Program.KmcCut (map string_bytes words.items) s }
    ensures slices { IsErrOf result CutRequestError.Slices → IsSlicesOutOfRange (map string_bytes words.items) }
{
    let SortedWords {
        names,
        slices,
        others,
        force,
    } = sorted_words(alloc, words)?;
    let Some(prefix) = only(names) else {
        return Err(CutRequestError::Usage);
    };
    let Some(word) = only(slices) else {
        return Err(CutRequestError::Usage);
    };
    let params = match settings(alloc, Program::KmcCut, others) {
        Ok(params) => params,
        Err(ParamsError::Usage) => return Err(CutRequestError::Usage),
        Err(ParamsError::OutOfRange(setting)) => return Err(CutRequestError::OutOfRange(setting)),
        Err(ParamsError::Memory) => return Err(CutRequestError::Memory),
    };
    match number_of_slices(&word, params.bins) {
        Some(slices) => Ok(CutRequest {
            params,
            slices,
            prefix,
            force,
        }),
        None => Err(CutRequestError::Slices),
    }
}
