//! Why a command line gives no settings.
ghost use Rattle.std.specs.Prelude.{◌≡◌};
ghost use Rattle.kmc_options.specs.declared.error.ParamsError.TheVariants.{Memory};

use crate::named::Named;
use crate::setting::Setting;
use std::alloc::AllocError;
use thiserror::Error;

/// Why a command line gives no settings. Usage is judged first, and then the options in the order
/// k, p, n, ci, cx, cs, sp, sr.
#[derive(Clone, Copy, Debug, PartialEq, Eq, Error)]
pub enum ParamsError {
    /// A word is no option, an option is given twice or without its value, or more than one format
    /// is asked for.
    #[error("usage: kmc [-fa|-fq|-fm] [-k<len>] [-p<len>] [-ci<n>] [-cx<n>] [-cs<n>] [-n<bins>] [-sp<n>] [-sr<n>] [-b]")]
    Usage,
    /// The value of this option is no number, or is out of the option's range.
    #[error("kmc: value of -{} is out of range", .0.name())]
    OutOfRange(Setting),
    /// Memory for the words was refused. It says nothing of them.
    #[error("kmc: out of memory")]
    Memory,
}

impl ParamsError {
    ghost use Rattle.kmc_options.specs.RefusalNumbers.{number_of_params_error};

    /// The number of the refusal, as docs/REFUSALS.md lists it.
    pub fn number(&self) -> u8
        ensures { result ≡ number_of_params_error self.now }
    {
        match self {
            ParamsError::Usage => 1,
            ParamsError::OutOfRange(_) => 2,
            ParamsError::Memory => 3,
        }
    }
}

impl From<AllocError> for ParamsError {
    ghost from_gives = { λ _ e. e ≡ Memory };

    fn from(_: AllocError) -> ParamsError {
        ParamsError::Memory
    }
}
