//! What a user is told of words that ask for nothing.
ghost use Rattle.std.specs.Prelude.{Some};
ghost use Rattle.kmc_options.specs.SliceMessages.{text_of_no_cut, text_of_no_list};

use crate::named::Named;
use crate::program::Program;
use crate::slices::cutting::CutRequestError;
use crate::slices::listing::ListRequestError;
use std::error::Error;
use std::fmt;

impl fmt::Display for CutRequestError {
    ghost output = { λ error. Some (text_of_no_cut error) };

    fn fmt<W: fmt::Write>(&self, f: &mut fmt::Formatter<W>) -> fmt::Result {
        match self {
            CutRequestError::Usage => f.write_str(Program::KmcCut.usage()),
            CutRequestError::OutOfRange(setting) => {
                let name = setting.name();
                write!(f, "kmc_cut: value of -{name} is out of range")
            }
            CutRequestError::Slices => write!(f, "kmc_cut: value of -slices is out of range"),
            CutRequestError::Memory => write!(f, "kmc_cut: out of memory"),
        }
    }
}

impl fmt::Display for ListRequestError {
    ghost output = { λ error. Some (text_of_no_list error) };

    fn fmt<W: fmt::Write>(&self, f: &mut fmt::Formatter<W>) -> fmt::Result {
        match self {
            ListRequestError::Usage => f.write_str(Program::KmcList.usage()),
            ListRequestError::OutOfRange(setting) => {
                let name = setting.name();
                write!(f, "kmc_list: value of -{name} is out of range")
            }
            ListRequestError::Memory => write!(f, "kmc_list: out of memory"),
        }
    }
}

impl Error for CutRequestError {}

impl Error for ListRequestError {}
