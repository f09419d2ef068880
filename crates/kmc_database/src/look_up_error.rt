//! Why a word is not looked up in a database.
ghost use Rattle.std.specs.Prelude.{◌≡◌, Some};
ghost use Rattle.kmc_database.specs.SearchMessages.{text_of_look_up_error};

use std::fmt;

/// Why a word is not looked up in a database.
#[derive(Clone, Copy, Debug, PartialEq, Eq)]
pub enum LookUpError {
    /// The rows of this first part end before they begin, or behind the last row of all.
    Entry(u64),
    /// A file is shorter than its header asks for.
    Changed,
    /// A read of the prefix file failed.
    ReadPrefix,
    /// A read of the suffix file failed.
    ReadSuffix,
}

impl LookUpError {
    ghost use Rattle.kmc_database.specs.RefusalNumbers.{number_of_look_up_error};

    /// The number of the refusal, as docs/REFUSALS.md lists it.
    pub fn number(&self) -> u8
        ensures { result ≡ number_of_look_up_error self.now }
    {
        match self {
            LookUpError::Entry(_) => 1,
            LookUpError::Changed => 2,
            LookUpError::ReadPrefix => 3,
            LookUpError::ReadSuffix => 4,
        }
    }
}

impl fmt::Display for LookUpError {
    ghost output = { λ e. Some (text_of_look_up_error e) };

    fn fmt<W: fmt::Write>(&self, f: &mut fmt::Formatter<W>) -> fmt::Result {
        match self {
            LookUpError::Entry(entry) => write!(f, "entry {entry} of the table is out of order"),
            LookUpError::Changed => write!(f, "a file of the database is shorter than it was"),
            LookUpError::ReadPrefix => write!(f, "cannot read the prefix file"),
            LookUpError::ReadSuffix => write!(f, "cannot read the suffix file"),
        }
    }
}
