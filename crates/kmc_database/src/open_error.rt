//! Why a database is not opened.
ghost use Rattle.std.specs.Prelude.{◌≡◌, Some};
ghost use Rattle.kmc_database.specs.SearchMessages.{text_of_open_error};

use crate::reading::FormFault;
use std::fmt;

/// Why a database is not opened.
#[derive(Clone, Copy, Debug, PartialEq, Eq)]
pub enum OpenError {
    /// The last 72 bytes of the prefix file are no header.
    Form(FormFault),
    /// The prefix file is shorter than a header, or not as long as its header asks for.
    PrefixLength,
    /// The header tells neither that a word and its reverse complement are counted together nor that each is by itself.
    Strands,
    /// The prefix file does not begin with its marker.
    PrefixMarker,
    /// The suffix file is not as long as the rows that the header tells.
    SuffixLength,
    /// The suffix file does not begin and end with its marker.
    SuffixMarker,
    /// The prefix file is shorter than it was.
    Changed,
    /// A read of the prefix file failed.
    ReadPrefix,
    /// A read of the suffix file failed.
    ReadSuffix,
}

impl OpenError {
    ghost use Rattle.kmc_database.specs.RefusalNumbers.{number_of_open_error};

    /// The number of the refusal, as docs/REFUSALS.md lists it.
    pub fn number(&self) -> u8
        ensures { result ≡ number_of_open_error self.now }
    {
        match self {
            OpenError::Form(_) => 1,
            OpenError::PrefixLength => 2,
            OpenError::Strands => 3,
            OpenError::PrefixMarker => 4,
            OpenError::SuffixLength => 5,
            OpenError::SuffixMarker => 6,
            OpenError::Changed => 7,
            OpenError::ReadPrefix => 8,
            OpenError::ReadSuffix => 9,
        }
    }
}

impl fmt::Display for OpenError {
    ghost output = { λ e. Some (text_of_open_error e) };

    fn fmt<W: fmt::Write>(&self, f: &mut fmt::Formatter<W>) -> fmt::Result {
        match self {
            OpenError::Form(fault) => write!(f, "{fault}"),
            OpenError::PrefixLength => write!(
                f,
                "the prefix file is not as long as its header asks for"
            ),
            OpenError::Strands => write!(f, "the header tells of strands that are unknown"),
            OpenError::PrefixMarker => write!(f, "the prefix file does not begin with its marker"),
            OpenError::SuffixLength => write!(
                f,
                "the suffix file is not as long as the header asks for"
            ),
            OpenError::SuffixMarker => write!(
                f,
                "the suffix file does not begin and end with its marker"
            ),
            OpenError::Changed => write!(f, "the prefix file is shorter than it was"),
            OpenError::ReadPrefix => write!(f, "cannot read the prefix file"),
            OpenError::ReadSuffix => write!(f, "cannot read the suffix file"),
        }
    }
}
