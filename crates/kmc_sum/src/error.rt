//! Why a merge is given up.
ghost use Rattle.std.specs.Prelude.{◌≡◌, Some};
ghost use Rattle.kmc_sum.specs.Messages.{text_of_line_fault, text_of_source_fault};
ghost use Rattle.kmc_sum.specs.declared.error.SourceFault.TheVariants.{Read};
ghost use Rattle.kmc_sum.specs.declared.error.SumError.TheVariants.{Source};

use kmc_device::ReadFault;
use std::fmt;
use thiserror::Error;

/// How a line is at fault.
#[derive(Clone, Copy, Debug, PartialEq, Eq)]
pub enum LineFault {
    /// It is no line of a dump: 1 to 64 letters A, C, G, T, a tab, a number from 1 to 2^64 - 1 with no leading zero, a
    /// line feed.
    Malformed,
    /// Its word is not as long as those before it.
    OtherLength,
    /// Its word is not above that of the line before.
    NotRising,
}

impl LineFault {
    ghost use Rattle.kmc_sum.specs.RefusalNumbers.{number_of_line_fault};

    /// The number of the refusal, as docs/REFUSALS.md lists it.
    pub fn number(&self) -> u8
        ensures { result ≡ number_of_line_fault self.now }
    {
        match self {
            LineFault::Malformed => 1,
            LineFault::OtherLength => 2,
            LineFault::NotRising => 3,
        }
    }
}

impl fmt::Display for LineFault {
    ghost output = { λ e. Some (text_of_line_fault e) };

    fn fmt<W: fmt::Write>(&self, f: &mut fmt::Formatter<W>) -> fmt::Result {
        match self {
            LineFault::Malformed => write!(f, "is no line of a dump"),
            LineFault::OtherLength => write!(f, "has a word of another length"),
            LineFault::NotRising => write!(f, "has a word that is not above the one before"),
        }
    }
}

/// How a source is at fault.
#[derive(Clone, Copy, Debug, PartialEq, Eq)]
pub enum SourceFault {
    /// A read of it failed.
    Read,
    /// Its first line at fault, numbered from 1, and how that line is.
    Line(u64, LineFault),
}

impl SourceFault {
    ghost use Rattle.kmc_sum.specs.RefusalNumbers.{number_of_source_fault};

    /// The number of the refusal, as docs/REFUSALS.md lists it.
    pub fn number(&self) -> u8
        ensures { result ≡ number_of_source_fault self.now }
    {
        match self {
            SourceFault::Read => 1,
            SourceFault::Line(_, _) => 2,
        }
    }
}

impl From<ReadFault> for SourceFault {
    ghost from_gives = { λ _ e. e ≡ Read };

    fn from(_: ReadFault) -> SourceFault {
        SourceFault::Read
    }
}

impl fmt::Display for SourceFault {
    ghost output = { λ e. Some (text_of_source_fault e) };

    fn fmt<W: fmt::Write>(&self, f: &mut fmt::Formatter<W>) -> fmt::Result {
        match self {
            SourceFault::Read => write!(f, "cannot be read"),
            SourceFault::Line(line, fault) => write!(f, "line {line} {fault}"),
        }
    }
}

/// The source at fault, numbered from 0, and how it is.
#[derive(Clone, Copy, Debug, PartialEq, Eq, Error)]
#[error("source {source}: {fault}")]
pub struct SourceError {
    pub source: usize,
    pub fault: SourceFault,
}

/// Why a merge is given up.
#[derive(Clone, Copy, Debug, PartialEq, Eq, Error)]
pub enum SumError {
    /// A source is at fault.
    #[error("{0}")]
    Source(SourceError),
    /// A write or the flush failed, or a write took nothing.
    #[error("cannot write")]
    Write,
    /// Memory was refused.
    #[error("out of memory")]
    Memory,
    /// The sources have 2^64 - 1 lines or more: so many are not counted.
    #[error("too many lines")]
    TooLong,
}

impl SumError {
    ghost use Rattle.kmc_sum.specs.RefusalNumbers.{number_of_sum_error};

    /// The number of the refusal, as docs/REFUSALS.md lists it.
    pub fn number(&self) -> u8
        ensures { result ≡ number_of_sum_error self.now }
    {
        match self {
            SumError::Source(_) => 1,
            SumError::Write => 2,
            SumError::Memory => 3,
            SumError::TooLong => 4,
        }
    }
}

impl From<SourceError> for SumError {
    ghost from_gives = { λ e s. s ≡ Source e };

    fn from(error: SourceError) -> SumError {
        SumError::Source(error)
    }
}
