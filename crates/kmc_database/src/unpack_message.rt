//! What a refusal to unpack shows its user: one line on standard error, and the exit status.
ghost use Rattle.std.specs.Prelude.{◌≡◌, Some, false};
ghost use Rattle.kmc_database.specs.Messages.{is_dump_unwritten, unpack_message_of};

use crate::unpack_error::UnpackError;
use kmc_options::Ending;
use std::fmt;

/// The line that tells the user why a database is not unpacked, with its name as it was given.
#[derive(Clone, Copy)]
pub struct UnpackMessage<'a> {
    pub database: &'a str,
    pub error: UnpackError,
}

impl Ending for UnpackMessage<'_> {
    ghost misused = { λ _. false };

    ghost unwritten = { λ m. is_dump_unwritten m.error };

    fn is_misuse(&self) -> bool {
        match self.error {
            UnpackError::Form(_) | UnpackError::Length => false,
            UnpackError::PrefixMarker | UnpackError::SuffixMarker => false,
            UnpackError::Entry(_) | UnpackError::Cut(_) => false,
            UnpackError::NotRising(_) | UnpackError::ZeroCount(_) => false,
            UnpackError::SuffixEnd | UnpackError::Changed => false,
            UnpackError::ReadPrefix | UnpackError::ReadSuffix => false,
            UnpackError::Write | UnpackError::Memory => false,
        }
    }

    fn is_unwritten(&self) -> bool {
        match self.error {
            UnpackError::Write => true,
            _ => false,
        }
    }
}

impl fmt::Display for UnpackMessage<'_> {
    ghost output = { λ m. Some (unpack_message_of m.database.now m.error) };

    fn fmt<W: fmt::Write>(&self, f: &mut fmt::Formatter<W>) -> fmt::Result {
        let name = self.database;
        match self.error {
            UnpackError::Form(fault) => write!(f, "kmc_db: {name}: {fault}"),
            UnpackError::Length => {
                write!(
                    f,
                    "kmc_db: {name}.kmc_pre: is not as long as its header asks for"
                )
            }
            UnpackError::PrefixMarker => {
                write!(f, "kmc_db: {name}.kmc_pre: does not begin with its marker")
            }
            UnpackError::SuffixMarker => {
                write!(f, "kmc_db: {name}.kmc_suf: does not begin with its marker")
            }
            UnpackError::Entry(entry) => write!(
                f,
                "kmc_db: {name}.kmc_pre: entry {entry} of the table does not fit those before it and the number of rows"
            ),
            UnpackError::Cut(row) => write!(f, "kmc_db: {name}.kmc_suf: ends in row {row}"),
            UnpackError::NotRising(row) => write!(
                f,
                "kmc_db: {name}.kmc_suf: row {row} has a word that is not above the one before"
            ),
            UnpackError::ZeroCount(row) => {
                write!(f, "kmc_db: {name}.kmc_suf: row {row} has a count of 0")
            }
            UnpackError::SuffixEnd => write!(
                f,
                "kmc_db: {name}.kmc_suf: does not end with its marker right behind the rows"
            ),
            UnpackError::Changed => {
                write!(f, "kmc_db: {name}.kmc_pre: was changed while it was read")
            }
            UnpackError::ReadPrefix => write!(f, "kmc_db: {name}.kmc_pre: cannot be read"),
            UnpackError::ReadSuffix => write!(f, "kmc_db: {name}.kmc_suf: cannot be read"),
            UnpackError::Write => write!(f, "kmc_db: cannot write"),
            UnpackError::Memory => write!(f, "kmc_db: out of memory"),
        }
    }
}
