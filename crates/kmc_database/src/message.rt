//! What a refusal shows its user: one line on standard error, and the exit status.
ghost use Rattle.std.specs.Prelude.{◌≡◌, Some, false};
ghost use Rattle.kmc_database.specs.Messages.{is_unwritten, message_of};

use crate::error::PackError;
use kmc_options::Ending;
use std::fmt;

/// The line that tells the user why a dump is not packed, with the names of the dump and of the database as they were given.
#[derive(Clone, Copy)]
pub struct PackMessage<'a> {
    pub dump: &'a str,
    pub database: &'a str,
    pub error: PackError,
}

impl Ending for PackMessage<'_> {
    ghost misused = { λ _. false };

    ghost unwritten = { λ m. is_unwritten m.error };

    fn is_misuse(&self) -> bool {
        match self.error {
            PackError::Source(_) | PackError::Empty | PackError::Prefix(_) => false,
            PackError::TooGreat(_) | PackError::WritePrefix | PackError::WriteSuffix => false,
            PackError::Memory | PackError::TooLong => false,
        }
    }

    fn is_unwritten(&self) -> bool {
        match self.error {
            PackError::WritePrefix | PackError::WriteSuffix => true,
            _ => false,
        }
    }
}

impl fmt::Display for PackMessage<'_> {
    ghost output = { λ m. Some (message_of m.dump.now m.database.now m.error) };

    fn fmt<W: fmt::Write>(&self, f: &mut fmt::Formatter<W>) -> fmt::Result {
        let dump = self.dump;
        let database = self.database;
        match self.error {
            PackError::Source(fault) => write!(f, "kmc_db: {dump}: {fault}"),
            PackError::Empty => write!(
                f,
                "kmc_db: {dump}: has no line to tell the length of words"
            ),
            PackError::Prefix(k) => write!(
                f,
                "kmc_db: words of {k} symbols have no such first part"
            ),
            PackError::TooGreat(line) => {
                write!(
                    f,
                    "kmc_db: {dump}: the count of line {line} does not fit its bytes"
                )
            }
            PackError::WritePrefix => write!(f, "kmc_db: {database}.kmc_pre: cannot be written"),
            PackError::WriteSuffix => write!(f, "kmc_db: {database}.kmc_suf: cannot be written"),
            PackError::Memory => write!(f, "kmc_db: out of memory"),
            PackError::TooLong => write!(f, "kmc_db: {dump}: too many lines"),
        }
    }
}
