//! What a refusal shows its user: one line on standard error, and the exit status.
ghost use Rattle.std.specs.Prelude.{◌≡◌, Some, false};
ghost use Rattle.kmc_packer.specs.Messages.{is_unwritten, message_of};

use crate::error::PackReadsError;
use kmc_options::{Ending, RunError};
use kmc_reads::ReadsMessage;
use std::fmt;

/// The line that tells the user why reads are not counted into a database, with its name as it was given.
#[derive(Clone, Copy)]
pub struct PackReadsMessage<'a> {
    pub database: &'a str,
    pub error: PackReadsError,
}

impl Ending for PackReadsMessage<'_> {
    ghost misused = { λ _. false };

    ghost unwritten = { λ m. is_unwritten m.error };

    fn is_misuse(&self) -> bool {
        match self.error {
            PackReadsError::Prefix(_) | PackReadsError::Count(_) => false,
            PackReadsError::TooGreat | PackReadsError::Memory => false,
            PackReadsError::WritePrefix | PackReadsError::WriteSuffix => false,
        }
    }

    fn is_unwritten(&self) -> bool {
        match self.error {
            PackReadsError::WritePrefix | PackReadsError::WriteSuffix => true,
            PackReadsError::Count(RunError::Write) => true,
            _ => false,
        }
    }
}

impl fmt::Display for PackReadsMessage<'_> {
    ghost output = { λ m. Some (message_of m.database.now m.error) };

    fn fmt<W: fmt::Write>(&self, f: &mut fmt::Formatter<W>) -> fmt::Result {
        let database = self.database;
        match self.error {
            PackReadsError::Prefix(k) => write!(
                f,
                "kmc_db: words of {k} symbols have no such first part"
            ),
            PackReadsError::Count(RunError::Memory) => f.write_str("kmc_db: out of memory"),
            PackReadsError::Count(RunError::Read) => f.write_str("kmc_db: read failed"),
            PackReadsError::Count(RunError::Write) => f.write_str("kmc_db: write failed"),
            PackReadsError::Count(RunError::Input(error)) => {
                let why = ReadsMessage(error);
                write!(f, "kmc_db: {why}")
            }
            PackReadsError::Count(RunError::TooLong) => f.write_str("kmc_db: input too long"),
            PackReadsError::TooGreat => {
                f.write_str("kmc_db: a k-mer occurs more often than the bytes of a count tell")
            }
            PackReadsError::WritePrefix => {
                write!(f, "kmc_db: {database}.kmc_pre: cannot be written")
            }
            PackReadsError::WriteSuffix => {
                write!(f, "kmc_db: {database}.kmc_suf: cannot be written")
            }
            PackReadsError::Memory => f.write_str("kmc_db: out of memory"),
        }
    }
}
