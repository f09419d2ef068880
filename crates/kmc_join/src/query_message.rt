//! What a query that was given up shows its user: one line.
ghost use Rattle.std.specs.Prelude.{◌≡◌, Some};
ghost use Rattle.kmc_join.specs.Messages.{query_message_of};

use crate::query_error::QueryError;
use std::fmt;

/// The line that tells the user why a query was given up, with the name of the dump as it was given.
#[derive(Clone, Copy)]
pub struct QueryMessage<'a> {
    pub dump: &'a str,
    pub error: QueryError,
}

impl fmt::Display for QueryMessage<'_> {
    ghost output = { λ m. Some (query_message_of m.dump.now m.error) };

    fn fmt<W: fmt::Write>(&self, f: &mut fmt::Formatter<W>) -> fmt::Result {
        let name = self.dump;
        match self.error {
            QueryError::ReadWords => write!(f, "kmc_db: standard input: cannot be read"),
            QueryError::NoWord(line) => {
                write!(
                    f,
                    "kmc_db: standard input: line {line} is no word of 1 to 64 letters A, C, G and T"
                )
            }
            QueryError::OtherLength(line) => {
                write!(
                    f,
                    "kmc_db: standard input: line {line} has a word that is not as long as those before it"
                )
            }
            QueryError::Unlike => {
                write!(
                    f,
                    "kmc_db: standard input: line 1 has a word that is not as long as those of {name}"
                )
            }
            QueryError::Dump(fault) => write!(f, "kmc_db: {name}: {fault}"),
            QueryError::Write => write!(f, "kmc_db: cannot write"),
            QueryError::Memory => write!(f, "kmc_db: out of memory"),
            QueryError::TooLong => write!(f, "kmc_db: {name}: too many lines"),
        }
    }
}
