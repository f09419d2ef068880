//! What a query of a database that was given up shows its user: one line on standard error, and the exit status.
ghost use Rattle.std.specs.Prelude.{◌≡◌, Some, false};
ghost use Rattle.kmc_database.specs.SearchMessages.{is_answer_unwritten, search_message_of};

use crate::search_error::SearchError;
use kmc_join::{QueryError, QueryMessage};
use kmc_options::Ending;
use std::fmt;

/// The line that tells the user why a database is not queried, with its name as it was given.
#[derive(Clone, Copy)]
pub struct SearchMessage<'a> {
    pub database: &'a str,
    pub error: SearchError,
}

impl Ending for SearchMessage<'_> {
    ghost misused = { λ _. false };

    ghost unwritten = { λ m. is_answer_unwritten m.error };

    fn is_misuse(&self) -> bool {
        match self.error {
            SearchError::Open(_) | SearchError::OneStrand | SearchError::Words(_) => false,
            SearchError::OtherLength | SearchError::LookUp(_) | SearchError::Write => false,
        }
    }

    fn is_unwritten(&self) -> bool {
        match self.error {
            SearchError::Write => true,
            _ => false,
        }
    }
}

impl fmt::Display for SearchMessage<'_> {
    ghost output = { λ m. Some (search_message_of m.database.now m.error) };

    fn fmt<W: fmt::Write>(&self, f: &mut fmt::Formatter<W>) -> fmt::Result {
        let name = self.database;
        match self.error {
            SearchError::Open(error) => write!(f, "kmc_db: {name}: {error}"),
            SearchError::OneStrand => write!(
                f,
                "kmc_db: {name}: counts a word and its reverse complement together, which -b does not ask for"
            ),
            SearchError::Words(error) => {
                let told = QueryMessage { dump: name, error };
                write!(f, "{told}")
            }
            SearchError::OtherLength => {
                let error = QueryError::Unlike;
                let told = QueryMessage { dump: name, error };
                write!(f, "{told}")
            }
            SearchError::LookUp(error) => write!(f, "kmc_db: {name}: {error}"),
            SearchError::Write => write!(f, "kmc_db: cannot write"),
        }
    }
}
