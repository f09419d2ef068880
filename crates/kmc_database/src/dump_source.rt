//! What is read as a dump: the text of one, or a database.
ghost use Rattle.std.specs.Prelude.{◌≡◌};
ghost use Rattle.kmc_database.specs.DumpSource.{fault_of, rest_of_source, strands_of};

use crate::reader::DatabaseReader;
use crate::unpack_error::UnpackError;
use kmc_base::Strands;
use kmc_sum::{Line, LineRead};
use std::io::{self, Read};

/// What is read as a dump: the text of one, or the two files of a database.
#[derive(Drop)]
pub enum DumpSource<T, R> {
    Text(T),
    Database(DatabaseReader<R>),
}

impl<T: Read, R: Read> Read for DumpSource<T, R> {
    ghost remaining = { rest_of_source T.remaining R.remaining };

    fn read(&mut self, buf: &mut [u8]) -> io::Result<usize> {
        match self {
            DumpSource::Text(text) => text.read(buf),
            DumpSource::Database(database) => database.read(buf),
        }
    }
}

impl<T: Read, R: Read> LineRead for DumpSource<T, R> {
    fn take_line(&mut self) -> Option<Line> {
        match self {
            DumpSource::Text(_) => None,
            DumpSource::Database(database) => database.take_line(),
        }
    }
}

impl<T: Read, R: Read> DumpSource<T, R> {
    /// The fault for which a database's text ended before its rows did. A text has none here: its lines tell.
    pub fn fault(&self) -> Option<UnpackError>
        ensures { result ≡ fault_of self.now }
    {
        match self {
            DumpSource::Text(_) => None,
            DumpSource::Database(database) => database.fault(),
        }
    }

    /// Whether words and their reverse complements are counted together, by the header of a database. A text does not tell.
    pub fn strands(&self) -> Option<Strands>
        ensures { result ≡ strands_of self.now }
    {
        match self {
            DumpSource::Text(_) => None,
            DumpSource::Database(database) => Some(database.strands()),
        }
    }
}
