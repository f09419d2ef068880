//! A database, read as its dump.
ghost use Rattle.std.specs.Prelude.{◌≡◌};
ghost use Rattle.kmc_database.specs.DumpText.{IsWithin, text_of_files};
ghost use Rattle.kmc_database.specs.Layout.{IsLayout};

use crate::held_line::HeldLine;
use crate::next_bytes::NextBytes;
use crate::opening::OpenDatabase;
use crate::progress::Progress;
use crate::reading::Header;
use crate::unpack_error::UnpackError;
use kmc_base::Strands;
use kmc_sum::{Line, LineRead};
use std::io;
use std::io::Read;

/// A reader that gives the dump of a database, a line for each row, while it reads the prefix file and the suffix file once, each from its
/// beginning to its end. Where the files are no database with this header, byte 0 stands in place of the first row at fault and of all
/// behind it, which is no line: whoever reads it as a dump refuses it there, and [`DatabaseReader::fault`] tells why. It holds one line
/// and 16 KiB of each file, for which it asks at a time.
#[derive(Drop)]
pub struct DatabaseReader<R> {
    pub(crate) header: Header,
    pub(crate) strands: Strands,
    pub(crate) at: Progress,
    pub(crate) ended: bool,
    pub(crate) fault: Option<UnpackError>,
    pub(crate) failed: Option<io::Error>,
    pub(crate) line: HeldLine,
    pub(crate) prefix: NextBytes<R>,
    pub(crate) suffix: NextBytes<R>,
    pub ghost layout: { IsLayout header.layout },
    pub ghost within: { IsWithin header at },
}

impl<R: Read> DatabaseReader<R> {
    ghost use Rattle.std.specs.Io.{ReadsAtMost};
    ghost use Rattle.std.specs.Io.KnownBytes.{ReadConsumes};
    ghost use Rattle.kmc_database.specs.DumpReader.{of_both, rest_of};

    /// A reader of the dump of a database whose header tells this. Nothing is read yet.
    pub fn new(database: OpenDatabase, prefix: R, suffix: R) -> DatabaseReader<R>
        requires { IsLayout database.header.layout }
        ensures text { rest_of R.remaining result
            ≡ of_both (text_of_files database.header) (R.remaining prefix) (R.remaining suffix) }
        ensures strands { result.strands ≡ database.strands }
    {
        let OpenDatabase { header, strands } = database;
        DatabaseReader {
            header,
            strands,
            at: Progress {
                begun: false,
                entries: 0,
                row: 0,
                to: 0,
                last: 0,
            },
            ended: false,
            fault: None,
            failed: None,
            line: HeldLine::new(),
            prefix: NextBytes::new(prefix),
            suffix: NextBytes::new(suffix),
        }
    }

    /// Why the text ended with byte 0, if it did: rows are numbered from 1, entries of the table from 0.
    pub fn fault(&self) -> Option<UnpackError>
        ensures { result ≡ self.now.fault }
    {
        self.fault
    }

    /// Whether words and their reverse complements are counted together, by the header.
    pub fn strands(&self) -> Strands
        ensures { result ≡ self.now.strands }
    {
        self.strands
    }

    /// Fills a buffer with what is left of the text, as far as it goes, and says how much came.
    fn give(&mut self, buf: &mut [u8]) -> io::Result<usize>
        ensures bound { ReadsAtMost result buf.new }
        ensures bytes { ReadConsumes (rest_of R.remaining self.old) (rest_of R.remaining self.new)
            result buf.new }
    {
        let mut given = 0;
        while given < buf.len() {
            if !self.line.is_empty() {
                given += self.line.give(&mut buf[given..]);
            } else if self.ended {
                return Ok(given);
            } else {
                match self.advance() {
                    Ok(()) => {}
                    Err(error) => {
                        if given == 0 {
                            return Err(error);
                        }
                        self.failed = Some(error);
                        return Ok(given);
                    }
                }
            }
        }
        Ok(given)
    }
}

impl<R: Read> Read for DatabaseReader<R> {
    ghost use Rattle.kmc_database.specs.DumpReader.{rest_of};

    ghost remaining = { rest_of R.remaining };

    fn read(&mut self, buf: &mut [u8]) -> io::Result<usize> {
        match self.failed.take() {
            Some(error) => Err(error),
            None => self.give(buf),
        }
    }
}

impl<R: Read> LineRead for DatabaseReader<R> {
    fn take_line(&mut self) -> Option<Line> {
        while self.failed.is_none() {
            if let Some(line) = self.line.take_line() {
                return Some(line);
            }
            if self.ended || !self.line.is_empty() {
                return None;
            }
            if let Err(error) = self.advance() {
                self.failed = Some(error);
                return None;
            }
        }
        None
    }
}
