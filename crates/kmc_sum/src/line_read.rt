//! Readers of dumps, of which some have lines at hand.
ghost use Rattle.std.specs.Prelude.{MatchOption};

use crate::line::Line;
use std::io;
use std::io::Read;

/// A reader of a dump that may also hand out its next line read, so that nobody writes it as text and reads it again.
pub trait LineRead: Read {
    ghost use Rattle.std.specs.Io.KnownBytes.{Keeps};
    ghost use Rattle.kmc_sum.specs.Source.{HandsOut};

    /// Takes the next line where the reader has it; else nothing is taken, and the next bytes tell what is left.
    fn take_line(&mut self) -> Option<Line>
        ensures { MatchOption result (Keeps (Self.remaining self.old) (Self.remaining self.new))
            (HandsOut (Self.remaining self.old) (Self.remaining self.new)) };
}

/// A reader of the text of a dump, whose lines are found in its bytes.
#[derive(Drop)]
pub struct TextReader<R>(pub R);

impl<R: Read> Read for TextReader<R> {
    ghost remaining = { λ t. R.remaining t.0 };

    fn read(&mut self, buf: &mut [u8]) -> io::Result<usize> {
        self.0.read(buf)
    }
}

impl<R: Read> LineRead for TextReader<R> {
    fn take_line(&mut self) -> Option<Line> {
        None
    }
}
