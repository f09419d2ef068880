//! The buffer in which the lines of a dump are gathered on their way out.
ghost use Rattle.std.specs.Prelude.{◌≡◌, ◌≤◌, ◌++◌, [], List, take, length, OnOk, OnErr};
ghost use Rattle.std.specs.Io.KnownBytes.{Appends};
ghost use Rattle.kmc_device.specs.Device.{AppendsFront, RisesByOne, WritesOut};
ghost use Rattle.kmc_lists.specs.Line.{line_of};

use kmc_base::Kmer;
use kmc_device::{Counted, WriteFault, write_text};
use kmc_lists::{DIGITS, ROOM, line_room, make_room, put_line};
use std::io::Write;
use std::marker::Model;

/// Lines that are gathered before they are written, so that a device is called once for each full buffer, of 16 KiB. To
/// contracts it is the bytes that it holds.
#[derive(Drop)]
pub struct OutputBuffer {
    room: [u8; ROOM],
    filled: usize,
}

impl Model for OutputBuffer {
    ghost use Rattle.std.specs.Prelude.{ℕ, ◌≤◌, List, take, length};

    ghost Value = { List ℕ };

    ghost view = { λ b. take b.filled b.room };

    ghost invariant = { λ b. b.filled ≤ length b.room };
}

impl OutputBuffer {
    /// A buffer that holds nothing.
    pub fn new() -> OutputBuffer
        ensures { result ≡ [] }
    {
        OutputBuffer {
            room: [0; ROOM],
            filled: 0,
        }
    }

    /// Puts the line of a word and its count behind what is held, which goes out first where not both fit.
    pub fn put_line<W: Write>(
        &mut self,
        writer: &mut Counted<W>,
        word: &Kmer,
        count: u64,
    ) -> Result<(), WriteFault>
        ensures ok { OnOk result (WritesOut (W.contents writer.old.inner)
            (W.contents writer.new.inner) (self.old ++ line_of (word.now, count)) self.new) }
        ensures room { length self.new ≤ ROOM }
        ensures kept { OnOk result (writer.new.failures ≡ writer.old.failures) }
        ensures failed { OnErr result (RisesByOne writer.old.failures writer.new.failures) }
        ensures front { OnErr result (AppendsFront (W.contents writer.old.inner)
            (W.contents writer.new.inner) self.old) }
    {
        let more = line_room(word.k(), DIGITS);
        let at = make_room(writer, &self.room, self.filled, more)?;
        self.filled = put_line(&mut self.room, at, word, count);
        Ok(())
    }

    /// Writes out what is held, and flushes the device.
    pub fn flush_into<W: Write>(self, writer: &mut Counted<W>) -> Result<(), WriteFault>
        ensures ok { OnOk result (Appends (W.contents writer.old.inner)
            (W.contents writer.new.inner) self) }
        ensures kept { OnOk result (writer.new.failures ≡ writer.old.failures) }
        ensures failed { OnErr result (RisesByOne writer.old.failures writer.new.failures) }
        ensures front { OnErr result (AppendsFront (W.contents writer.old.inner)
            (W.contents writer.new.inner) self) }
    {
        write_text(writer, &self.room[..self.filled])?;
        match writer.flush() {
            Ok(()) => Ok(()),
            Err(_) => Err(WriteFault),
        }
    }
}
