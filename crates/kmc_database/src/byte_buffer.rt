//! The buffer in which the bytes of a file are gathered on their way out.
ghost use Rattle.std.specs.Prelude.{◌≡◌, ◌≤◌, ◌++◌, length, OnOk, OnErr};
ghost use Rattle.std.specs.Io.KnownBytes.{Appends};
ghost use Rattle.kmc_device.specs.Device.{AppendsFront, RisesByOne, WritesOut};

use kmc_device::{Counted, WriteFault, write_text};
use kmc_lists::{ROOM, make_room};
use std::io::Write;
use std::marker::Model;

/// Bytes that are gathered before they are written, so that a device is called once for each full buffer, of 16 KiB. To contracts it is
/// the bytes that it holds.
#[derive(Drop)]
pub struct ByteBuffer {
    room: [u8; ROOM],
    filled: usize,
}

impl Model for ByteBuffer {
    ghost use Rattle.std.specs.Prelude.{ℕ, ◌≤◌, List, take, length};

    ghost Value = { List ℕ };

    ghost view = { λ b. take b.filled b.room };

    ghost invariant = { λ b. b.filled ≤ length b.room };
}

impl ByteBuffer {
    /// A buffer that holds these bytes.
    pub fn new(bytes: &[u8]) -> ByteBuffer
        requires { length bytes.now ≤ ROOM }
        ensures { result ≡ bytes.now }
    {
        let mut room = [0; ROOM];
        room[..bytes.len()].copy_from_slice(bytes);
        ByteBuffer {
            room,
            filled: bytes.len(),
        }
    }

    /// Puts bytes behind what is held, which goes out first where not both fit.
    pub fn put<W: Write>(&mut self, writer: &mut Counted<W>, bytes: &[u8]) -> Result<(), WriteFault>
        requires few { length bytes.now ≤ ROOM }
        ensures ok { OnOk result (WritesOut (W.contents writer.old.inner)
            (W.contents writer.new.inner) (self.old ++ bytes.now) self.new) }
        ensures kept { OnOk result (writer.new.failures ≡ writer.old.failures) }
        ensures failed { OnErr result (RisesByOne writer.old.failures writer.new.failures) }
        ensures front { OnErr result (AppendsFront (W.contents writer.old.inner)
            (W.contents writer.new.inner) self.old) }
    {
        let at = make_room(writer, &self.room, self.filled, bytes.len())?;
        let end = at + bytes.len();
        self.room[at..end].copy_from_slice(bytes);
        self.filled = end;
        Ok(())
    }

    /// Writes out what is held and then more bytes, and flushes the device.
    pub fn flush_with<W: Write>(
        self,
        writer: &mut Counted<W>,
        bytes: &[u8],
    ) -> Result<(), WriteFault>
        ensures ok { OnOk result (Appends (W.contents writer.old.inner)
            (W.contents writer.new.inner) (self ++ bytes.now)) }
        ensures kept { OnOk result (writer.new.failures ≡ writer.old.failures) }
        ensures failed { OnErr result (RisesByOne writer.old.failures writer.new.failures) }
        ensures front { OnErr result (AppendsFront (W.contents writer.old.inner)
            (W.contents writer.new.inner) (self ++ bytes.now)) }
    {
        write_text(writer, &self.room[..self.filled])?;
        write_text(writer, bytes)?;
        match writer.flush() {
            Ok(()) => Ok(()),
            Err(_) => Err(WriteFault),
        }
    }
}
