//! The dump of pairs in plain form on a device: lines gathered in a buffer on the stack.
ghost use Rattle.std.specs.Prelude.{◌≡◌, length, OnOk, OnErr, IfOk};
ghost use Rattle.std.specs.Io.KnownBytes.{Appends};
ghost use Rattle.kmc_device.specs.Device.{AppendsFront, RisesByOne};
ghost use Rattle.kmc_lists.specs.Line.{text_of};

use kmc_base::Kmer;
use kmc_device::{Counted, WriteFault, write_text};
use kmc_lists::{DIGITS, ROOM, line_room, make_room, put_line};
use std::io::Write;

/// Writes the dump of pairs in plain form, and says how many lines it has. A fault comes only where the device failed
/// or took none of what was left, and then what went out is the front of the dump.
pub fn write_dump<W: Write>(
    writer: &mut Counted<W>,
    pairs: &[(Kmer, u64)],
) -> Result<u64, WriteFault>
    ensures ok { OnOk result (Appends (W.contents writer.old.inner) (W.contents writer.new.inner)
        (text_of pairs.now)) }
    ensures kept { OnOk result (writer.new.failures ≡ writer.old.failures) }
    ensures lines { IfOk result (λ lines. lines ≡ length pairs.now) }
    ensures failed { OnErr result (RisesByOne writer.old.failures writer.new.failures) }
    ensures front { OnErr result
        (AppendsFront (W.contents writer.old.inner) (W.contents writer.new.inner)
        (text_of pairs.now)) }
{
    let mut room = [0; ROOM];
    let mut filled = 0;
    for (word, count) in pairs {
        filled = make_room(writer, &room, filled, line_room(word.k(), DIGITS))?;
        filled = put_line(&mut room, filled, word, *count);
    }
    write_text(writer, &room[..filled])?;
    match writer.flush() {
        Ok(()) => Ok(pairs.len() as u64),
        Err(_) => Err(WriteFault),
    }
}
