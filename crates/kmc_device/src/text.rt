//! A text on a device, in as many writes as the device wants.
ghost use Rattle.std.specs.Prelude.{◌≡◌, OnOk, OnErr};
ghost use Rattle.std.specs.Io.KnownBytes.{Appends};
ghost use Rattle.kmc_device.specs.Device.{AppendsFront, RisesByOne};

use crate::counted::Counted;
use std::io::Write;

/// A write or a flush failed, or a write took nothing of what was left.
#[derive(Clone, Copy, Debug, PartialEq, Eq)]
pub struct WriteFault;

/// Writes all of the text, in as many writes as the device wants.
pub fn write_text<W: Write>(writer: &mut Counted<W>, text: &[u8]) -> Result<(), WriteFault>
    ensures ok { OnOk result (Appends (W.contents writer.old.inner)
        (W.contents writer.new.inner) text.now) }
    ensures kept { OnOk result (writer.new.failures ≡ writer.old.failures) }
    ensures failed { OnErr result (RisesByOne writer.old.failures writer.new.failures) }
    ensures front { OnErr result
        (AppendsFront (W.contents writer.old.inner) (W.contents writer.new.inner) text.now) }
{
    let mut done = 0;
    while done < text.len() {
        match writer.write(&text[done..]) {
            Ok(0) => return Err(WriteFault),
            Ok(n) => done += n,
            Err(_) => return Err(WriteFault),
        }
    }
    Ok(())
}
