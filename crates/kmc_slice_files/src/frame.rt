//! One frame of a slice's file.
ghost use Rattle.std.specs.Prelude.{◌≡◌, ◌^◌, ◌≤◌, length, OnOk, OnErr, IfOk};
ghost use Rattle.std.specs.Io.KnownBytes.{Appends};
ghost use Rattle.kmc_device.specs.Device.{AppendsFront, RisesByOne};
ghost use Rattle.kmc_slice_files.specs.Frames.{head_bytes, frame, frame_bytes, end_bytes};
ghost use Rattle.kmc_slice_files.specs.Writes.{IsBinWritten, IsBinBegun};

use crate::check::frame_check;
use kmc_device::{Counted, WriteFault, write_text};
use std::io::Write;

/// The bytes before a body.
pub(crate) const HEAD: usize = 16;

/// The most bytes of a frame's body.
pub(crate) const MOST_BODY: usize = 1 << 20;

/// The number of no bin, which stands in the end.
pub(crate) const NO_BIN: u16 = u16::MAX;

/// What stands before a body.
fn head(bin: u16, long: u32, check: u64) -> [u8; HEAD]
    ensures { result ≡ head_bytes bin long check }
{
    let b = bin.to_le_bytes();
    let l = long.to_le_bytes();
    let c = check.to_le_bytes();
    [
        b[0], b[1], 0, 0, l[0], l[1], l[2], l[3], c[0], c[1], c[2], c[3], c[4], c[5], c[6], c[7],
    ]
}

/// Writes a frame.
fn write_frame<W: Write>(writer: &mut Counted<W>, bin: u16, body: &[u8]) -> Result<(), WriteFault>
    requires long { length body.now ≤ 2 ^ 20 }
    ensures ok { OnOk result (Appends (W.contents writer.old.inner)
        (W.contents writer.new.inner) (frame_bytes (frame bin body.now))) }
    ensures kept { OnOk result (writer.new.failures ≡ writer.old.failures) }
    ensures failed { OnErr result (RisesByOne writer.old.failures writer.new.failures) }
    ensures front { OnErr result (AppendsFront (W.contents writer.old.inner)
        (W.contents writer.new.inner) (frame_bytes (frame bin body.now))) }
{
    let head = head(bin, body.len() as u32, frame_check(bin, body));
    write_text(writer, &head)?;
    write_text(writer, body)
}

/// Writes what stands behind the last of so many frames.
pub fn write_end<W: Write>(writer: &mut Counted<W>, frames: u64) -> Result<(), WriteFault>
    ensures ok { OnOk result (Appends (W.contents writer.old.inner)
        (W.contents writer.new.inner) (end_bytes frames)) }
    ensures kept { OnOk result (writer.new.failures ≡ writer.old.failures) }
    ensures failed { OnErr result (RisesByOne writer.old.failures writer.new.failures) }
    ensures front { OnErr result (AppendsFront (W.contents writer.old.inner)
        (W.contents writer.new.inner) (end_bytes frames)) }
{
    let head = head(NO_BIN, 0, frames);
    write_text(writer, &head)
}

/// Writes the bytes of a bin as frames, and says how many. No bytes are no frame.
pub fn write_bin<W: Write>(
    writer: &mut Counted<W>,
    bin: u16,
    body: &[u8],
) -> Result<u64, WriteFault>
    ensures ok { IfOk result (λ n. IsBinWritten bin body.now n (W.contents writer.old.inner)
        (W.contents writer.new.inner)) }
    ensures kept { OnOk result (writer.new.failures ≡ writer.old.failures) }
    ensures failed { OnErr result (RisesByOne writer.old.failures writer.new.failures) }
    ensures front { OnErr result
        (IsBinBegun bin (W.contents writer.old.inner) (W.contents writer.new.inner)) }
{
    let mut done = 0;
    let mut frames = 0;
    while done < body.len() {
        let more = (body.len() - done).min(MOST_BODY);
        write_frame(writer, bin, &body[done..done + more])?;
        done += more;
        frames += 1;
    }
    Ok(frames)
}
