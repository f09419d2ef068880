//! The lines of a dump, gathered in a buffer, so that a device is called once for each full buffer.
ghost use Rattle.std.specs.Prelude.{◌≡◌, ◌+◌, ◌≤◌, length, take, ◌++◌, OnErr, IfOk};
ghost use Rattle.kmc_device.specs.Device.{AppendsFront, RisesByOne, WritesOut};
ghost use Rattle.kmc_lists.specs.Line.{line_bytes, line_of, line_room};

use itoa::Buffer;
use kmc_base::{Kmer, MAX_K};
use kmc_device::{Counted, WriteFault, write_text};
use std::io::Write;

/// The most digits of a count.
pub const DIGITS: usize = 20;

/// The most bytes of a line: the letters, a tab, the digits, a line feed.
pub const LINE: usize = MAX_K + DIGITS + 2;

/// Lines are gathered in so many bytes before they are written.
pub const ROOM: usize = 16384;

/// The bytes of a line of a word of `k` symbols and a count of so many digits.
pub fn line_room(k: usize, digits: usize) -> usize
    requires most { k ≤ MAX_K }
    requires few { digits ≤ DIGITS }
    ensures is { result ≡ line_room k digits }
    ensures most { result ≤ LINE }
{
    k + digits + 2
}

/// Puts the line of a word and its count behind the first `at` bytes, and says where it ends.
pub fn put_line(room: &mut [u8], at: usize, word: &Kmer, count: u64) -> usize
    requires { at + line_bytes (word.now, count) ≤ length room.old }
    ensures line { take result room.new ≡ take at room.old ++ line_of (word.now, count) }
    ensures end { result ≡ at + line_bytes (word.now, count) }
    ensures most { result ≤ at + LINE }
{
    let tab = at + word.k();
    word.write_letters(&mut room[at..]);
    room[tab] = b'\t';
    let mut digits = Buffer::new();
    let text = digits.format(count).as_bytes();
    let end = tab + 1 + text.len();
    room[tab + 1..end].copy_from_slice(text);
    room[end] = b'\n';
    end + 1
}

/// Writes the gathered bytes out where so many more do not fit, and says how many are left.
pub fn make_room<W: Write>(
    writer: &mut Counted<W>,
    room: &[u8],
    filled: usize,
    more: usize,
) -> Result<usize, WriteFault>
    requires within { filled ≤ length room.now }
    requires long { more ≤ length room.now }
    ensures ok { IfOk result (λ left. (left + more ≤ length room.now)
        × (writer.new.failures ≡ writer.old.failures)
        × WritesOut (W.contents writer.old.inner) (W.contents writer.new.inner)
        (take filled room.now) (take left room.now)) }
    ensures failed { OnErr result (RisesByOne writer.old.failures writer.new.failures) }
    ensures front { OnErr result
        (AppendsFront (W.contents writer.old.inner) (W.contents writer.new.inner)
        (take filled room.now)) }
{
    if room.len() - filled >= more {
        return Ok(filled);
    }
    write_text(writer, &room[..filled])?;
    Ok(0)
}
