//! The rows of a database.
ghost use Rattle.std.specs.Prelude.{◌≡◌, ◌-◌, ◌/◌, ◌^◌, ◌<◌, ◌++◌, ◌↔◌, IsTrue, OnOk, OnErr};
ghost use Rattle.kmc_base.specs.Packed.{unpack};
ghost use Rattle.kmc_device.specs.Device.{AppendsFront, RisesByOne, WritesOut};
ghost use Rattle.kmc_database.specs.Layout.{IsLayout};
ghost use Rattle.kmc_database.specs.Rows.{first_part, row_of};

use crate::byte_buffer::ByteBuffer;
use crate::layout::Layout;
use kmc_base::high_bytes_first;
use kmc_device::{Counted, WriteFault};
use std::io::Write;

/// The first part of a packed word, as a number.
pub(crate) fn first_part(layout: &Layout, packed: u128) -> u64
    requires layout { IsLayout layout.now }
    requires fits { packed < 4 ^ layout.now.k }
    ensures is { result ≡ first_part layout.now (unpack layout.now.k packed) }
    ensures quotient { result ≡ packed / 4 ^ (layout.now.k - layout.now.prefix) }
    ensures most { result < 4 ^ layout.now.prefix }
{
    (packed >> (2 * (layout.k - layout.prefix))) as u64
}

/// Whether the bytes of a count hold this one.
pub fn holds_count(layout: &Layout, count: u64) -> bool
    requires { IsLayout layout.now }
    ensures { IsTrue result ↔ (count < 256 ^ layout.now.counter) }
{
    count >> (8 * layout.counter) == 0
}

/// Puts the row of a packed word and its count behind what the buffer holds.
pub(crate) fn put_row<W: Write>(
    writer: &mut Counted<W>,
    buffer: &mut ByteBuffer,
    layout: &Layout,
    packed: u128,
    count: u64,
) -> Result<(), WriteFault>
    requires layout { IsLayout layout.now }
    ensures ok { OnOk result (WritesOut (W.contents writer.old.inner)
        (W.contents writer.new.inner)
        (buffer.old ++ row_of layout.now (unpack layout.now.k packed, count)) buffer.new) }
    ensures kept { OnOk result (writer.new.failures ≡ writer.old.failures) }
    ensures failed { OnErr result (RisesByOne writer.old.failures writer.new.failures) }
    ensures front { OnErr result (AppendsFront (W.contents writer.old.inner)
        (W.contents writer.new.inner)
        (buffer.old ++ row_of layout.now (unpack layout.now.k packed, count))) }
{
    let size = (layout.k - layout.prefix) / 4;
    let word = high_bytes_first(packed);
    buffer.put(writer, &word[16 - size..])?;
    let number = count.to_le_bytes();
    buffer.put(writer, &number[..layout.counter])
}
