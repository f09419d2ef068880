//! The prefix file of lists.
ghost use Rattle.std.specs.Prelude.{◌≡◌, ◌^◌, ◌<◌, ◌≤◌, sum, OnOk, OnErr};
ghost use Rattle.std.specs.Io.KnownBytes.{Appends};
ghost use Rattle.kmc_device.specs.Device.{AppendsFront, RisesByOne};
ghost use Rattle.kmc_database.specs.Layout.{IsLayout};
ghost use Rattle.kmc_packer.specs.Table.{prefix_by};

use kmc_database::{ByteBuffer, Form, header_bytes};
use kmc_device::{Counted, WriteFault};
use std::io::Write;

/// Writes the prefix file of so many rows, by how many of them have each first part.
pub(crate) fn write_prefix<W: Write>(
    writer: &mut Counted<W>,
    form: &Form,
    sizes: &[usize],
    rows: u64,
) -> Result<(), WriteFault>
    requires layout { IsLayout form.now.layout }
    requires parts { sum sizes.now ≤ rows }
    ensures ok { OnOk result (Appends (W.contents writer.old.inner) (W.contents writer.new.inner)
        (prefix_by form.now sizes.now rows)) }
    ensures kept { OnOk result (writer.new.failures ≡ writer.old.failures) }
    ensures failed { OnErr result (RisesByOne writer.old.failures writer.new.failures) }
    ensures front { OnErr result (AppendsFront (W.contents writer.old.inner)
        (W.contents writer.new.inner) (prefix_by form.now sizes.now rows)) }
    ensures few { rows < 2 ^ 64 }
{
    let mut table = ByteBuffer::new(b"KMCP");
    let mut before: u64 = 0;
    for size in sizes {
        table.put(writer, &before.to_le_bytes())?;
        before += *size as u64;
    }
    table.flush_with(writer, &header_bytes(form, rows))
}
