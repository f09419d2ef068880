//! The table of a database, as its rows come.
ghost use Rattle.std.specs.Prelude.{◌≡◌, ◌-◌, ◌≤◌, ◌++◌, OnOk, OnErr};
ghost use Rattle.kmc_device.specs.Device.{AppendsFront, RisesByOne, WritesOut};
ghost use Rattle.kmc_database.specs.Rows.{repeated};

use crate::byte_buffer::ByteBuffer;
use kmc_device::{Counted, WriteFault};
use std::io::Write;

/// Puts the entries of the table from one up to another behind what the buffer holds, each of them `rows`.
pub(crate) fn put_entries<W: Write>(
    writer: &mut Counted<W>,
    buffer: &mut ByteBuffer,
    from: u64,
    to: u64,
    rows: u64,
) -> Result<(), WriteFault>
    requires order { from ≤ to }
    ensures ok { OnOk result (WritesOut (W.contents writer.old.inner)
        (W.contents writer.new.inner) (buffer.old ++ repeated (to - from) rows) buffer.new) }
    ensures kept { OnOk result (writer.new.failures ≡ writer.old.failures) }
    ensures failed { OnErr result (RisesByOne writer.old.failures writer.new.failures) }
    ensures front { OnErr result (AppendsFront (W.contents writer.old.inner)
        (W.contents writer.new.inner) (buffer.old ++ repeated (to - from) rows)) }
{
    let entry = rows.to_le_bytes();
    for _i in from..to {
        buffer.put(writer, &entry)?;
    }
    Ok(())
}
