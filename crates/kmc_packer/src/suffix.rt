//! The suffix file of lists.
ghost use Rattle.std.specs.Prelude.{◌≡◌, length, OnOk, OnErr, IfOk, IsErrOf};
ghost use Rattle.std.specs.Io.KnownBytes.{Appends};
ghost use Rattle.kmc_device.specs.Device.{AppendsFront, RisesByOne};
ghost use Rattle.kmc_lists.specs.Listed.{spelled};
ghost use Rattle.kmc_lists.specs.Lists.{lists_of};
ghost use Rattle.kmc_lists.specs.Ordered.{CanBeMerged, whole};
ghost use Rattle.kmc_database.specs.Files.{suffix_file, suffix_marker};
ghost use Rattle.kmc_database.specs.Layout.{IsLayout};

use crate::rows::Rows;
use kmc_database::Layout;
use kmc_device::{Counted, WriteFault, write_text};
use kmc_dump::{DumpError, write_pairs};
use kmc_lists::BinLists;
use std::alloc::Global;
use std::io::Write;
use std::sync::Wait;
use std::thread::Threads;

/// Writes the marker at the end, and flushes the device.
fn write_end<W: Write>(writer: &mut Counted<W>) -> Result<(), WriteFault>
    ensures ok { OnOk result (Appends (W.contents writer.old.inner) (W.contents writer.new.inner)
        suffix_marker) }
    ensures kept { OnOk result (writer.new.failures ≡ writer.old.failures) }
    ensures failed { OnErr result (RisesByOne writer.old.failures writer.new.failures) }
    ensures front { OnErr result (AppendsFront (W.contents writer.old.inner)
        (W.contents writer.new.inner) suffix_marker) }
{
    write_text(writer, b"KMCS")?;
    match writer.flush() {
        Ok(()) => Ok(()),
        Err(_) => Err(WriteFault),
    }
}

/// Writes the suffix file of lists that share no word, and says how many rows it has. Where memory is refused, its first marker is out.
pub(crate) fn write_suffix<T: Threads + Wait + Sync, W: Write>(
    rt: &T,
    alloc: Global,
    writer: &mut Counted<W>,
    lists: &BinLists,
    layout: &Layout,
    threads: usize,
) -> Result<u64, DumpError>
    requires layout { IsLayout layout.now }
    requires merge { CanBeMerged layout.now.k (lists_of lists.now) }
    ensures ok { OnOk result (Appends (W.contents writer.old.inner) (W.contents writer.new.inner)
        (suffix_file layout.now (spelled layout.now.k (whole (lists_of lists.now))))) }
    ensures rows { IfOk result (λ rows. rows ≡ length (whole (lists_of lists.now))) }
    ensures kept { OnOk result (writer.new.failures ≡ writer.old.failures) }
    ensures failed { IsErrOf result DumpError.Write
        → RisesByOne writer.old.failures writer.new.failures }
    ensures front { IsErrOf result DumpError.Write
        → AppendsFront (W.contents writer.old.inner) (W.contents writer.new.inner)
        (suffix_file layout.now (spelled layout.now.k (whole (lists_of lists.now)))) }
    ensures sound { IsErrOf result DumpError.Memory
        → writer.new.failures ≡ writer.old.failures }
    ensures begun { IsErrOf result DumpError.Memory
        → AppendsFront (W.contents writer.old.inner) (W.contents writer.new.inner) suffix_marker }
{
    match write_text(writer, b"KMCS") {
        Ok(()) => {}
        Err(_) => return Err(DumpError::Write),
    }
    let form = Rows { layout: *layout };
    let rows = match write_pairs(rt, alloc, writer, lists, &form, layout.k, threads) {
        Ok(rows) => rows,
        Err(error) => return Err(error),
    };
    match write_end(writer) {
        Ok(()) => Ok(rows),
        Err(_) => Err(DumpError::Write),
    }
}
