//! The rows of a histogram and of a table, as text.
ghost use Rattle.std.specs.Prelude.{◌≡◌, IfOk, OnOk, OnErr, string_bytes};
ghost use Rattle.std.specs.BTreeMap.{IsOrdered};
ghost use Rattle.std.specs.Io.KnownBytes.{Appends};
ghost use Rattle.std.specs.Ordering.{nat_cmp};
ghost use Rattle.kmc_device.specs.Device.{AppendsFront, RisesByOne};
ghost use Rattle.kmc_join.specs.Histogram.{row_of, rows_text};
ghost use Rattle.kmc_join.specs.Table.{counts_cmp, table_row, table_text};

use crate::tally::Tally;
use kmc_device::{Counted, WriteFault, write_text};
use std::alloc::{AllocError, Global};
use std::io::Write;

/// The line of a count and of how many words have it.
fn row(alloc: Global, count: u64, number: u64) -> Result<String, AllocError>
    ensures { IfOk result (λ t. string_bytes t ≡ row_of (count, number)) }
{
    format!(in alloc; "{count}\t{number}\n")
}

/// The lines of a tally, the counts rising: the count, a tab, how often it was seen. It fails only for want of memory.
pub fn rows(alloc: Global, tally: Tally<u64>) -> Result<String, AllocError>
    ensures text { IfOk result (λ t. string_bytes t ≡ rows_text tally.entries) }
    ensures ordered { OnOk result (IsOrdered nat_cmp tally) }
{
    let mut text = String::new(alloc);
    for (count, number) in tally {
        let line = row(alloc, count, number)?;
        text.push_str(&line)?;
    }
    Ok(text)
}

/// The line of two counts and of how many words have them.
fn table_row(alloc: Global, left: u64, right: u64, number: u64) -> Result<String, AllocError>
    ensures { IfOk result (λ t. string_bytes t ≡ table_row ((left, right), number)) }
{
    format!(in alloc; "{left}\t{right}\t{number}\n")
}

/// The lines of a tally of two counts, rising.
pub(crate) fn table_rows(alloc: Global, tally: Tally<(u64, u64)>) -> Result<String, AllocError>
    ensures text { IfOk result (λ t. string_bytes t ≡ table_text tally.entries) }
    ensures ordered { OnOk result (IsOrdered counts_cmp tally) }
{
    let mut text = String::new(alloc);
    for ((left, right), number) in tally {
        let line = table_row(alloc, left, right, number)?;
        text.push_str(&line)?;
    }
    Ok(text)
}

/// Writes a text, and flushes the device. After a failure a front of the text is out.
pub fn put_text<W: Write>(writer: &mut Counted<W>, text: &str) -> Result<(), WriteFault>
    ensures ok { OnOk result (Appends (W.contents writer.old.inner)
        (W.contents writer.new.inner) text.now) }
    ensures kept { OnOk result (writer.new.failures ≡ writer.old.failures) }
    ensures failed { OnErr result (RisesByOne writer.old.failures writer.new.failures) }
    ensures front { OnErr result (AppendsFront (W.contents writer.old.inner)
        (W.contents writer.new.inner) text.now) }
{
    write_text(writer, text.as_bytes())?;
    match writer.flush() {
        Ok(()) => Ok(()),
        Err(_) => Err(WriteFault),
    }
}
