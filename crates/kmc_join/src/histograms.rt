//! The histogram of a dump: for each count that occurs, how many words have it.
ghost use Rattle.std.specs.Prelude.{◌≡◌, ℕ, ◌*◌, ◌<◌, length, slice_index_or};
ghost use Rattle.kmc_sum.specs.Sources.{IsFresh, lefts_of};
ghost use Rattle.kmc_join.specs.Tally.{IsHistogramAnswer};

use crate::rows::{put_text, rows};
use crate::tallying::tallied;
use kmc_device::Counted;
use kmc_sum::{Head, LineRead, Room, SumError, heads_for, open, rooms_for};
use std::alloc::Global;
use std::io::Write;

/// Opens the source and writes its histogram, with a room and heads that are there.
fn histogram_in<R: LineRead, W: Write>(
    alloc: Global,
    readers: &mut [Counted<R>],
    rooms: &mut [Room],
    heads: &mut [Head],
    writer: &mut Counted<W>,
) -> Result<(), SumError>
    requires one { length readers.old ≡ 1 }
    requires rooms { (length rooms.old ≡ length readers.old)
        × ((i : ℕ) (room : _) → i < length readers.old
        → IsFresh (slice_index_or rooms.old i room)) }
    requires heads { length heads.old ≡ 2 * length readers.old }
    ensures { IsHistogramAnswer R.remaining W.contents (lefts_of R.remaining readers.old)
        readers.old readers.new writer.old writer.new result }
{
    let k = open(readers, rooms, heads)?;
    let tally = tallied(alloc, readers, rooms, heads, k)?;
    let Ok(text) = rows(alloc, tally) else {
        return Err(SumError::Memory);
    };
    match put_text(writer, &text) {
        Ok(()) => Ok(()),
        Err(_) => Err(SumError::Write),
    }
}

/// Reads the dump of one source, a block at a time, and writes a line for each count that a word of it has, the counts rising: the count, a
/// tab, how many words have it. It takes 72 KiB and some tens of bytes a count. Where it is given up, a front of the
/// histogram is out if a write failed, and else nothing.
pub fn histogram<R: LineRead, W: Write>(
    alloc: Global,
    readers: &mut [Counted<R>],
    writer: &mut Counted<W>,
) -> Result<(), SumError>
    requires one { length readers.old ≡ 1 }
    ensures { IsHistogramAnswer R.remaining W.contents (lefts_of R.remaining readers.old)
        readers.old readers.new writer.old writer.new result }
{
    let mut rooms = match rooms_for(alloc, 1) {
        Ok(rooms) => rooms,
        Err(_) => return Err(SumError::Memory),
    };
    let mut heads = match heads_for(alloc, 2) {
        Ok(heads) => heads,
        Err(_) => return Err(SumError::Memory),
    };
    histogram_in(
        alloc,
        readers,
        rooms.as_mut_slice(),
        heads.as_mut_slice(),
        writer,
    )
}
