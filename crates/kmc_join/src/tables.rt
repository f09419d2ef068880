//! The table of two dumps: for each two counts that a word of either has there, how many words have them.
ghost use Rattle.std.specs.Prelude.{◌≡◌, ℕ, ◌*◌, ◌<◌, length, slice_index_or};
ghost use Rattle.kmc_sum.specs.Sources.{IsFresh, lefts_of};
ghost use Rattle.kmc_join.specs.Tabulation.{IsTableAnswer};

use crate::rows::{put_text, table_rows};
use crate::tabulating::tabulated;
use kmc_device::Counted;
use kmc_sum::{Head, LineRead, Room, SumError, build, heads_for, open, rooms_for};
use std::alloc::Global;
use std::io::Write;

/// Opens the two sources and writes their table, with rooms and heads that are there.
fn table_in<R: LineRead, W: Write>(
    alloc: Global,
    readers: &mut [Counted<R>],
    rooms: &mut [Room],
    heads: &mut [Head],
    cap: u64,
    writer: &mut Counted<W>,
) -> Result<(), SumError>
    requires two { length readers.old ≡ 2 }
    requires rooms { (length rooms.old ≡ length readers.old)
        × ((i : ℕ) (room : _) → i < length readers.old
        → IsFresh (slice_index_or rooms.old i room)) }
    requires heads { length heads.old ≡ 2 * length readers.old }
    ensures { IsTableAnswer R.remaining W.contents cap (lefts_of R.remaining readers.old)
        readers.old readers.new writer.old writer.new result }
{
    let k = open(readers, rooms, heads)?;
    build(heads);
    let tally = tabulated(alloc, readers, rooms, heads, k, cap)?;
    let Ok(text) = table_rows(alloc, tally) else {
        return Err(SumError::Memory);
    };
    match put_text(writer, &text) {
        Ok(()) => Ok(()),
        Err(_) => Err(SumError::Write),
    }
}

/// Reads the dumps of two sources side by side, a block of each at a time, and writes a line for each two counts that a word of either has
/// there: the count in the first, a tab, the count in the second, a tab, how many words have both. The lines rise by the first count, and
/// then by the second; a dump that does not list a word has the count 0 of it, and a greater count than the cap is taken for the cap. It
/// takes 64 KiB a source and some tens of bytes for each two counts. Where it is given up, a front of the table is out if a write failed,
/// and else nothing.
pub fn table<R: LineRead, W: Write>(
    alloc: Global,
    readers: &mut [Counted<R>],
    cap: u64,
    writer: &mut Counted<W>,
) -> Result<(), SumError>
    requires two { length readers.old ≡ 2 }
    ensures { IsTableAnswer R.remaining W.contents cap (lefts_of R.remaining readers.old)
        readers.old readers.new writer.old writer.new result }
{
    let mut rooms = match rooms_for(alloc, 2) {
        Ok(rooms) => rooms,
        Err(_) => return Err(SumError::Memory),
    };
    let mut heads = match heads_for(alloc, 4) {
        Ok(heads) => heads,
        Err(_) => return Err(SumError::Memory),
    };
    table_in(
        alloc,
        readers,
        rooms.as_mut_slice(),
        heads.as_mut_slice(),
        cap,
        writer,
    )
}
