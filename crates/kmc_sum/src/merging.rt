//! The dump of the sum of dumps.
ghost use Rattle.std.specs.Prelude.{◌≡◌, ℕ, ◌*◌, ◌<◌, ◌≤◌, List, length, Option, slice_index_or};
ghost use Rattle.kmc_sum.specs.Answer.{IsMergeAnswer};
ghost use Rattle.kmc_sum.specs.Sum.{sum_of};
ghost use Rattle.kmc_sum.specs.Listed.{IsLength};
ghost use Rattle.kmc_sum.specs.Heads.{IsTree};
ghost use Rattle.kmc_sum.specs.Sources.{IsFresh, AreReady, AreSources, lefts_of};

use crate::error::SumError;
use crate::heads::{Head, build};
use crate::line_read::LineRead;
use crate::opening::{heads_for, open, rooms_for};
use crate::output::OutputBuffer;
use crate::source::Room;
use crate::sources::advance;
use crate::writing::put_pair;
use kmc_count::Limits;
use kmc_device::Counted;
use std::alloc::Global;
use std::io::Write;

/// Takes all lines of the sources, least word first, and writes the dump of their sum.
fn drain<R: LineRead, W: Write>(
    readers: &mut [Counted<R>],
    rooms: &mut [Room],
    heads: &mut [Head],
    k: usize,
    limits: &Limits,
    writer: &mut Counted<W>,
) -> Result<u64, SumError>
    requires ready { AreReady k (length readers.old) rooms.old heads.old }
    requires some { 1 ≤ length readers.old }
    requires tree { IsTree heads.old }
    requires long { IsLength k }
    ensures { (starts : List (Option (List ℕ))) (lists : List (List (List ℕ × ℕ)))
        → AreSources k starts (lefts_of R.remaining readers.old) rooms.old heads.old lists
        → ((x : List ℕ) → sum_of lists x ≡ 0)
        → IsMergeAnswer R.remaining W.contents limits.now starts readers.old readers.new
        writer.old writer.new result }
{
    let mut buffer = OutputBuffer::new();
    let mut lines: u64 = 0;
    let mut packed: u128 = 0;
    let mut count: u64 = 0;
    for _step in 0..u64::MAX - 1 {
        if !heads[1].live {
            break;
        }
        let next = heads[1].packed;
        let more = heads[1].count;
        if next == packed {
            count = count.saturating_add(more);
        } else {
            match put_pair(writer, &mut buffer, limits, k, packed, count) {
                Ok(put) => lines += put,
                Err(_) => return Err(SumError::Write),
            }
            packed = next;
            count = more;
        }
        advance(readers, rooms, heads, k)?;
    }
    if heads[1].live {
        return Err(SumError::TooLong);
    }
    match put_pair(writer, &mut buffer, limits, k, packed, count) {
        Ok(put) => match buffer.flush_into(writer) {
            Ok(()) => Ok(lines + put),
            Err(_) => Err(SumError::Write),
        },
        Err(_) => Err(SumError::Write),
    }
}

/// Opens the sources and writes the dump of their sum, with rooms and heads that are there.
fn merge_in<R: LineRead, W: Write>(
    readers: &mut [Counted<R>],
    rooms: &mut [Room],
    heads: &mut [Head],
    limits: &Limits,
    writer: &mut Counted<W>,
) -> Result<u64, SumError>
    requires some { 1 ≤ length readers.old }
    requires rooms { (length rooms.old ≡ length readers.old)
        × ((i : ℕ) (room : _) → i < length readers.old
        → IsFresh (slice_index_or rooms.old i room)) }
    requires heads { length heads.old ≡ 2 * length readers.old }
    ensures { IsMergeAnswer R.remaining W.contents limits.now
        (lefts_of R.remaining readers.old) readers.old readers.new writer.old writer.new result }
{
    let k = open(readers, rooms, heads)?;
    build(heads);
    drain(readers, rooms, heads, k, limits, writer)
}

/// The most sources of a merge.
pub const MOST_SOURCES: usize = 1000;

/// Reads the dumps of all sources side by side, a block of each at a time, and writes the dump of the sum of the counts
/// that they list, within the limits; says how many lines it has. A sum above 2^64 - 1 stays there, where no limit lists
/// it. It takes 64 KiB a source and about log2 n comparisons a line of n sources. After a refusal what went out is a front
/// of the dump of what the sources gave before it.
pub fn merge<R: LineRead, W: Write>(
    alloc: Global,
    readers: &mut [Counted<R>],
    limits: &Limits,
    writer: &mut Counted<W>,
) -> Result<u64, SumError>
    requires some { 1 ≤ length readers.old }
    requires most { length readers.old ≤ MOST_SOURCES }
    ensures { IsMergeAnswer R.remaining W.contents limits.now
        (lefts_of R.remaining readers.old) readers.old readers.new writer.old writer.new result }
{
    let count = readers.len();
    let mut rooms = match rooms_for(alloc, count) {
        Ok(rooms) => rooms,
        Err(_) => return Err(SumError::Memory),
    };
    let mut heads = match heads_for(alloc, 2 * count) {
        Ok(heads) => heads,
        Err(_) => return Err(SumError::Memory),
    };
    merge_in(
        readers,
        rooms.as_mut_slice(),
        heads.as_mut_slice(),
        limits,
        writer,
    )
}
