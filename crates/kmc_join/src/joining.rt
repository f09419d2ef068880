//! The dump of the join of two dumps.
ghost use Rattle.std.specs.Prelude.{◌≡◌, ℕ, ◌*◌, ◌<◌, List, length, Option, slice_index_or};
ghost use Rattle.kmc_sum.specs.Heads.{IsTree};
ghost use Rattle.kmc_sum.specs.Listed.{IsLength};
ghost use Rattle.kmc_sum.specs.Sources.{IsFresh, AreReady, lefts_of, no_lists};
ghost use Rattle.kmc_join.specs.Answer.{IsJoinAnswer};
ghost use Rattle.kmc_join.specs.Taking.{AreAbreast};

use crate::rule::JoinRule;
use crate::taking::take_word;
use kmc_count::Limits;
use kmc_device::Counted;
use kmc_sum::{
    Head, LineRead, OutputBuffer, Room, SumError, build, heads_for, open, put_pair, rooms_for,
};
use std::alloc::Global;
use std::io::Write;

/// Takes all lines of the two sources, least word first, and writes the dump of their join.
fn drain<R: LineRead, W: Write>(
    readers: &mut [Counted<R>],
    rooms: &mut [Room],
    heads: &mut [Head],
    k: usize,
    rule: JoinRule,
    limits: &Limits,
    writer: &mut Counted<W>,
) -> Result<u64, SumError>
    requires ready { AreReady k (length readers.old) rooms.old heads.old }
    requires two { length readers.old ≡ 2 }
    requires tree { IsTree heads.old }
    requires long { IsLength k }
    ensures { (starts : List (Option (List ℕ)))
        → AreAbreast k starts (lefts_of R.remaining readers.old) rooms.old heads.old (no_lists starts)
        → IsJoinAnswer R.remaining W.contents rule limits.now starts readers.old readers.new
        writer.old writer.new result }
{
    let mut buffer = OutputBuffer::new();
    let mut lines: u64 = 0;
    for _step in 0..u64::MAX - 1 {
        if !heads[1].live {
            break;
        }
        let word = take_word(readers, rooms, heads, k)?;
        let number = rule.number(word.counts[0], word.counts[1]);
        match put_pair(writer, &mut buffer, limits, k, word.packed, number) {
            Ok(put) => lines += put,
            Err(_) => return Err(SumError::Write),
        }
    }
    if heads[1].live {
        return Err(SumError::TooLong);
    }
    match buffer.flush_into(writer) {
        Ok(()) => Ok(lines),
        Err(_) => Err(SumError::Write),
    }
}

/// Opens the two sources and writes the dump of their join, with rooms and heads that are there.
fn join_in<R: LineRead, W: Write>(
    readers: &mut [Counted<R>],
    rooms: &mut [Room],
    heads: &mut [Head],
    rule: JoinRule,
    limits: &Limits,
    writer: &mut Counted<W>,
) -> Result<u64, SumError>
    requires two { length readers.old ≡ 2 }
    requires rooms { (length rooms.old ≡ length readers.old)
        × ((i : ℕ) (room : _) → i < length readers.old
        → IsFresh (slice_index_or rooms.old i room)) }
    requires heads { length heads.old ≡ 2 * length readers.old }
    ensures { IsJoinAnswer R.remaining W.contents rule limits.now
        (lefts_of R.remaining readers.old) readers.old readers.new writer.old writer.new result }
{
    let k = open(readers, rooms, heads)?;
    build(heads);
    drain(readers, rooms, heads, k, rule, limits, writer)
}

/// Reads the dumps of two sources side by side, a block of each at a time, and writes the dump of their join, the numbers that it gives
/// words within the limits; says how many lines it has. It takes 64 KiB a source and a buffer for what is written. After a refusal what
/// went out is a front of the dump of what the sources gave before it.
pub fn join<R: LineRead, W: Write>(
    alloc: Global,
    readers: &mut [Counted<R>],
    rule: JoinRule,
    limits: &Limits,
    writer: &mut Counted<W>,
) -> Result<u64, SumError>
    requires two { length readers.old ≡ 2 }
    ensures { IsJoinAnswer R.remaining W.contents rule limits.now
        (lefts_of R.remaining readers.old) readers.old readers.new writer.old writer.new result }
{
    let mut rooms = match rooms_for(alloc, 2) {
        Ok(rooms) => rooms,
        Err(_) => return Err(SumError::Memory),
    };
    let mut heads = match heads_for(alloc, 4) {
        Ok(heads) => heads,
        Err(_) => return Err(SumError::Memory),
    };
    join_in(
        readers,
        rooms.as_mut_slice(),
        heads.as_mut_slice(),
        rule,
        limits,
        writer,
    )
}
