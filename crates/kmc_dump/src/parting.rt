//! The choice of ranges.
ghost use Rattle.std.specs.Prelude.{◌≡◌, ℕ, ◌+◌, ◌-◌, ◌*◌, ◌^◌, ◌<◌, ◌≤◌, List, length, IfOk, OnOk, slice_index_or};
ghost use Rattle.std.specs.List.{AllByRecursion};
ghost use Rattle.kmc_lists.specs.Listed.{Listed};
ghost use Rattle.kmc_lists.specs.Ordered.{Rises, CanBeMerged, packs};
ghost use Rattle.kmc_dump.specs.Ranges.{count_within, ArePartedTo, AreRanges, FitSlots};

use crate::ranges::Ranges;
use crate::slot_range::SlotRange;
use crate::slots::slot_sizes;
use crate::word_size::WordSize;
use kmc_base::PackedKmer;
use kmc_lists::{CountWidth, KmerList};
use std::alloc::{AllocError, Global};
use std::thread::Threads;

/// Slots that follow one another are one range while they have no more pairs than this: so many that the threads which fill
/// buffers work for longer than they take to begin.
const USUAL: usize = 131072;

/// The least and the greatest number of leading symbols that tell a slot, where k has so many.
const LEAST: usize = 6;

const MOST: usize = 10;

/// More symbols are taken while a slot would have more pairs than this.
const SLOT: usize = 16384;

/// A slot with more pairs than this is parted.
const WIDE: usize = 2 * USUAL;

/// Bounds leave out so many bits of a word, so that the end of the last range fits a number for words of any length.
const FINEST: u32 = 2;

/// How many pairs of the lists lie in a range. It fails only where there are more than a number tells, which no memory could hold.
fn count_range<W: PackedKmer + Drop, C: CountWidth + Drop>(
    lists: &[KmerList<W, C>],
    range: SlotRange,
) -> Result<usize, AllocError>
    requires rise { AllByRecursion Rises (packs lists.now) }
    ensures { IfOk result (λ n. n ≡ count_within (2 ^ range.shift) range.from range.to lists.now) }
{
    let mut total: usize = 0;
    for list in lists {
        let begin = list.below(range.shift, range.from);
        let end = list.below(range.shift, range.to);
        let Some(more) = total.checked_add(end - begin) else {
            return Err(AllocError);
        };
        total = more;
    }
    Ok(total)
}

/// Puts bounds behind those of the ranges before, the last of them at the end of a range of so many pairs: it is halved, and so are
/// its halves, until few pairs or one slot are left. The answer is the most pairs of a range.
#[cycle(halves)]
fn part_range<W: PackedKmer + Drop, C: CountWidth + Drop>(
    bounds: &mut Vec<u128>,
    lists: &[KmerList<W, C>],
    range: SlotRange,
    count: usize,
) -> Result<usize, AllocError>
    requires rise { AllByRecursion Rises (packs lists.now) }
    requires count { count ≡ count_within (2 ^ range.shift) range.from range.to lists.now }
    ensures { (widest wider : ℕ) → ArePartedTo (2 ^ range.shift) widest bounds.old.items range.from 0 lists.now
        → IfOk result (λ most. widest ≤ wider → most ≤ wider
        → ArePartedTo (2 ^ range.shift) wider bounds.new.items range.to 0 lists.now) }
{
    if count <= USUAL || range.to - range.from <= 1 {
        bounds.push(range.to)?;
        return Ok(count);
    }
    let middle = range.from + (range.to - range.from) / 2;
    let low = SlotRange {
        shift: range.shift,
        from: range.from,
        to: middle,
    };
    let high = SlotRange {
        shift: range.shift,
        from: middle,
        to: range.to,
    };
    let few = count_range(lists, low)?;
    let first = part_range(bounds, lists, low, few)?;
    let second = part_range(bounds, lists, high, count - few)?;
    Ok(first.max(second))
}

/// How many slots stand for one that leaves out so many bits more of a word.
fn finer_slots(bits: u32) -> u128
    requires { bits < 128 }
    ensures { result ≡ 2 ^ bits }
{
    1 << bits
}

/// Ranges of neighbouring slots: their bounds so far, the most pairs of one, and how many pairs lie behind the last bound.
#[derive(Drop)]
struct Joined {
    bounds: Vec<u128>,
    widest: usize,
    pending: usize,
}

/// Puts a bound behind the pairs that lie behind the last.
fn close_range(joined: &mut Joined, to: u128) -> Result<(), AllocError>
    ensures none { OnOk result (joined.new.pending ≡ 0) }
    ensures last { OnOk result (slice_index_or joined.new.bounds.items
        (length joined.new.bounds.items - 1) 0 ≡ to) }
    ensures are { (weight : ℕ) (lists : List Listed)
        → ArePartedTo weight joined.old.widest joined.old.bounds.items to joined.old.pending lists
        → OnOk result (ArePartedTo weight joined.new.widest joined.new.bounds.items to 0 lists) }
{
    joined.bounds.push(to)?;
    joined.widest = joined.widest.max(joined.pending);
    joined.pending = 0;
    Ok(())
}

/// Puts a slot with so many pairs to the ranges; one with very many is parted.
fn add_slot<W: PackedKmer + Drop, C: CountWidth + Drop>(
    joined: &mut Joined,
    lists: &[KmerList<W, C>],
    range: SlotRange,
    size: usize,
) -> Result<(), AllocError>
    requires rise { AllByRecursion Rises (packs lists.now) }
    requires size { size ≡ count_within (2 ^ range.shift) range.from range.to lists.now }
    ensures { ArePartedTo (2 ^ range.shift) joined.old.widest joined.old.bounds.items range.from joined.old.pending lists.now
        → OnOk result (ArePartedTo
        (2 ^ range.shift) joined.new.widest joined.new.bounds.items range.to joined.new.pending lists.now) }
{
    if joined.pending > 0 && size > USUAL.saturating_sub(joined.pending) {
        close_range(joined, range.from)?;
    }
    if joined.pending == 0 && size > WIDE {
        let most = part_range(&mut joined.bounds, lists, range, size)?;
        joined.widest = joined.widest.max(most);
    } else {
        joined.pending += size;
    }
    Ok(())
}

/// Ranges of neighbouring slots.
fn join_slots<
    R: Threads + Sync,
    W: PackedKmer + Drop + Send + Sync,
    C: CountWidth + Drop + Send + Sync,
>(
    rt: &R,
    alloc: Global,
    lists: &[KmerList<W, C>],
    size: WordSize,
    shift: u32,
    slots: usize,
    threads: usize,
) -> Result<Ranges, AllocError>
    requires merge { CanBeMerged size.k lists.now }
    requires shift { shift < 128 }
    requires room { slots * 2 ^ shift ≤ 2 ^ 128 }
    requires inside { FitSlots (2 ^ shift) slots lists.now }
    ensures { IfOk result (λ r. (r.k ≡ size.k) × AreRanges r lists.now) }
{
    let sizes = slot_sizes(rt, alloc, lists, shift, slots, threads)?;
    let fine = shift.min(FINEST);
    let step = finer_slots(shift - fine);
    let mut joined = Joined {
        bounds: Vec::new(alloc),
        widest: 0,
        pending: 0,
    };
    joined.bounds.push(0)?;
    for slot in 0..slots {
        let begin = slot as u128 * step;
        let range = SlotRange {
            shift: fine,
            from: begin,
            to: begin + step,
        };
        add_slot(&mut joined, lists, range, sizes[slot])?;
    }
    close_range(&mut joined, slots as u128 * step)?;
    let Joined {
        bounds,
        widest,
        pending: _,
    } = joined;
    Ok(Ranges {
        k: size.k,
        shift: fine,
        bounds,
        widest,
    })
}

/// How many leading symbols tell the slot of a word: six, and up to ten where slots would have more than some 16 Ki pairs.
fn leading(total: usize, size: WordSize) -> usize
    ensures some { 1 ≤ result }
    ensures few { result ≤ 10 }
    ensures within { result ≤ size.k }
{
    let mut symbols = LEAST;
    while symbols < MOST && total >> (2 * symbols) > SLOT {
        symbols += 1;
    }
    symbols.min(size.k)
}

/// Ranges of about 128 Ki pairs for lists that have so many pairs in all. The leading symbols of a word tell its slot. It takes
/// memory for a number for each slot in each of so many threads, 8 MiB at the most for one, and fails only where that is refused.
pub fn part_words<
    R: Threads + Sync,
    W: PackedKmer + Drop + Send + Sync,
    C: CountWidth + Drop + Send + Sync,
>(
    rt: &R,
    alloc: Global,
    lists: &[KmerList<W, C>],
    size: WordSize,
    total: usize,
    threads: usize,
) -> Result<Ranges, AllocError>
    requires merge { CanBeMerged size.k lists.now }
    ensures { IfOk result (λ r. (r.k ≡ size.k) × AreRanges r lists.now) }
{
    let symbols = leading(total, size);
    let shift = 2 * (size.k - symbols) as u32;
    join_slots(rt, alloc, lists, size, shift, 1 << (2 * symbols), threads)
}
