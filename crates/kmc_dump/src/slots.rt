//! How many pairs lie in each slot.
ghost use Rattle.std.specs.Prelude.{◌≡◌, ℕ, List, ◌++◌, ◌+◌, ◌/◌, ◌^◌, ◌<◌, ◌≤◌, length, All, slice_index, slice_index_or, OnOk, IfOk};
ghost use Rattle.std.specs.Thread.{IsSync};
ghost use Rattle.kmc_lists.specs.Listed.{Listed};
ghost use Rattle.kmc_lists.specs.Ordered.{within};
ghost use Rattle.kmc_dump.specs.Ranges.{FitSlots, HaveSizes};

use kmc_base::PackedKmer;
use kmc_lists::{CountWidth, KmerList};
use std::alloc::{AllocError, Global};
use std::thread::{Threads, join_mut};

/// Adds the pairs of a list to the numbers of pairs of their slots. It fails where a number is too large, for which no
/// memory could hold the pairs.
fn add_list<W: PackedKmer + Drop, C: CountWidth + Drop>(
    sizes: &mut [usize],
    list: &KmerList<W, C>,
    shift: u32,
) -> Result<(), AllocError>
    requires shift { shift < 128 }
    requires inside { All (λ p. p.0 / 2 ^ shift < length sizes.old) list.now.packed }
    ensures { OnOk result ((i : ℕ) → i < length sizes.old
        → slice_index sizes.new i
        ≡ slice_index sizes.old i + length (within (2 ^ shift) i (i + 1) list.now.packed)) }
{
    for i in 0..list.len() {
        let (word, _) = list.get(i);
        let slot = (word.to_u128() >> shift) as usize;
        let Some(size) = sizes[slot].checked_add(1) else {
            return Err(AllocError);
        };
        sizes[slot] = size;
    }
    Ok(())
}

/// The number of pairs in each slot below `slots`, where all lie, list by list.
fn sizes_of<W: PackedKmer + Drop, C: CountWidth + Drop>(
    alloc: Global,
    lists: &[KmerList<W, C>],
    shift: u32,
    slots: usize,
) -> Result<Vec<usize>, AllocError>
    requires shift { shift < 128 }
    requires inside { FitSlots (2 ^ shift) slots lists.now }
    ensures { IfOk result (λ sizes. HaveSizes (2 ^ shift) slots sizes.items lists.now) }
{
    let mut sizes = vec![in alloc; 0; slots]?;
    for list in lists {
        add_list(&mut sizes, list, shift)?;
    }
    Ok(sizes)
}

/// Adds numbers of pairs, slot by slot. It fails where a sum is too large, for which no memory could hold the pairs.
fn add_sizes(sizes: &mut [usize], more: &[usize]) -> Result<(), AllocError>
    ensures { OnOk result ((i : ℕ) → i < length sizes.old → i < length more.now
        → slice_index_or sizes.new i 0 ≡ slice_index_or sizes.old i 0 + slice_index_or more.now i 0) }
{
    for slot in 0..sizes.len().min(more.len()) {
        let Some(size) = sizes[slot].checked_add(more[slot]) else {
            return Err(AllocError);
        };
        sizes[slot] = size;
    }
    Ok(())
}

/// The numbers of pairs of lists and of those behind them.
fn both_sizes(
    one: Result<Vec<usize>, AllocError>,
    two: Result<Vec<usize>, AllocError>,
) -> Result<Vec<usize>, AllocError>
    ensures { (weight slots : ℕ) (low high : List Listed)
        → IfOk one (λ sizes. HaveSizes weight slots sizes.items low)
        → IfOk two (λ sizes. HaveSizes weight slots sizes.items high)
        → IfOk result (λ sizes. HaveSizes weight slots sizes.items (low ++ high)) }
{
    let mut sizes = one?;
    let more = two?;
    add_sizes(&mut sizes, &more)?;
    Ok(sizes)
}

/// The first half of the lists, and the others.
fn halves<W: PackedKmer, C: CountWidth>(
    lists: &[KmerList<W, C>],
    shift: u32,
    slots: usize,
) -> (&[KmerList<W, C>], &[KmerList<W, C>])
    requires { FitSlots (2 ^ shift) slots lists.now }
    ensures low { FitSlots (2 ^ shift) slots result.0.now }
    ensures high { FitSlots (2 ^ shift) slots result.1.now }
    ensures all { result.0.now ++ result.1.now ≡ lists.now }
{
    lists.split_at(lists.len() / 2)
}

/// The number of pairs in each slot below `slots`, where all lie, by at most so many threads: the lists are halved, and one half is
/// counted in another thread with its part of the threads, again and again. Where no thread can be made, the calling thread counts.
#[cycle(sizes)]
pub fn slot_sizes<
    R: Threads + Sync,
    W: PackedKmer + Drop + Send + Sync,
    C: CountWidth + Drop + Send + Sync,
>(
    rt: &R,
    alloc: Global,
    lists: &[KmerList<W, C>],
    shift: u32,
    slots: usize,
    threads: usize,
) -> Result<Vec<usize>, AllocError>
    requires shift { shift < 128 }
    requires inside { FitSlots (2 ^ shift) slots lists.now }
    ensures { IfOk result (λ sizes. HaveSizes (2 ^ shift) slots sizes.items lists.now) }
{
    if threads <= 1 {
        return sizes_of(alloc, lists, shift, slots);
    }
    let few = threads / 2;
    let others = threads - few;
    let (low, high) = halves(lists, shift, slots);
    let mut front = || -> Result<Vec<usize>, AllocError>
        requires { IsSync R.row × IsSync W.row × IsSync C.row × (shift < 128) × FitSlots (2 ^ shift) slots low.now }
        ensures { IfOk result (λ sizes. HaveSizes (2 ^ shift) slots sizes.items low.entry.now) }
    { slot_sizes(rt, alloc, low, shift, slots, few) };
    let mut back = || -> Result<Vec<usize>, AllocError>
        requires { IsSync R.row × IsSync W.row × IsSync C.row × (shift < 128) × FitSlots (2 ^ shift) slots high.now }
        ensures { IfOk result (λ sizes. HaveSizes (2 ^ shift) slots sizes.items high.entry.now) }
    { slot_sizes(rt, alloc, high, shift, slots, others) };
    let (one, two) = join_mut(rt, &mut front, &mut back);
    both_sizes(one, two)
}
