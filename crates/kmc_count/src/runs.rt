//! Runs of items of one word in sorted lists.
ghost use Rattle.std.specs.Prelude.{◌≡◌, ℕ, ◌-◌, ◌^◌, ◌≤◌, length, map, min};
ghost use Rattle.kmc_count.specs.Runs.{IsFirstWord, IsRun};

use kmc_base::{MOST_WEIGHT_BITS, PackedKmer};

/// The lesser of the words that two sorted lists of items begin with; that of one where the other is empty.
pub(crate) fn first_word<W: PackedKmer + Drop>(one: &[W], other: &[W], bits: u32) -> W
    requires bits { bits ≤ MOST_WEIGHT_BITS }
    ensures { IsFirstWord bits (map W.number one.now) (map W.number other.now) (W.number result) }
{
    let first = match (one.first(), other.first()) {
        (Some(item), Some(next)) => item.lesser(*next),
        (Some(item), None) => *item,
        (None, Some(item)) => *item,
        (None, None) => W::zero(),
    };
    first.without_weight(bits)
}

/// How often a word is counted by the items that a list begins with, and the items behind those. A number above 64 bits stops at
/// their greatest.
pub(crate) fn take_run<W: PackedKmer + Drop>(items: &[W], word: W, bits: u32) -> (u64, &[W])
    requires bits { bits ≤ MOST_WEIGHT_BITS }
    ensures { (k : ℕ) → IsRun k bits (map W.number items.now) (W.number word) result.0 (map W.number result.1.now) }
{
    let mut count: u64 = 0;
    let mut taken = 0;
    while taken < items.len() && items[taken].without_weight(bits).is_same(word) {
        count = count.saturating_add(items[taken].times(bits));
        taken += 1;
    }
    (count, &items[taken..])
}
