//! Whether the bytes of a count hold the counts of lists.
ghost use Rattle.std.specs.Prelude.{◌≡◌, ◌^◌, ◌<◌, ◌≤◌, true, false};
ghost use Rattle.std.specs.List.{All};
ghost use Rattle.kmc_database.specs.Layout.{IsLayout};
ghost use Rattle.kmc_lists.specs.Lists.{lists_of};
ghost use Rattle.kmc_lists.specs.Ordered.{joined, packs};
ghost use Rattle.kmc_packer.specs.Counts.{HasGreat};

use kmc_base::PackedKmer;
use kmc_database::{Layout, holds_count};
use kmc_lists::{BinLists, CountWidth, KmerList, SizedLists};

/// Whether a list has a count that the bytes of a count do not hold. No count is tested that is too narrow for that.
fn has_great<W: PackedKmer + Drop, C: CountWidth + Drop>(
    list: &KmerList<W, C>,
    layout: &Layout,
) -> bool
    requires { IsLayout layout.now }
    ensures great { result ≡ true → HasGreat layout.now.counter list.now.packed }
    ensures held { result ≡ false → All (λ p. p.1 < 256 ^ layout.now.counter) list.now.packed }
{
    let narrow = C::bits() as usize <= 8 * layout.counter;
    for i in 0..list.len() {
        let (_, count) = list.get(i);
        let count = count.to_u64();
        if !narrow && !holds_count(layout, count) {
            return true;
        }
    }
    false
}

/// [`has_great`] of any of the lists.
fn have_great<W: PackedKmer + Drop, C: CountWidth + Drop>(
    lists: &[KmerList<W, C>],
    layout: &Layout,
) -> bool
    requires { IsLayout layout.now }
    ensures great { result ≡ true → HasGreat layout.now.counter (joined (packs lists.now)) }
    ensures held { result ≡ false
        → All (λ p. p.1 < 256 ^ layout.now.counter) (joined (packs lists.now)) }
{
    for list in lists {
        if has_great(list, layout) {
            return true;
        }
    }
    false
}

/// [`has_great`] of any of the lists of bins, whatever their widths.
pub(crate) fn bins_have_great(lists: &BinLists, layout: &Layout) -> bool
    requires { IsLayout layout.now }
    ensures great { result ≡ true
        → HasGreat layout.now.counter (joined (packs (lists_of lists.now))) }
    ensures held { result ≡ false
        → All (λ p. p.1 < 256 ^ layout.now.counter) (joined (packs (lists_of lists.now))) }
{
    match lists {
        BinLists::Narrow(SizedLists::U8(lists)) => have_great(lists, layout),
        BinLists::Narrow(SizedLists::U32(lists)) => have_great(lists, layout),
        BinLists::Narrow(SizedLists::U64(lists)) => have_great(lists, layout),
        BinLists::Wide(SizedLists::U8(lists)) => have_great(lists, layout),
        BinLists::Wide(SizedLists::U32(lists)) => have_great(lists, layout),
        BinLists::Wide(SizedLists::U64(lists)) => have_great(lists, layout),
    }
}
