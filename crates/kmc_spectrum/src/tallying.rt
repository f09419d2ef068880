//! How many pairs of the lists of bins have each count, in a map.
ghost use Rattle.std.specs.Prelude.{ℕ, ◌+◌, ◌^◌, ◌<◌, ◌≤◌, length, IfOk, OnOk};
ghost use Rattle.std.specs.Ordering.{nat_cmp};
ghost use Rattle.kmc_lists.specs.Lists.{lists_of};
ghost use Rattle.kmc_lists.specs.Ordered.{joined, packs};
ghost use Rattle.kmc_join.specs.Rows.{HasNoZero};
ghost use Rattle.kmc_join.specs.Tally.{seen};
ghost use Rattle.kmc_spectrum.specs.Tallied.{IsTallyOf, SeesPairs};

use kmc_base::PackedKmer;
use kmc_join::laws::nothing_is_tallied;
use kmc_join::{Tally, none_small, put_small, see_count};
use kmc_lists::{BinLists, CountWidth, KmerList, SizedLists};
use std::alloc::{AllocError, Global};
use std::collections::BTreeMap;

/// Tallies the counts of one list, behind so many others.
fn tally_list<W: PackedKmer + Drop, C: CountWidth + Drop>(
    small: &mut Vec<u64>,
    great: &mut Tally<u64>,
    list: &KmerList<W, C>,
    before: u64,
) -> Result<(), AllocError>
    requires sound { HasNoZero nat_cmp great.old }
    requires few { (n : ℕ) → seen small.old.items great.old n ≤ before }
    requires room { before + length list.now.packed < 2 ^ 64 }
    ensures { OnOk result (SeesPairs small.old.items small.new.items great.old great.new list.now.packed) }
{
    for i in 0..list.len() {
        let (_, count) = list.get(i);
        see_count(small, great, count.to_u64())?;
    }
    Ok(())
}

/// Tallies the counts of lists, one after the other. It fails for want of memory, and where there are more pairs than a number tells,
/// which no memory could hold.
fn tally_lists<W: PackedKmer + Drop, C: CountWidth + Drop>(
    alloc: Global,
    lists: &[KmerList<W, C>],
) -> Result<Tally<u64>, AllocError>
    ensures { IfOk result (IsTallyOf (joined (packs lists.now))) }
{
    nothing_is_tallied();
    let mut small = none_small(alloc)?;
    let mut tally = BTreeMap::new(alloc);
    let mut before: u64 = 0;
    for list in lists {
        let Some(behind) = before.checked_add(list.len() as u64) else {
            return Err(AllocError);
        };
        tally_list(&mut small, &mut tally, list, before)?;
        before = behind;
    }
    put_small(small.as_slice(), &mut tally)?;
    Ok(tally)
}

/// [`tally_lists`] of the lists of bins, whatever their widths.
pub(crate) fn tally_of(alloc: Global, lists: &BinLists) -> Result<Tally<u64>, AllocError>
    ensures { IfOk result (IsTallyOf (joined (packs (lists_of lists.now)))) }
{
    match lists {
        BinLists::Narrow(SizedLists::U8(lists)) => tally_lists(alloc, lists),
        BinLists::Narrow(SizedLists::U32(lists)) => tally_lists(alloc, lists),
        BinLists::Narrow(SizedLists::U64(lists)) => tally_lists(alloc, lists),
        BinLists::Wide(SizedLists::U8(lists)) => tally_lists(alloc, lists),
        BinLists::Wide(SizedLists::U32(lists)) => tally_lists(alloc, lists),
        BinLists::Wide(SizedLists::U64(lists)) => tally_lists(alloc, lists),
    }
}
