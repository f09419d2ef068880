//! Shares of the words of sorted lists of items: those from one word to another.
ghost use Rattle.std.specs.Prelude.{◌≡◌, ℕ, ◌+◌, ◌<◌, ◌≤◌, ◌^◌, List, map, All, OnOk};
ghost use Rattle.std.specs.List.{filter};
ghost use Rattle.std.specs.List.Sorted.{IsSorted};
ghost use Rattle.std.specs.Ordering.{nat_cmp};
ghost use Rattle.kmc_count.specs.Merge.{joined};
ghost use Rattle.kmc_stage_two.specs.Shares.{has_word_from};

use kmc_base::PackedKmer;
use kmc_count::ItemForm;
use std::alloc::AllocError;

/// The words from the first to the last, and in how many parts they are to be counted.
#[derive(Clone, Copy)]
pub(crate) struct Share {
    pub(crate) first: u128,
    pub(crate) last: u128,
    pub(crate) parts: usize,
}

/// The items of a list whose words are in a share.
fn items_in<W: PackedKmer + Drop>(list: &[W], form: ItemForm<W>, share: Share) -> &[W]
    requires sorted { IsSorted nat_cmp (map W.number list.now) }
    ensures { map W.number result.now
        ≡ filter (has_word_from (2 ^ form.bits) share.first share.last) (map W.number list.now) }
{
    let bits = form.bits;
    let first = share.first;
    let last = share.last;
    let begin = list.partition_point(|item| item.to_u128() >> bits < first);
    let rest = &list[begin..];
    let end = rest.partition_point(|item| item.to_u128() >> bits <= last);
    &rest[..end]
}

/// Puts the items of all lists whose words are in a share into a room, in place of what it had.
pub(crate) fn gather_items<W: PackedKmer + Drop>(
    room: &mut Vec<W>,
    lists: &[Vec<W>],
    form: ItemForm<W>,
    share: Share,
) -> Result<(), AllocError>
    requires sorted { All (IsSorted nat_cmp) (map (λ v. map W.number v.items) lists.now) }
    ensures { OnOk result (map W.number room.new.items
        ≡ filter (has_word_from (2 ^ form.bits) share.first share.last)
        (joined (map (λ v. map W.number v.items) lists.now))) }
{
    room.clear();
    for list in lists {
        room.extend_from_slice(items_in(list, form, share))?;
    }
    Ok(())
}

/// Where the back of a share begins, so that as many of the first list's items lie before it as belong to so many of its parts.
fn middle_of<W: PackedKmer + Drop>(
    lists: &[Vec<W>],
    form: ItemForm<W>,
    share: Share,
    few: usize,
) -> u128
    requires sorted { All (IsSorted nat_cmp) (map (λ v. map W.number v.items) lists.now) }
    requires wide { share.first < share.last }
    requires parts { 1 ≤ share.parts }
    ensures { (share.first < result) × (result ≤ share.last) }
{
    let mut middle = share.last;
    if !lists.is_empty() {
        let items = items_in(&lists[0], form, share);
        if let Some(item) = items.get((items.len() / share.parts).saturating_mul(few)) {
            middle = item.to_u128() >> form.bits;
        }
    }
    middle.max(share.first + 1).min(share.last)
}

/// The front and the back of a share, each with some of its parts.
pub(crate) fn halves<W: PackedKmer + Drop>(
    lists: &[Vec<W>],
    form: ItemForm<W>,
    share: Share,
) -> (Share, Share)
    requires sorted { All (IsSorted nat_cmp) (map (λ v. map W.number v.items) lists.now) }
    requires wide { share.first < share.last }
    requires parts { 2 ≤ share.parts }
    ensures first { result.0.first ≡ share.first }
    ensures front { result.0.first ≤ result.0.last }
    ensures next { result.1.first ≡ result.0.last + 1 }
    ensures back { result.1.first ≤ result.1.last }
    ensures last { result.1.last ≡ share.last }
    ensures few { (1 ≤ result.0.parts) × (result.0.parts < share.parts) }
    ensures others { (1 ≤ result.1.parts) × (result.1.parts < share.parts) }
{
    let few = share.parts / 2;
    let middle = middle_of(lists, form, share, few);
    let front = Share {
        first: share.first,
        last: middle - 1,
        parts: few,
    };
    let back = Share {
        first: middle,
        last: share.last,
        parts: share.parts - few,
    };
    (front, back)
}
