//! The dump of sorted lists of items: each thread merges a share of the words, in parts that need little room.
ghost use Rattle.std.specs.Prelude.{◌≡◌, ℕ, ◌+◌, ◌*◌, ◌≤◌, List, map, IfOk};
ghost use Rattle.std.specs.List.Sorted.{IsPermutation, IsSorted};
ghost use Rattle.std.specs.Ordering.{nat_cmp};
ghost use Rattle.std.specs.Thread.{IsSync};
ghost use Rattle.kmc_count.specs.declared.limits.Limits.{Limits};
ghost use Rattle.kmc_stage_two.specs.Shares.{AreSortedItems, IsDumpOfShare};
ghost use Rattle.kmc_stage_two.specs.declared.share.Share.{Share};

use crate::share::{Share, gather_items, halves};
use kmc_base::PackedKmer;
use kmc_count::{ItemForm, Limits, tally};
use kmc_lists::{CountWidth, KmerList};
use std::alloc::{AllocError, Global};
use std::thread;
use std::thread::Threads;

/// In so many parts a thread counts its share, one after the other.
const PARTS: usize = 16;

/// Sorts items that are a few lists which rise, one behind the other: std's stable sort finds these lists and merges them, and
/// where it gets no memory the items are sorted in place.
fn merge_lists<W: PackedKmer + Drop>(items: &mut Vec<W>)
    ensures moved { IsPermutation (map W.number items.old.items) (map W.number items.new.items) }
    ensures sorted { IsSorted nat_cmp (map W.number items.new.items) }
{
    let _ = items.sort_by_key(|item| item.to_u128());
    W::sort(items);
}

/// The dump of a share, in one part. The room for its items is used again.
fn list_part<W: PackedKmer + Drop, C: CountWidth + Drop>(
    alloc: Global,
    room: &mut Vec<W>,
    lists: &[Vec<W>],
    form: ItemForm<W>,
    limits: Limits,
    share: Share,
) -> Result<KmerList<W, C>, AllocError>
    requires wide { limits.cs ≤ C.greatest }
    requires lists { AreSortedItems form.rule.k form.bits (map (λ v. map W.number v.items) lists.now) }
    ensures { IfOk result (λ c. IsDumpOfShare form.rule.k form.bits limits share.first share.last
        (map (λ v. map W.number v.items) lists.now) c) }
{
    gather_items(room, lists, form, share)?;
    merge_lists(room);
    let mut pairs = KmerList::new(alloc, form.rule.k);
    tally(&mut pairs, room, form, &limits)?;
    Ok(pairs)
}

/// The dump of a share, part by part.
#[cycle(turns)]
fn list_in_turn<W: PackedKmer + Drop, C: CountWidth + Drop>(
    alloc: Global,
    room: &mut Vec<W>,
    lists: &[Vec<W>],
    form: ItemForm<W>,
    limits: Limits,
    share: Share,
) -> Result<KmerList<W, C>, AllocError>
    requires wide { limits.cs ≤ C.greatest }
    requires lists { AreSortedItems form.rule.k form.bits (map (λ v. map W.number v.items) lists.now) }
    requires share { share.first ≤ share.last }
    ensures { IfOk result (λ c. IsDumpOfShare form.rule.k form.bits limits share.first share.last
        (map (λ v. map W.number v.items) lists.now) c) }
{
    if share.parts <= 1 || share.first == share.last {
        return list_part(alloc, room, lists, form, limits, share);
    }
    let (low, high) = halves(lists, form, share);
    let pairs = list_in_turn(alloc, room, lists, form, limits, low)?;
    let more = list_in_turn(alloc, room, lists, form, limits, high)?;
    pairs.joined(more)
}

/// The dumps of two shares that are neighbours as one, or the first error.
fn both_shares<W: PackedKmer + Drop, C: CountWidth + Drop>(
    front: Result<KmerList<W, C>, AllocError>,
    back: Result<KmerList<W, C>, AllocError>,
    k: usize,
) -> Result<KmerList<W, C>, AllocError>
    requires front { IfOk front (λ c. c.k ≡ k) }
    requires back { IfOk back (λ c. c.k ≡ k) }
    ensures { (f : ℕ) (l : Limits) (low high : Share) (lists : List (List ℕ))
        → high.first ≡ low.last + 1 → low.first ≤ low.last → high.first ≤ high.last
        → IfOk front (IsDumpOfShare k f l low.first low.last lists)
        → IfOk back (IsDumpOfShare k f l high.first high.last lists)
        → IfOk result (IsDumpOfShare k f l low.first high.last lists) }
{
    let pairs = front?;
    let more = back?;
    pairs.joined(more)
}

/// The dump of a share by as many threads as it has parts.
#[cycle(sharers)]
pub(crate) fn list_share<
    R: Threads + Sync,
    W: PackedKmer + Drop + Send + Sync,
    C: CountWidth + Drop + Send,
>(
    rt: &R,
    alloc: Global,
    lists: &[Vec<W>],
    form: ItemForm<W>,
    limits: Limits,
    share: Share,
) -> Result<KmerList<W, C>, AllocError>
    requires wide { limits.cs ≤ C.greatest }
    requires lists { AreSortedItems form.rule.k form.bits (map (λ v. map W.number v.items) lists.now) }
    requires share { share.first ≤ share.last }
    ensures { IfOk result (λ c. IsDumpOfShare form.rule.k form.bits limits share.first share.last
        (map (λ v. map W.number v.items) lists.now) c) }
{
    if share.parts <= 1 || share.first == share.last {
        let own = Share {
            first: share.first,
            last: share.last,
            parts: PARTS,
        };
        let mut room = Vec::new(alloc);
        return list_in_turn(alloc, &mut room, lists, form, limits, own);
    }
    let (low, high) = halves(lists, form, share);
    let front = move || -> Result<KmerList<W, C>, AllocError>
        requires { IsSync R.row × (limits.cs ≤ C.greatest)
            × AreSortedItems form.rule.k form.bits (map (λ v. map W.number v.items) lists.now)
            × (low.first ≤ low.last) }
        ensures { IfOk result (λ c. IsDumpOfShare form.rule.k form.bits limits low.first low.last
            (map (λ v. map W.number v.items) lists.entry.now) c) }
    { list_share(rt, alloc, lists, form, limits, low) };
    let back = move || -> Result<KmerList<W, C>, AllocError>
        requires { IsSync R.row × (limits.cs ≤ C.greatest)
            × AreSortedItems form.rule.k form.bits (map (λ v. map W.number v.items) lists.now)
            × (high.first ≤ high.last) }
        ensures { IfOk result (λ c. IsDumpOfShare form.rule.k form.bits limits high.first high.last
            (map (λ v. map W.number v.items) lists.entry.now) c) }
    { list_share(rt, alloc, lists, form, limits, high) };
    let (first, second) = thread::join(rt, front, back);
    both_shares(first, second, form.rule.k)
}
