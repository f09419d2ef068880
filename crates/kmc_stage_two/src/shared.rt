//! A body that is counted by several threads together: each takes records that follow one another.
ghost use Rattle.std.specs.Prelude.{ℕ, ◌+◌, ◌*◌, ◌≤◌, Option, List, ◌++◌, length, map, IfOk};
ghost use Rattle.std.specs.Thread.{IsSync};
ghost use Rattle.kmc_base.specs.declared.strands.Strands.{Strands};
ghost use Rattle.kmc_count.specs.declared.judging.AskedBin.{AskedBin};
ghost use Rattle.kmc_count.specs.Asked.{asked_behind, IsOfBin};
ghost use Rattle.kmc_count.specs.Bodies.{IsDumpOfBody};
ghost use Rattle.kmc_lists.specs.Listed.{IsListOf, pairs_of};
ghost use Rattle.kmc_stage_two.specs.Shares.{AreListsOfItems};

use crate::count_rule::CountRule;
use crate::merging::list_share;
use crate::share::Share;
use kmc_base::{KeyRule, PackedKmer};
use kmc_count::{AskedBin, ItemForm, bin_behind, items_of_body};
use kmc_lists::{CountWidth, KmerList};
use kmc_record::{BodyError, first_record};
use std::alloc::Global;
use std::thread;
use std::thread::Threads;

/// Where the first record begins that has so many bytes before it; the end of the body where there is none, or where the body is
/// damaged before it.
fn record_behind(body: &[u8], rule: KeyRule, bytes: usize) -> usize
    ensures { result ≤ length body.now }
{
    let mut offset = 0;
    while offset < bytes.min(body.len()) {
        match first_record(&body[offset..], rule.k) {
            Ok((_, codes)) => offset += 1 + codes.len(),
            Err(_) => return body.len(),
        }
    }
    offset
}

/// The items of two pieces of a body, those of the second behind those of the first, or the first error.
fn both_pieces<W: PackedKmer + Drop>(
    first: Result<Vec<Vec<W>>, BodyError>,
    second: Result<Vec<Vec<W>>, BodyError>,
) -> Result<Vec<Vec<W>>, BodyError>
    ensures { (strands : Strands) (k f : ℕ) (asked : Option AskedBin) (low high : List ℕ)
        → IfOk first (λ lists. AreListsOfItems strands k f low (map (λ v. map W.number v.items) lists.items) × IsOfBin asked low)
        → IfOk second (λ lists. AreListsOfItems strands k f high (map (λ v. map W.number v.items) lists.items) × IsOfBin asked high)
        → IfOk result (λ lists. AreListsOfItems strands k f (low ++ high)
        (map (λ v. map W.number v.items) lists.items) × IsOfBin asked (low ++ high)) }
{
    let mut lists = first?;
    let mut more = second?;
    lists.append(&mut more)?;
    Ok(lists)
}

/// The words of a body as items, which so many threads take, each of a piece that is about as long as the others: a list that rises
/// for each thread. A body whose pieces are whole records is whole records. Where no thread can be made, the calling thread takes
/// them all.
#[cycle(sharers)]
fn take_shared<R: Threads + Sync, W: PackedKmer + Drop + Send>(
    rt: &R,
    alloc: Global,
    body: &[u8],
    form: ItemForm<W>,
    asked: &Option<AskedBin>,
    threads: usize,
) -> Result<Vec<Vec<W>>, BodyError>
    ensures { IfOk result (λ lists. AreListsOfItems form.rule.strands form.rule.k form.bits body.now
        (map (λ v. map W.number v.items) lists.items) × IsOfBin asked.now body.now) }
{
    if threads <= 1 {
        let items = items_of_body(alloc, body, form, *asked)?;
        let mut lists = Vec::new(alloc);
        return match lists.push(items) {
            Ok(()) => Ok(lists),
            Err(_) => Err(BodyError::Memory),
        };
    }
    let few = threads / 2;
    let others = threads - few;
    let middle = record_behind(body, form.rule, body.len() / threads * few);
    let (low, high) = body.split_at(middle);
    let front = move || -> Result<Vec<Vec<W>>, BodyError>
        requires { IsSync R.row }
        ensures { IfOk result (λ lists. AreListsOfItems form.rule.strands form.rule.k form.bits low.entry.now
            (map (λ v. map W.number v.items) lists.items) × IsOfBin asked.entry.now low.entry.now) }
    { take_shared(rt, alloc, low, form, asked, few) };
    let back = move || -> Result<Vec<Vec<W>>, BodyError>
        requires { IsSync R.row }
        ensures { IfOk result (λ lists. AreListsOfItems form.rule.strands form.rule.k form.bits high.entry.now
            (map (λ v. map W.number v.items) lists.items) × IsOfBin asked.entry.now high.entry.now) }
    { take_shared(rt, alloc, high, form, asked, others) };
    let (first, second) = thread::join(rt, front, back);
    both_pieces(first, second)
}

/// The dump of the body at a place in packed form, counted by so many threads together; its words belong to the bin that is asked for
/// there. An error tells nothing of the body: pieces that are no
/// whole records are told as damage too, so who wants the fault counts the body in one piece.
pub fn list_by_threads<
    R: Threads + Sync,
    W: PackedKmer + Drop + Send + Sync,
    C: CountWidth + Drop + Send,
>(
    rt: &R,
    alloc: Global,
    body: &[u8],
    place: usize,
    counting: &CountRule,
    threads: usize,
) -> Result<KmerList<W, C>, BodyError>
    requires most { counting.now.rule.k ≤ W.most }
    requires wide { counting.now.limits.cs ≤ C.greatest }
    ensures list { IfOk result (λ c. IsListOf counting.now.rule.k c) }
    ensures ok { IfOk result (λ c. IsDumpOfBody counting.now.rule.strands counting.now.rule.k counting.now.limits body.now
        (pairs_of c)) }
    ensures judged { IfOk result (λ _. IsOfBin (asked_behind place counting.now.asked) body.now) }
{
    let form = ItemForm::<W>::new(counting.rule);
    let asked = bin_behind(counting.asked, place);
    let lists: Vec<Vec<W>> = take_shared(rt, alloc, body, form, &asked, threads)?;
    let all = Share {
        first: 0,
        last: u128::MAX,
        parts: threads,
    };
    let mut pairs = list_share(rt, alloc, &lists, form, counting.limits, all)?;
    pairs.shrink();
    Ok(pairs)
}
