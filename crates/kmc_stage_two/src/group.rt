//! A group of bodies, counted by several threads: giants together, and of the others each takes the largest one that none has
//! taken.
ghost use Rattle.std.specs.Prelude.{◌≤◌, ℕ, map, IfOk, IsErrOf};
ghost use Rattle.std.specs.List.{All};
ghost use Rattle.kmc_record.specs.declared.fault.RecordFault.{RecordFault};
ghost use Rattle.kmc_count.specs.Asked.{AreForeign, AreOfBins};
ghost use Rattle.kmc_count.specs.Bodies.{IsFirstDamaged};
ghost use Rattle.kmc_stage_two.specs.Bodies.{AreListsOfBodies, BodiesWantMemory, IsListAt};

use crate::count_rule::CountRule;
use crate::giants::take_giants;
use crate::largest_first::LargestFirst;
use crate::placed::{Placed, in_order};
use crate::row::list_row;
use crate::taking::take_by_threads;
use kmc_base::PackedKmer;
use kmc_lists::{CountWidth, KmerList};
use kmc_record::BodyError;
use std::alloc::Global;
use std::thread::Threads;

/// The lists of all bodies: so many threads count the giants together, and then each takes other bodies, the largest first.
fn take_all<R: Threads + Sync, W: PackedKmer + Drop + Send + Sync, C: CountWidth + Drop + Send>(
    rt: &R,
    alloc: Global,
    bodies: &[Vec<u8>],
    counting: &CountRule,
    threads: usize,
) -> Result<Vec<Placed<W, C>>, BodyError>
    requires most { counting.now.rule.k ≤ W.most }
    requires wide { counting.now.limits.cs ≤ C.greatest }
    ensures { IfOk result (λ lists. All (λ p. IsListAt counting.now.rule.strands counting.now.rule.k counting.now.limits counting.now.asked
        (map (λ b. b.items) bodies.now) p.place p.list) lists.items) }
{
    let order = LargestFirst::new(alloc, bodies)?;
    let mut lists = take_giants(rt, alloc, &order, bodies, counting, threads)?;
    let mut others = take_by_threads(rt, alloc, &order, bodies, counting, threads)?;
    lists.append(&mut others)?;
    Ok(lists)
}

/// The list of each body of a group, in the order of the bodies, by at most so many threads. Where one of them meets a fault or is
/// refused memory, the calling thread counts the bodies anew, one after the other, so that the fault is that of the first body that
/// is damaged.
pub(crate) fn list_group<
    R: Threads + Sync,
    W: PackedKmer + Drop + Send + Sync,
    C: CountWidth + Drop + Send,
>(
    rt: &R,
    alloc: Global,
    bodies: &[Vec<u8>],
    counting: &CountRule,
    threads: usize,
) -> Result<Vec<KmerList<W, C>>, BodyError>
    requires most { counting.now.rule.k ≤ W.most }
    requires wide { counting.now.limits.cs ≤ C.greatest }
    ensures ok { IfOk result (λ lists. AreListsOfBodies counting.now.rule.strands counting.now.rule.k counting.now.limits
        (map (λ b. b.items) bodies.now) lists.items) }
    ensures damaged { (fault : RecordFault) (offset : ℕ)
        → IsErrOf result (BodyError.Damaged fault offset)
        → IsFirstDamaged counting.now.rule.k fault offset (map (λ b. b.items) bodies.now) }
    ensures memory { IsErrOf result BodyError.Memory
        → BodiesWantMemory counting.now.rule.k (map (λ b. b.items) bodies.now) }
    ensures judged { IfOk result (λ _. AreOfBins counting.now.asked (map (λ b. b.items) bodies.now)) }
    ensures wrong { IsErrOf result BodyError.WrongBin
        → AreForeign counting.now.rule.k counting.now.asked (map (λ b. b.items) bodies.now) }
{
    if threads > 1 {
        if let Ok(placed) = take_all(rt, alloc, bodies, counting, threads) {
            if let Some(lists) = in_order(alloc, placed, bodies.len()) {
                return Ok(lists);
            }
        }
    }
    list_row(alloc, bodies, counting)
}
