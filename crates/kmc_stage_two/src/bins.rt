//! The counts of all bins in packed form: group after group of neighbouring bins is counted over threads, and its records are freed.
ghost use Rattle.std.specs.Prelude.{◌≡◌, [], ℕ, ◌≤◌, length, replicate, map, IfOk, IsErrOf};
ghost use Rattle.kmc_record.specs.declared.fault.RecordFault.{RecordFault};
ghost use Rattle.kmc_count.specs.Asked.{AreForeign, AreOfBins};
ghost use Rattle.kmc_count.specs.Bodies.{IsFirstDamaged};
ghost use Rattle.kmc_stage_two.specs.Bodies.{AreLeft, AreListsOfBodies, BodiesWantMemory};

use crate::count_rule::CountRule;
use crate::group::list_group;
use kmc_base::PackedKmer;
use kmc_count::bin_behind;
use kmc_lists::{CountWidth, KmerList};
use kmc_record::BodyError;
use std::alloc::Global;
use std::thread::Threads;

/// The most bodies of a group: enough that threads which take one after the other end at about one time, and few enough that
/// little memory waits to be freed.
const GROUP: usize = 128;

/// Frees the records of bodies.
fn free(alloc: Global, bodies: &mut [Vec<u8>])
    ensures { map (λ b. b.items) bodies.new ≡ replicate (length bodies.old) [] }
{
    for place in 0..bodies.len() {
        bodies[place] = Vec::new(alloc);
    }
}

/// The list of each body, in the order of the bodies, by at most so many threads. The bodies are halved until a half is a group;
/// the records of a group are freed once it is counted. Where a body is damaged, the fault is that of the first such body. Where no
/// thread can be made, the calling thread counts. Where it fails, bodies whose records are there still are as they were.
pub fn list_bodies<
    R: Threads + Sync,
    W: PackedKmer + Drop + Send + Sync,
    C: CountWidth + Drop + Send,
>(
    rt: &R,
    alloc: Global,
    bodies: &mut [Vec<u8>],
    counting: &CountRule,
    threads: usize,
) -> Result<Vec<KmerList<W, C>>, BodyError>
    requires most { counting.now.rule.k ≤ W.most }
    requires wide { counting.now.limits.cs ≤ C.greatest }
    ensures ok { IfOk result (λ lists. AreListsOfBodies counting.now.rule.strands counting.now.rule.k counting.now.limits
        (map (λ b. b.items) bodies.old) lists.items) }
    ensures damaged { (fault : RecordFault) (offset : ℕ)
        → IsErrOf result (BodyError.Damaged fault offset)
        → IsFirstDamaged counting.now.rule.k fault offset (map (λ b. b.items) bodies.old) }
    ensures memory { IsErrOf result BodyError.Memory
        → BodiesWantMemory counting.now.rule.k (map (λ b. b.items) bodies.old) }
    ensures judged { IfOk result (λ _. AreOfBins counting.now.asked (map (λ b. b.items) bodies.old)) }
    ensures wrong { IsErrOf result BodyError.WrongBin
        → AreForeign counting.now.rule.k counting.now.asked (map (λ b. b.items) bodies.old) }
    ensures left { AreLeft counting.now.asked (map (λ b. b.items) bodies.old) (map (λ b. b.items) bodies.new) }
{
    if bodies.len() <= GROUP {
        let lists = list_group(rt, alloc, bodies, counting, threads)?;
        free(alloc, bodies);
        return Ok(lists);
    }
    let middle = bodies.len() / 2;
    let (low, high) = bodies.split_at_mut(middle);
    let mut lists = list_bodies(rt, alloc, low, counting, threads)?;
    let behind = CountRule {
        rule: counting.rule,
        limits: counting.limits,
        asked: bin_behind(counting.asked, middle),
    };
    let mut more = list_bodies(rt, alloc, high, &behind, threads)?;
    lists.append(&mut more)?;
    Ok(lists)
}
