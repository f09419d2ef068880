//! The lists of all bins, with words and counts as narrow as k and the limits allow.
ghost use Rattle.std.specs.Prelude.{◌≡◌, ℕ, ◌≤◌, map, IfOk, IsErrOf};
ghost use Rattle.kmc_record.specs.declared.fault.RecordFault.{RecordFault};
ghost use Rattle.kmc_count.specs.Asked.{AreForeign, AreOfBins};
ghost use Rattle.kmc_count.specs.Bodies.{IsFirstDamaged};
ghost use Rattle.kmc_stage_two.specs.Bodies.{AreLeft, AreListsOfBodies, BodiesWantMemory};
ghost use Rattle.kmc_stage_two.specs.Widths.{AreNarrow, HaveNarrowCounts};
ghost use Rattle.kmc_lists.specs.Lists.{sized_lists, lists_of};

use crate::bins::list_bodies;
use crate::count_rule::CountRule;
use kmc_base::{KeyRule, MAX_K, PackedKmer, Strands};
use kmc_count::Limits;
use kmc_lists::{BinLists, SizedLists};
use kmc_record::BodyError;
use std::alloc::Global;
use std::thread::Threads;

/// The most symbols of a word that 64 bits hold.
const NARROW_K: usize = 32;

/// The lists of bodies, over words of one width.
fn list_sized<R: Threads + Sync, W: PackedKmer + Drop + Send + Sync>(
    rt: &R,
    alloc: Global,
    bodies: &mut [Vec<u8>],
    counting: &CountRule,
    threads: usize,
) -> Result<SizedLists<W>, BodyError>
    requires most { counting.now.rule.k ≤ W.most }
    ensures ok { IfOk result (λ lists. AreListsOfBodies counting.now.rule.strands counting.now.rule.k counting.now.limits
        (map (λ b. b.items) bodies.old) (sized_lists lists)) }
    ensures width { IfOk result (HaveNarrowCounts counting.now.limits.cs) }
    ensures damaged { (fault : RecordFault) (offset : ℕ)
        → IsErrOf result (BodyError.Damaged fault offset)
        → IsFirstDamaged counting.now.rule.k fault offset (map (λ b. b.items) bodies.old) }
    ensures memory { IsErrOf result BodyError.Memory
        → BodiesWantMemory counting.now.rule.k (map (λ b. b.items) bodies.old) }
    ensures judged { IfOk result (λ _. AreOfBins counting.now.asked (map (λ b. b.items) bodies.old)) }
    ensures wrong { IsErrOf result BodyError.WrongBin
        → AreForeign counting.now.rule.k counting.now.asked (map (λ b. b.items) bodies.old) }
    ensures left { AreLeft counting.now.asked (map (λ b. b.items) bodies.old) (map (λ b. b.items) bodies.new) }
{
    let cs = counting.limits.cs;
    Ok(if cs <= u64::from(u8::MAX) {
        SizedLists::U8(list_bodies(rt, alloc, bodies, counting, threads)?)
    } else if cs <= u64::from(u32::MAX) {
        SizedLists::U32(list_bodies(rt, alloc, bodies, counting, threads)?)
    } else {
        SizedLists::U64(list_bodies(rt, alloc, bodies, counting, threads)?)
    })
}

/// The list of each body, in the order of the bodies, by at most so many threads: 0 and 1 are the calling thread alone. A pair takes 9
/// bytes up to k = 32 and 17 above where cs is below 256, 4 more bytes in place of 1 where it is below 2^32, and 8 else. The records of
/// some neighbouring bodies are freed once these are counted. Where a bin is asked for, each body is of its bin. Where a body is damaged,
/// the fault is that of the first such body. Where it fails, bodies whose records are there still are as they were.
pub fn list_asked<R: Threads + Sync>(
    rt: &R,
    alloc: Global,
    bodies: &mut [Vec<u8>],
    counting: &CountRule,
    threads: usize,
) -> Result<BinLists, BodyError>
    ensures ok { IfOk result (λ lists. AreListsOfBodies counting.now.rule.strands counting.now.rule.k counting.now.limits
        (map (λ b. b.items) bodies.old) (lists_of lists)) }
    ensures width { IfOk result (AreNarrow counting.now.rule.k counting.now.limits.cs) }
    ensures damaged { (fault : RecordFault) (offset : ℕ)
        → IsErrOf result (BodyError.Damaged fault offset)
        → IsFirstDamaged counting.now.rule.k fault offset (map (λ b. b.items) bodies.old) }
    ensures memory { IsErrOf result BodyError.Memory
        → BodiesWantMemory counting.now.rule.k (map (λ b. b.items) bodies.old) }
    ensures judged { IfOk result (λ _. AreOfBins counting.now.asked (map (λ b. b.items) bodies.old)) }
    ensures wrong { IsErrOf result BodyError.WrongBin
        → AreForeign counting.now.rule.k counting.now.asked (map (λ b. b.items) bodies.old) }
    ensures left { AreLeft counting.now.asked (map (λ b. b.items) bodies.old) (map (λ b. b.items) bodies.new) }
{
    Ok(if counting.rule.k <= NARROW_K {
        BinLists::Narrow(list_sized(rt, alloc, bodies, counting, threads)?)
    } else {
        BinLists::Wide(list_sized(rt, alloc, bodies, counting, threads)?)
    })
}

/// The list of each bin's records, as [`list_asked`] makes it where nothing is asked.
pub fn list_bins<R: Threads + Sync>(
    rt: &R,
    alloc: Global,
    bodies: Vec<Vec<u8>>,
    k: usize,
    strands: Strands,
    limits: &Limits,
    threads: usize,
) -> Result<BinLists, BodyError>
    requires some { 1 ≤ k }
    requires most { k ≤ MAX_K }
    ensures ok { IfOk result (λ lists. AreListsOfBodies strands k limits.now
        (map (λ b. b.items) bodies.items) (lists_of lists)) }
    ensures width { IfOk result (AreNarrow k limits.now.cs) }
    ensures damaged { (fault : RecordFault) (offset : ℕ)
        → IsErrOf result (BodyError.Damaged fault offset)
        → IsFirstDamaged k fault offset (map (λ b. b.items) bodies.items) }
    ensures memory { IsErrOf result BodyError.Memory
        → BodiesWantMemory k (map (λ b. b.items) bodies.items) }
    ensures unasked { ¬ (IsErrOf result BodyError.WrongBin) }
{
    let mut bodies = bodies;
    let counting = CountRule {
        rule: KeyRule { k, strands },
        limits: *limits,
        asked: None,
    };
    list_asked(rt, alloc, &mut bodies, &counting, threads)
}
