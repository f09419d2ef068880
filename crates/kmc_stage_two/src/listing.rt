//! Stage two: each bin is counted by itself, and their lists make one dump.
ghost use Rattle.std.specs.Prelude.{◌≡◌, ◌≤◌, ℕ, List, Some, length, map, IfOk, IsErrOf};
ghost use Rattle.kmc_store.specs.Bins.{AreBins};
ghost use Rattle.kmc_record.specs.declared.fault.RecordFault.{RecordFault};
ghost use Rattle.kmc_count.specs.Bodies.{IsFirstDamaged};
ghost use Rattle.kmc_stage_two.specs.Bodies.{AreLeft, AreListsOfBodies, BodiesWantMemory};
ghost use Rattle.kmc_stage_two.specs.Widths.{AreNarrow};
ghost use Rattle.kmc_lists.specs.Listed.{spelled};
ghost use Rattle.kmc_lists.specs.Lists.{lists_of};
ghost use Rattle.kmc_lists.specs.Ordered.{CanBeMerged, whole};
ghost use Rattle.kmc_stage_two.specs.Stages.{IsDumpOfBins};

use crate::count_rule::CountRule;
use crate::laws::{bins_share_no_key, packed_dumps_are_one};
use crate::lists::{list_asked, list_bins};
use kmc_base::{KeyRule, Strands};
use kmc_count::laws::dumps_of_bodies_are_of_keys;
use kmc_count::{AskedBin, Limits};
use kmc_lists::BinLists;
use kmc_record::laws::whole_body_has_no_fault;
use kmc_record::{BodyError, Shape};
use kmc_store::Bins;
use std::alloc::{AllocError, Global};
use std::thread::Threads;

/// A list for each bin, the dump of its records, counted over so many threads. Equal keys share a bin, so the lists share no
/// word, and all their pairs in the order of the words are the dump of the words of all records. The bins are given up:
/// their records are freed bin by bin. It fails only for want of memory.
pub fn lists_of_bins<R: Threads + Sync>(
    rt: &R,
    alloc: Global,
    bins: Bins,
    strands: Strands,
    limits: &Limits,
    threads: usize,
) -> Result<BinLists, AllocError>
    ensures each { IfOk result (λ lists. AreListsOfBodies strands bins.shape.k limits.now bins.bodies (lists_of lists)) }
    ensures width { IfOk result (AreNarrow bins.shape.k limits.now.cs) }
    ensures merge { IfOk result (λ lists. CanBeMerged bins.shape.k (lists_of lists)) }
    ensures all { IfOk result (λ lists. IsDumpOfBins strands bins.shape.k limits.now bins.bodies
        (spelled bins.shape.k (whole (lists_of lists)))) }
{
    bins_share_no_key();
    whole_body_has_no_fault();
    dumps_of_bodies_are_of_keys();
    packed_dumps_are_one();
    let k = bins.shape().k();
    let bodies = bins.into_bodies();
    match list_bins(rt, alloc, bodies, k, strands, limits, threads) {
        Ok(lists) => Ok(lists),
        Err(BodyError::Memory) => Err(AllocError),
        Err(BodyError::Damaged(_, _)) => unreachable!(),
        Err(BodyError::WrongBin) => unreachable!(),
    }
}

/// The same of bodies that come from outside, one for each bin: they are judged as they are counted, and each is whole records whose words
/// belong to its bin, else there is an error. `Damaged` is the fault of the first body that is not whole records, `WrongBin` comes only
/// where one of them is not of its bin, and `Memory` only where all bodies before one are whole. Bodies that are left are as they were,
/// and the others were of their bins.
pub fn lists_of_bodies<R: Threads + Sync>(
    rt: &R,
    alloc: Global,
    shape: Shape,
    bodies: &mut [Vec<u8>],
    strands: Strands,
    limits: &Limits,
    threads: usize,
) -> Result<BinLists, BodyError>
    requires bodies { length bodies.old ≡ shape.n }
    ensures bins { IfOk result (λ _. (words : List ℕ) × AreBins shape (map (λ b. b.items) bodies.old) words) }
    ensures each { IfOk result (λ lists. AreListsOfBodies strands shape.k limits.now (map (λ b. b.items) bodies.old) (lists_of lists)) }
    ensures width { IfOk result (AreNarrow shape.k limits.now.cs) }
    ensures merge { IfOk result (λ lists. CanBeMerged shape.k (lists_of lists)) }
    ensures all { IfOk result (λ lists. IsDumpOfBins strands shape.k limits.now (map (λ b. b.items) bodies.old)
        (spelled shape.k (whole (lists_of lists)))) }
    ensures damaged { (fault : RecordFault) (offset : ℕ)
        → IsErrOf result (BodyError.Damaged fault offset)
        → IsFirstDamaged shape.k fault offset (map (λ b. b.items) bodies.old) }
    ensures memory { IsErrOf result BodyError.Memory
        → BodiesWantMemory shape.k (map (λ b. b.items) bodies.old) }
    ensures wrong { IsErrOf result BodyError.WrongBin
        → (words : List ℕ) → ¬ (AreBins shape (map (λ b. b.items) bodies.old) words) }
    ensures left { AreLeft (Some (record { shape = shape; bin = 0 })) (map (λ b. b.items) bodies.old)
        (map (λ b. b.items) bodies.new) }
{
    bins_share_no_key();
    dumps_of_bodies_are_of_keys();
    packed_dumps_are_one();
    let counting = CountRule {
        rule: KeyRule {
            k: shape.k(),
            strands,
        },
        limits: *limits,
        asked: Some(AskedBin { shape, bin: 0 }),
    };
    list_asked(rt, alloc, bodies, &counting, threads)
}
