//! Bodies from outside, counted and judged bin by bin.
ghost use Rattle.std.specs.Prelude.{◌≡◌, ◌<◌, ◌≤◌, ℕ, List, length, map, OnOk, IfOk, IfErr, IsErrOf};
ghost use Rattle.kmc_lists.specs.Listed.{spelled};
ghost use Rattle.kmc_lists.specs.Lists.{lists_of};
ghost use Rattle.kmc_lists.specs.Ordered.{CanBeMerged, whole};
ghost use Rattle.kmc_record.specs.Bodies.{AreRecordsOfBin};
ghost use Rattle.kmc_store.specs.Bins.{body_at, AreBins};
ghost use Rattle.kmc_stage_two.specs.Stages.{IsDumpOfBins};
ghost use Rattle.kmc_stage_two.specs.Widths.{AreNarrow};
ghost use Rattle.kmc_slices.specs.Outside.{IsBinFault};
ghost use Rattle.kmc_slices.specs.declared.bin_fault.BinFault.{BinFault};

use crate::bin_fault::{BinFault, JudgeError};
use kmc_base::Strands;
use kmc_count::Limits;
use kmc_lists::BinLists;
use kmc_record::{Shape, count_words};
use kmc_stage_two::lists_of_bodies;
use std::alloc::Global;
use std::thread::Threads;

/// Whether the body of each bin is records of the bin; else the first fault. It wants no memory.
fn judge_bodies(shape: Shape, bodies: &[Vec<u8>]) -> Result<(), BinFault>
    requires { length bodies.now ≡ shape.n }
    ensures ok { OnOk result ((i : ℕ) → i < shape.n
        → AreRecordsOfBin i shape (body_at (map (λ b. b.items) bodies.now) i)) }
    ensures fault { IfErr result (IsBinFault shape (map (λ b. b.items) bodies.now)) }
{
    for bin in 0..bodies.len() {
        let _words = match count_words(&bodies[bin], bin, shape) {
            Ok(words) => words,
            Err(why) => return Err(BinFault { bin, why }),
        };
    }
    Ok(())
}

/// The lists of the bins of a shape with these bodies, where each is whole records whose words belong to its bin; else the first fault,
/// and want of memory only where there is none. Bodies are judged as they are counted. Where that fails, whatever the cause, those
/// that are left are judged again one after the other, which tells the fault and its place.
pub fn judged_lists<R: Threads + Sync>(
    rt: &R,
    alloc: Global,
    shape: Shape,
    bodies: Vec<Vec<u8>>,
    strands: Strands,
    limits: &Limits,
    threads: usize,
) -> Result<BinLists, JudgeError>
    requires bodies { length bodies.items ≡ shape.n }
    ensures bins { IfOk result (λ _. (words : List ℕ) × AreBins shape (map (λ b. b.items) bodies.items) words) }
    ensures width { IfOk result (AreNarrow shape.k limits.now.cs) }
    ensures merge { IfOk result (λ lists. CanBeMerged shape.k (lists_of lists)) }
    ensures all { IfOk result (λ lists. IsDumpOfBins strands shape.k limits.now (map (λ b. b.items) bodies.items)
        (spelled shape.k (whole (lists_of lists)))) }
    ensures first { (fault : BinFault) → IsErrOf result (JudgeError.Foreign fault)
        → IsBinFault shape (map (λ b. b.items) bodies.items) fault }
    ensures judged { IsErrOf result JudgeError.Memory
        → (words : List ℕ) × AreBins shape (map (λ b. b.items) bodies.items) words }
{
    let mut bodies = bodies;
    if let Ok(lists) = lists_of_bodies(rt, alloc, shape, &mut bodies, strands, limits, threads) {
        return Ok(lists);
    }
    match judge_bodies(shape, &bodies) {
        Ok(()) => Err(JudgeError::Memory),
        Err(fault) => Err(JudgeError::Foreign(fault)),
    }
}
