//! Refused memory anywhere in a run.
use super::records::assert_twice_in;
use super::{TWICE, one_read_a_chunk, reads_of, two_writers};
use kmc_partcore::QueueShape;
use kmc_partqueue::{NoGate, Refusal};
use kmc_reads::slices_of;
use kmc_stage_one::{fill_bins, pass_parts};
use kmc_store::Bins;
use std::alloc::Global;
use std::process::Abort;
use std::sync::Wait;
use std::thread::Threads;

/// The bins that two splitters and two storers fill with the reads through lanes of so many slots.
fn filled<R: Abort + Threads + Wait + Sync>(
    rt: &R,
    alloc: Global,
    reads: &[&[u8]],
    per_writer: usize,
) -> Result<Bins, Refusal> {
    let plan = one_read_a_chunk().expect(rt, "a plan");
    let queue = QueueShape::new(2, per_writer, 2).expect(rt, "a queue");
    let bins = Bins::new(alloc, plan.shape)?;
    let (bins, _) = fill_bins(rt, alloc, bins, reads, plan, queue, &NoGate)?;
    Ok(bins)
}

/// The bins of `TWICE`, filled so.
fn filled_twice<R: Abort + Threads + Wait + Sync>(
    rt: &R,
    alloc: Global,
    per_writer: usize,
) -> Result<Bins, Refusal> {
    let reads = reads_of(alloc, TWICE)?;
    let slices = slices_of(alloc, &reads)?;
    filled(rt, alloc, &slices, per_writer)
}

/// Bins filled through lanes of so many slots, or want of memory.
fn fill_or_refuse<R: Abort + Threads + Wait + Sync>(rt: &R, alloc: Global, per_writer: usize) {
    match filled_twice(rt, alloc, per_writer) {
        Ok(bins) => {
            // where the one refusal comes here, nothing is looked at
            let _looked = assert_twice_in(rt, alloc, &bins);
        }
        Err(cause) => assert!(rt; matches!(cause, Refusal::Memory)),
    }
}

/// Passes whichever one allocation is refused: the run answers that memory was refused, or else the right bins.
#[test]
fn refused_memory_of_workers_is_answered(rt: HostRuntime) {
    fill_or_refuse(&rt, rt.alloc(), 8);
}

/// The same where a splitter may wait at a full lane for a storer that was refused.
#[test]
fn a_refused_storer_stops_a_splitter_at_a_full_lane(rt: HostRuntime) {
    fill_or_refuse(&rt, rt.alloc(), 1);
}

/// How many seats of two splitters and of so many storers come back.
fn seats_back<R: Abort + Threads + Wait + Sync>(
    rt: &R,
    alloc: Global,
    readers: usize,
) -> (usize, usize) {
    let reads = reads_of(alloc, TWICE).expect(rt, "memory");
    let slices = slices_of(alloc, &reads).expect(rt, "memory");
    let plan = one_read_a_chunk().expect(rt, "a plan");
    let queue = two_writers(readers).expect(rt, "a queue");
    let bins = Bins::new(alloc, plan.shape).expect(rt, "memory");
    let passed = pass_parts(rt, alloc, bins, &slices, plan, queue, &NoGate);
    let (_, done, shards) = passed.ok().expect(rt, "no worker refused");
    (done.len(), shards.len())
}

#[test]
fn all_seats_come_back(rt: HostRuntime) {
    assert_eq!(rt; seats_back(&rt, rt.alloc(), 1), (2, 1));
    assert_eq!(rt; seats_back(&rt, rt.alloc(), 8), (2, 8));
}
