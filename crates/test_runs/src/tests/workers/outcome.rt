//! What comes of a run: how many parts each writer put, and the bins of all readers together.

use super::{TWICE, one_read_a_chunk, reads_of};
use kmc_partcore::{QueueShape, Totals};
use kmc_partqueue::Gate;
use kmc_reads::slices_of;
use kmc_stage_one::{Plan, fill_bins};
use kmc_store::Bins;
use std::alloc::Global;
use std::process::Abort;
use std::sync::Wait;
use std::thread::Threads;

/// How many parts each writer put, and the bins of all readers, merged.
#[derive(Drop)]
pub(super) struct Outcome {
    pub(super) totals: Totals,
    pub(super) bins: Bins,
}

/// Passes the parts of the reads, where no worker is refused.
pub(super) fn passed<R: Abort + Threads + Wait + Sync, G: Gate + Sync>(
    rt: &R,
    alloc: Global,
    reads: &[Vec<u8>],
    plan: Plan,
    queue: QueueShape,
    gate: &G,
) -> Outcome {
    let slices = slices_of(alloc, reads).expect(rt, "memory");
    let bins = Bins::new(alloc, plan.shape).expect(rt, "memory");
    let made = fill_bins(rt, alloc, bins, &slices, plan, queue, gate);
    let (bins, totals) = made.ok().expect(rt, "no worker refused");
    Outcome { totals, bins }
}

/// Passes the parts of `TWICE`, each read a chunk.
pub(super) fn passed_twice<R: Abort + Threads + Wait + Sync, G: Gate + Sync>(
    rt: &R,
    alloc: Global,
    queue: QueueShape,
    gate: &G,
) -> Outcome {
    let plan = one_read_a_chunk().expect(rt, "a plan");
    let reads = reads_of(alloc, TWICE).expect(rt, "memory");
    passed(rt, alloc, &reads, plan, queue, gate)
}
