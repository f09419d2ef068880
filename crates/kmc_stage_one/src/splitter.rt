//! What a splitter does: it cuts the chunks that are dealt to it, and puts their parts.
ghost use Rattle.std.specs.Prelude.{◌≡◌, ◌+◌, ◌*◌, ◌<◌, ◌≤◌, length, map, IfOk, IfErr};
ghost use Rattle.kmc_store.specs.Deals.{chunk_at};
ghost use Rattle.kmc_stage_one.specs.Splitters.{chunks_of, IsFreshWriter, IsDone};
ghost use Rattle.kmc_stage_one.specs.Causes.{IsWorkersCause};
ghost use Rattle.kmc_partqueue.specs.Queue.{identity};

use crate::plan::Plan;
use kmc_partqueue::{DoneSeat, Gate, GivenUp, SharedQueue, WriterSeat, put_all};
use kmc_record::{Part, parts_of_reads};
use std::sync::Wait;

/// Into how many chunks so many reads are cut.
fn chunks(reads: usize, batch: usize) -> usize
    requires { 0 < batch }
    ensures is { result ≡ chunks_of batch reads }
    ensures most { result * batch < reads + batch }
{
    reads.div_ceil(batch)
}

/// The reads of a chunk: `batch` of them from `c` times `batch` on, or the rest.
fn chunk_of<'a, 'b>(reads: &'a [&'b [u8]], batch: usize, c: usize) -> &'a [&'b [u8]]
    requires { (0 < batch) × (c * batch ≤ length reads.now) }
    ensures { map (λ r. r.now) result.now ≡ chunk_at batch (map (λ r. r.now) reads.now) c }
{
    let rest = &reads[c * batch..];
    if rest.len() <= batch {
        return rest;
    }
    &rest[..batch]
}

/// Cuts the chunks that are dealt to the seat, in rising order, and puts the parts of each in rising order of bins.
pub(crate) fn split<R: Wait, G: Gate>(
    rt: &R,
    way: &SharedQueue<Part>,
    mut s: WriterSeat<Part>,
    reads: &[&[u8]],
    plan: Plan,
    gate: &G,
) -> Result<DoneSeat<Part>, GivenUp>
    requires { IsFreshWriter (identity way.now.lanes) way.now.lanes.shape s }
    ensures done { IfOk result (λ d. IsDone plan.shape plan.batch
        (map (λ r. r.now) reads.now) way.now.writers s d) }
    ensures cause { IfErr result
        (IsWorkersCause plan.shape plan.batch (map (λ r. r.now) reads.now) way.now.writers) }
{
    for c in 0..chunks(reads.len(), plan.batch) {
        if c % way.writers == s.number() {
            let chunk = chunk_of(reads, plan.batch, c);
            let parts = parts_of_reads(way.alloc, c as u64, chunk, plan.shape)?;
            put_all(rt, way, &mut s, parts, gate)?;
        }
    }
    Ok(way.lanes.complete(s))
}
