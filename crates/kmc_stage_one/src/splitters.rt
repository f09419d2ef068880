//! A splitter for each writer of a queue, in a thread of its own.
ghost use Rattle.std.specs.Prelude.{◌≡◌, map, MatchResult, IfOk, IfErr};
ghost use Rattle.std.specs.List.{AllZip};
ghost use Rattle.kmc_partqueue.specs.Counts.{Each};
ghost use Rattle.kmc_stage_one.specs.Splitters.{IsDone, IsFreshWriter};
ghost use Rattle.kmc_stage_one.specs.Causes.{IsWorkersCause};
ghost use Rattle.kmc_partqueue.specs.declared.refusal.GivenUp.TheVariants.{Memory};
ghost use Rattle.kmc_partqueue.specs.Queue.{identity};

use crate::plan::Plan;
use crate::splitter::split;
use kmc_partqueue::{DoneSeat, Gate, GivenUp, SharedQueue, WriterSeat, both, with_one};
use kmc_record::{Part, Shape};
use std::snapshot::Snapshot;
use std::sync::Wait;
use std::thread::{Promise, PromisedHandle, Scope, Threads};

/// A splitter puts the parts of its chunks and completes, or ends with a cause.
#[derive(Drop)]
struct Puts<'a> {
    seat: Snapshot<WriterSeat<Part>>,
    reads: &'a [&'a [u8]],
    shape: Shape,
    batch: usize,
    writers: usize,
}

impl<'a> Promise<Result<DoneSeat<Part>, GivenUp>> for Puts<'a> {
    ghost kept_by = { λ p r. MatchResult r
        (λ d. IsDone p.shape p.batch (map (λ v. v.now) p.reads.now) p.writers p.seat.value d)
        (IsWorkersCause p.shape p.batch (map (λ v. v.now) p.reads.now) p.writers) };
}

/// One splitter. Where it has a cause, the others stop.
fn split_one<R: Wait, G: Gate>(
    rt: &R,
    way: &SharedQueue<Part>,
    seat: WriterSeat<Part>,
    reads: &[&[u8]],
    plan: Plan,
    gate: &G,
) -> Result<DoneSeat<Part>, GivenUp>
    requires { IsFreshWriter (identity way.now.lanes) way.now.lanes.shape seat }
    ensures { MatchResult result
        (λ d. IsDone plan.shape plan.batch (map (λ v. v.now) reads.now) way.now.writers seat d)
        (IsWorkersCause plan.shape plan.batch (map (λ v. v.now) reads.now) way.now.writers) }
{
    let done = split(rt, way, seat, reads, plan, gate);
    if done.is_err() {
        way.stop();
    }
    done
}

/// Starts one splitter. Where no thread can be made, the others stop.
fn start_splitter<'s, E, R: Threads + Wait + Sync, G: Gate + Sync>(
    rt: &'s R,
    scope: &Scope<'s, E>,
    way: &'s SharedQueue<Part>,
    seat: WriterSeat<Part>,
    reads: &'s [&'s [u8]],
    plan: Plan,
    gate: &'s G,
) -> Result<PromisedHandle<Result<DoneSeat<Part>, GivenUp>, Puts<'s>>, GivenUp>
    requires { IsFreshWriter (identity way.now.lanes) way.now.lanes.shape seat }
    ensures puts { IfOk result (λ h. (h.promise.seat.value ≡ seat) × (h.promise.shape ≡ plan.shape)
        × (h.promise.batch ≡ plan.batch)
        × (map (λ v. v.now) h.promise.reads.now ≡ map (λ v. v.now) reads.now)
        × (h.promise.writers ≡ way.now.writers)) }
    ensures cause { IfErr result (λ e. e ≡ Memory) }
{
    let shape = plan.shape;
    let batch = plan.batch;
    let writers = way.writers;
    let promise = Puts {
        seat: Snapshot::of(&seat),
        reads,
        shape,
        batch,
        writers,
    };
    let started = scope.spawn_with(
        promise,
        move || -> Result<DoneSeat<Part>, GivenUp>
            requires { IsFreshWriter (identity way.now.lanes) way.now.lanes.shape seat }
        { split_one(rt, way, seat, reads, plan, gate) },
    );
    match started {
        Ok(child) => Ok(child),
        Err(_) => {
            way.stop();
            Err(GivenUp::Memory)
        }
    }
}

/// Starts one splitter, then the others, and joins it.
pub fn split_all<'s, E, R: Threads + Wait + Sync, G: Gate + Sync>(
    rt: &'s R,
    scope: &Scope<'s, E>,
    way: &'s SharedQueue<Part>,
    mut seats: Vec<WriterSeat<Part>>,
    reads: &'s [&'s [u8]],
    plan: Plan,
    gate: &'s G,
) -> Result<Vec<DoneSeat<Part>>, GivenUp>
    requires { Each (IsFreshWriter (identity way.now.lanes) way.now.lanes.shape) seats.items }
    ensures { MatchResult result
        (λ v. AllZip
        (IsDone plan.shape plan.batch
        (map (λ v. v.now) reads.now) way.now.writers) seats.items v.items)
        (IsWorkersCause plan.shape plan.batch (map (λ v. v.now) reads.now) way.now.writers) }
{
    let Some(seat) = seats.pop() else {
        return Ok(Vec::new(way.alloc));
    };
    let child = start_splitter(rt, scope, way, seat, reads, plan, gate)?;
    let rest = split_all(rt, scope, way, seats, reads, plan, gate);
    let (done, own) = both(rest, child.join(rt))?;
    Ok(with_one(done, own)?)
}
