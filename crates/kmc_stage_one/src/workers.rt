//! A storer for each reader of a queue, and a splitter for each writer.
ghost use Rattle.std.specs.Prelude.{map, IfOk, IfErr};
ghost use Rattle.std.specs.List.{AllZip};
ghost use Rattle.kmc_partqueue.specs.Counts.{Each};
ghost use Rattle.kmc_stage_one.specs.Splitters.{IsDone, IsFreshWriter};
ghost use Rattle.kmc_stage_one.specs.Causes.{IsWorkersCause};
ghost use Rattle.kmc_stage_one.specs.Shards.{IsShard, IsFreshShard};
ghost use Rattle.kmc_partqueue.specs.Queue.{identity};

use crate::plan::Plan;
use crate::shard::Shard;
use crate::splitters::split_all;
use crate::storers::start_storer;
use kmc_partqueue::{DoneSeat, Gate, GivenUp, SharedQueue, WriterSeat, both, with_one};
use kmc_record::Part;
use std::sync::Wait;
use std::thread::{Scope, Threads};

/// The seats of a new queue, those of its readers with bins.
#[derive(Drop)]
pub(crate) struct Seats {
    pub(crate) writers: Vec<WriterSeat<Part>>,
    pub(crate) shards: Vec<Shard>,
}

/// Starts one storer, then the others and the splitters, and joins it.
pub(crate) fn store_all<'s, E, R: Threads + Wait + Sync, G: Gate + Sync>(
    rt: &'s R,
    scope: &Scope<'s, E>,
    way: &'s SharedQueue<Part>,
    seats: Seats,
    reads: &'s [&'s [u8]],
    plan: Plan,
    gate: &'s G,
) -> Result<(Vec<DoneSeat<Part>>, Vec<Shard>), GivenUp>
    requires shards { Each (IsFreshShard (identity way.now.lanes) way.now.lanes.shape plan.shape) seats.shards.items }
    requires writers { Each (IsFreshWriter (identity way.now.lanes) way.now.lanes.shape) seats.writers.items }
    ensures done { IfOk result (λ q. AllZip
        (IsDone plan.shape plan.batch
        (map (λ v. v.now) reads.now) way.now.writers) seats.writers.items q.0.items) }
    ensures shards { IfOk result (λ q. AllZip IsShard seats.shards.items q.1.items) }
    ensures cause { IfErr result
        (IsWorkersCause plan.shape plan.batch (map (λ v. v.now) reads.now) way.now.writers) }
{
    let Seats {
        writers,
        mut shards,
    } = seats;
    let Some(shard) = shards.pop() else {
        let done = split_all(rt, scope, way, writers, reads, plan, gate)?;
        return Ok((done, Vec::new(way.alloc)));
    };
    let child = start_storer(rt, scope, way, shard, gate)?;
    let seats = Seats { writers, shards };
    let rest = store_all(rt, scope, way, seats, reads, plan, gate);
    let (others, own) = both(rest, child.join(rt))?;
    let (done, stored) = others;
    Ok((done, with_one(stored, own)?))
}
