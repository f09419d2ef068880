//! The parts of reads, from a splitter for each writer of a queue to a storer for each reader.
ghost use Rattle.std.specs.Prelude.{◌≡◌, map, IfOk, IfErr};
ghost use Rattle.std.specs.List.{AllZip};
ghost use Rattle.kmc_partqueue.specs.Counts.{Each};
ghost use Rattle.kmc_partqueue.specs.Dealing.{row_from};
ghost use Rattle.kmc_partqueue.specs.Seats.{new_writer, new_reader};
ghost use Rattle.kmc_stage_one.specs.Splitters.{IsDone, IsFreshWriter};
ghost use Rattle.kmc_stage_one.specs.Causes.{IsCause, IsWorkersCause};
ghost use Rattle.kmc_stage_one.specs.Shards.{IsShard, IsFreshShard, begun};
ghost use Rattle.kmc_partqueue.specs.Queue.{identity};

use crate::beginning::with_bins;
use crate::plan::Plan;
use crate::shard::Shard;
use crate::workers::{Seats, store_all};
use kmc_partcore::QueueShape;
use kmc_partqueue::{DoneSeat, Gate, GivenUp, Lanes, Refusal, SharedQueue};
use kmc_record::Part;
use kmc_store::Bins;
use std::alloc::{AllocError, Global};
use std::sync::Wait;
use std::thread;
use std::thread::Threads;

/// A way through a queue of this shape, and the queue's seats, which have put and got nothing, the first reader's with
/// these bins.
fn open_way(
    alloc: Global,
    queue: QueueShape,
    bins: Bins,
) -> Result<(SharedQueue<Part>, Seats), AllocError>
    ensures shape { IfOk result (λ q. q.0.lanes.shape ≡ queue) }
    ensures writers { IfOk result (λ q. q.1.writers.items
        ≡ row_from (new_writer (identity q.0.lanes) queue) 0 queue.writers) }
    ensures shards { IfOk result (λ q. q.1.shards.items
        ≡ begun bins
        (row_from (new_reader (identity q.0.lanes) queue) 0 queue.readers)) }
    ensures open { IfOk result (λ q. Each
        (IsFreshWriter (identity q.0.lanes) q.0.lanes.shape) q.1.writers.items) }
    ensures fresh { IfOk result (λ q. Each
        (IsFreshShard (identity q.0.lanes) q.0.lanes.shape bins.shape) q.1.shards.items) }
{
    let (lanes, writers, readers) = Lanes::new(alloc, queue)?;
    let way = SharedQueue::new(lanes, queue.writers, alloc);
    let shards = with_bins(alloc, readers, bins)?;
    Ok((way, Seats { writers, shards }))
}

/// Passes the parts of the reads through a queue of this shape: of its writers, splitter w cuts the chunks c with
/// c mod `writers` = w, in rising order, and puts the parts of each in rising order of bins; each storer takes parts and
/// absorbs them, the first one into these bins, each other into bins of its own. Chunk c holds `batch` reads from c times
/// `batch` on, or the rest. Once all workers are joined all seats are back, in the order of their numbers. A worker that
/// meets a refusal stops the others; of several causes want of memory is answered first, and a stop without a cause is told so.
pub fn pass_parts<R: Threads + Wait + Sync, G: Gate + Sync>(
    rt: &R,
    alloc: Global,
    bins: Bins,
    reads: &[&[u8]],
    plan: Plan,
    queue: QueueShape,
    gate: &G,
) -> Result<(Lanes<Part>, Vec<DoneSeat<Part>>, Vec<Shard>), Refusal>
    requires { bins.shape ≡ plan.shape }
    ensures queue { IfOk result (λ q. q.0.shape ≡ queue) }
    ensures done { IfOk result (λ q. AllZip
        (IsDone plan.shape plan.batch (map (λ r. r.now) reads.now) queue.writers)
        (row_from (new_writer (identity q.0) queue) 0 queue.writers) q.1.items) }
    ensures shards { IfOk result (λ q. AllZip IsShard
        (begun bins (row_from
        (new_reader (identity q.0) queue) 0 queue.readers)) q.2.items) }
    ensures cause { IfErr result
        (IsCause plan.shape plan.batch (map (λ r. r.now) reads.now) queue.writers) }
{
    let (way, seats) = open_way(alloc, queue, bins)?;
    let shared = &way;
    let back = thread::scope(
        thread::scope_env(),
        rt,
        move |scope| -> Result<(Vec<DoneSeat<Part>>, Vec<Shard>), GivenUp>
            requires shards { Each
                (IsFreshShard (identity shared.now.lanes) shared.now.lanes.shape plan.shape) seats.shards.items }
            requires writers { Each (IsFreshWriter (identity shared.now.lanes) shared.now.lanes.shape) seats.writers.items }
        { store_all(rt, scope, shared, seats, reads, plan, gate) },
    );
    match back {
        Ok((done, shards)) => Ok((way.into_lanes(), done, shards)),
        Err(cause) => Err(cause.told()),
    }
}
