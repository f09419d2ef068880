//! Reads into bins: through the queue to the storers, whose bins become one.
ghost use Rattle.std.specs.Prelude.{◌≡◌, ℕ, List, ◌++◌, map, IfOk, IfErr};
ghost use Rattle.kmc_store.specs.Holds.{HoldsReads};
ghost use Rattle.kmc_stage_one.specs.Passages.{IsPassage};
ghost use Rattle.kmc_stage_one.specs.Causes.{IsCause};

use crate::merging::merge_shards;
use crate::passing::pass_parts;
use crate::plan::Plan;
use kmc_partcore::{QueueShape, Totals};
use kmc_partqueue::laws::gathered;
use kmc_partqueue::{Gate, Refusal};
use kmc_record::Part;
use kmc_store::Bins;
use kmc_store::laws::gathered_parts_hold_reads;
use std::alloc::{AllocError, Global};
use std::sync::Wait;
use std::thread::Threads;

/// Bins that hold the reads too, beside those that they held, and how many parts each splitter put: the parts of the reads
/// pass through a queue of this shape, as [`pass_parts`] says, all seats are gathered, and the bins of all storers are
/// merged. The contract tells the queue's history too: it is legal, and what was put and taken in it is what was added to
/// the bins. Refusals are those of [`pass_parts`].
pub fn fill_bins<R: Threads + Wait + Sync, G: Gate + Sync>(
    rt: &R,
    alloc: Global,
    bins: Bins,
    reads: &[&[u8]],
    plan: Plan,
    queue: QueueShape,
    gate: &G,
) -> Result<(Bins, Totals), Refusal>
    requires { bins.shape ≡ plan.shape }
    ensures shape { IfOk result (λ b. b.0.shape ≡ plan.shape) }
    ensures holds { (held : List (List ℕ)) → HoldsReads plan.shape held bins.bodies
        → IfOk result (λ b. HoldsReads plan.shape (held ++ map (λ r. r.now) reads.now) b.0.bodies) }
    ensures passage { IfOk result (λ b. IsPassage plan.shape plan.batch
        (map (λ r. r.now) reads.now) queue bins.bodies b.0.bodies b.1) }
    ensures cause { IfErr result
        (IsCause plan.shape plan.batch (map (λ r. r.now) reads.now) queue.writers) }
{
    // what was sent was got once, so bins to which what was got is added hold the reads
    gathered::<Part>();
    gathered_parts_hold_reads();
    let shape = plan.shape;
    let (lanes, done, shards) = pass_parts(rt, alloc, bins, reads, plan, queue, gate)?;
    let (bins, seats) = merge_shards(alloc, shape, shards)?;
    let totals = lanes.gather(done, seats);
    Ok((bins, totals))
}
