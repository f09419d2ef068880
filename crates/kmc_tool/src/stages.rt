//! The two stages of a run, by its settings: reads become bins, and bins become lists.
ghost use Rattle.std.specs.Prelude.{◌≡◌, map, IfOk};
ghost use Rattle.kmc_stage_two.specs.Bodies.{AreListsOfBodies};
ghost use Rattle.kmc_lists.specs.Listed.{spelled};
ghost use Rattle.kmc_lists.specs.Lists.{lists_of};
ghost use Rattle.kmc_lists.specs.Ordered.{CanBeMerged, whole};
ghost use Rattle.kmc_options.specs.Kept.{IsQueueOf};
ghost use Rattle.kmc_options.specs.Shape.{shape_of};
ghost use Rattle.kmc_store.specs.Holds.{HoldsReads};
ghost use Rattle.kmc_stage_two.specs.Stages.{IsDumpOfBins};

use kmc_lists::BinLists;
use kmc_options::Params;
use kmc_partqueue::Gate;
use kmc_stage_one::{RoundSettings, store_reads};
use kmc_stage_two::lists_of_bins;
use kmc_store::Bins;
use kmc_store::laws::empty_bins_hold_no_reads;
use std::alloc::{AllocError, Global};
use std::sync::Wait;
use std::thread::Threads;

/// What stage one is told of a run with these settings.
pub fn round_settings(params: &Params) -> RoundSettings
    ensures { (result.format ≡ params.now.format) × (result.shape ≡ shape_of params.now)
        × IsQueueOf params.now result.queue × (result.batch ≡ params.now.batch) }
{
    RoundSettings {
        format: params.format,
        shape: params.shape(),
        queue: params.queue(),
        batch: params.batch,
    }
}

/// Bins that hold the reads, which are dealt to the splitters in a few chunks each. It fails only for want of memory.
pub fn stage_one<R: Threads + Wait + Sync, G: Gate + Sync>(
    rt: &R,
    alloc: Global,
    reads: &[&[u8]],
    params: &Params,
    gate: &G,
) -> Result<Bins, AllocError>
    ensures shape { IfOk result (λ b. b.shape ≡ shape_of params.now) }
    ensures holds { IfOk result (λ b. HoldsReads (shape_of params.now)
        (map (λ r. r.now) reads.now) b.bodies) }
{
    empty_bins_hold_no_reads();
    let settings = round_settings(params);
    let bins = Bins::new(alloc, settings.shape)?;
    store_reads(rt, alloc, bins, reads, &settings, gate)
}

/// [`lists_of_bins`] by the strands, the limits and the threads of a run, which has cut the reads into these bins.
pub fn stage_two<R: Threads + Sync>(
    rt: &R,
    alloc: Global,
    bins: Bins,
    params: &Params,
) -> Result<BinLists, AllocError>
    requires { bins.shape ≡ shape_of params.now }
    ensures each { IfOk result (λ lists. AreListsOfBodies params.now.strands params.now.k params.now.limits bins.bodies (lists_of lists)) }
    ensures merge { IfOk result (λ lists. CanBeMerged params.now.k (lists_of lists)) }
    ensures all { IfOk result (λ lists. IsDumpOfBins params.now.strands params.now.k params.now.limits bins.bodies
        (spelled params.now.k (whole (lists_of lists)))) }
{
    lists_of_bins(
        rt,
        alloc,
        bins,
        params.strands,
        &params.limits,
        params.counters,
    )
}
