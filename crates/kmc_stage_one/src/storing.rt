//! Stage one: the parts of the reads, through a queue, into bins.
ghost use Rattle.std.specs.Prelude.{◌≡◌, ℕ, ◌*◌, ◌<◌, ◌≤◌, List, ◌++◌, map, IfOk};
ghost use Rattle.kmc_store.specs.Holds.{HoldsReads};

use crate::filling::fill_bins;
use crate::laws::few_chunks_spend_no_numbers;
use crate::plan::Plan;
use crate::settings::RoundSettings;
use kmc_partqueue::{Gate, Refusal};
use kmc_store::Bins;
use std::alloc::{AllocError, Global};
use std::sync::Wait;
use std::thread::Threads;

/// The most chunks of a round that a splitter cuts. One chunk would let the storer wait for the first, and work alone after the
/// last; very many make small parts.
const CHUNKS_OF_A_SPLITTER: usize = 4;

/// So many reads a chunk make few chunks for each splitter.
fn few_chunks_each(reads: usize, splitters: usize) -> usize
    requires { 0 < splitters }
    ensures some { 0 < result }
    ensures all { reads ≤ CHUNKS_OF_A_SPLITTER * splitters * result }
{
    let share = reads.div_ceil(splitters);
    let each = share.div_ceil(CHUNKS_OF_A_SPLITTER);
    if each == 0 { 1 } else { each }
}

/// Bins that hold the reads too, beside those that they held: each of `sp` splitters cuts a few chunks of the reads into parts,
/// which pass through the queue to the storers while it cuts the next chunk; the first storer goes on with these bins, and those
/// of the others are merged with them. It fails only for want of memory, and then the bins are lost: a splitter puts at most a
/// part for each bin and chunk, so numbers are never spent.
pub fn store_reads<R: Threads + Wait + Sync, G: Gate + Sync>(
    rt: &R,
    alloc: Global,
    bins: Bins,
    reads: &[&[u8]],
    settings: &RoundSettings,
    gate: &G,
) -> Result<Bins, AllocError>
    requires { bins.shape ≡ settings.now.shape }
    ensures shape { IfOk result (λ b. b.shape ≡ settings.now.shape) }
    ensures holds { (held : List (List ℕ)) → HoldsReads settings.now.shape held bins.bodies
        → IfOk result
        (λ b. HoldsReads settings.now.shape (held ++ map (λ r. r.now) reads.now) b.bodies) }
{
    few_chunks_spend_no_numbers();
    let plan = Plan {
        shape: settings.shape,
        batch: few_chunks_each(reads.len(), settings.queue.writers),
    };
    match fill_bins(rt, alloc, bins, reads, plan, settings.queue, gate) {
        Ok((bins, _)) => Ok(bins),
        Err(Refusal::Memory) => Err(AllocError),
        Err(Refusal::NumbersSpent) => unreachable!(),
    }
}
