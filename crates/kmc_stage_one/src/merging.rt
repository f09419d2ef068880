//! The bins of storers made one.
ghost use Rattle.std.specs.Prelude.{◌≡◌, ◌<◌, length, map, IfOk};
ghost use Rattle.std.specs.List.{flat_map};
ghost use Rattle.kmc_partqueue.specs.Counts.{Each};
ghost use Rattle.kmc_store.specs.Bins.{BinList};
ghost use Rattle.kmc_store.specs.Bodies.{AreAdded};
ghost use Rattle.kmc_stage_one.specs.Shards.{AreGrown};
ghost use Rattle.kmc_partqueue.specs.SameSeats.{items_of};

use crate::shard::Shard;
use kmc_partqueue::ReaderSeat;
use kmc_record::{Part, Shape};
use kmc_store::Bins;
use kmc_store::laws::{merged_parts_are_added, no_parts_are_added};
use std::alloc::{AllocError, Global};

/// The bins of the shards merged into one, and the seats in the order of the shards. The first shard's records are taken
/// over with no copy.
pub fn merge_shards(
    alloc: Global,
    shape: Shape,
    shards: Vec<Shard>,
) -> Result<(Bins, Vec<ReaderSeat<Part>>), AllocError>
    requires { Each (λ h. h.bins.shape ≡ shape) shards.items }
    ensures shape { IfOk result (λ r. r.0.shape ≡ shape) }
    ensures seats { IfOk result (λ r. r.1.items ≡ map (λ h. h.seat) shards.items) }
    ensures bodies { (before : BinList) → 0 < length shards.items → before.shape ≡ shape
        → AreGrown before shards.items
        → IfOk result
        (λ r. AreAdded shape before.bodies r.0.bodies (flat_map (λ s. items_of s.got) r.1.items)) }
{
    // what some seats got stays added with each shard
    no_parts_are_added();
    merged_parts_are_added();
    let mut bins = Bins::new(alloc, shape)?;
    let mut seats = Vec::new(alloc);
    for shard in shards {
        let Shard { seat, bins: own } = shard;
        match bins.merge(own) {
            Ok(()) => {}
            Err(_) => return Err(AllocError),
        }
        seats.push(seat)?;
    }
    Ok((bins, seats))
}
