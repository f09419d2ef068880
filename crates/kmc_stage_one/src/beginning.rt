//! What storers begin with.
ghost use Rattle.std.specs.Prelude.{◌≡◌, IfOk};
ghost use Rattle.kmc_stage_one.specs.Shards.{begun};

use crate::shard::Shard;
use kmc_partqueue::ReaderSeat;
use kmc_record::Part;
use kmc_store::Bins;
use std::alloc::{AllocError, Global};
use std::mem::replace;

/// The seats of readers with bins: the first goes on with these, each other has empty ones.
pub fn with_bins(
    alloc: Global,
    readers: Vec<ReaderSeat<Part>>,
    bins: Bins,
) -> Result<Vec<Shard>, AllocError>
    ensures { IfOk result (λ v. v.items ≡ begun bins readers.items) }
{
    let shape = bins.shape();
    let mut shards = Vec::new(alloc);
    let mut next = bins;
    for seat in readers {
        let empty = Bins::new(alloc, shape)?;
        shards.push(Shard {
            seat,
            bins: replace(&mut next, empty),
        })?;
    }
    Ok(shards)
}
