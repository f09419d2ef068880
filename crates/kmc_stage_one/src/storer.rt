//! What a storer does: it takes parts until the queue is finished, and absorbs them into bins.
ghost use Rattle.std.specs.Prelude.{IfOk, IfErr, OnOk};
ghost use Rattle.kmc_store.specs.Bins.{Absorbed};
ghost use Rattle.kmc_stage_one.specs.Shards.{IsFreshReader, IsShard};
ghost use Rattle.kmc_stage_one.specs.StorerCauses.{IsStorersCause};
ghost use Rattle.kmc_partqueue.specs.Queue.{identity};

use crate::shard::Shard;
use kmc_partqueue::{Gate, GivenUp, SharedQueue, take_part};
use kmc_record::Part;
use kmc_store::Bins;
use kmc_store::laws::{absorbed_part_is_added, no_parts_are_added};
use std::sync::Wait;

/// Absorbs a part that was taken. One of another shape, which no splitter sends, is refused.
fn absorb(bins: &mut Bins, part: Part) -> Result<(), GivenUp>
    ensures ok { OnOk result (Absorbed bins.old part bins.new) }
    ensures cause { IfErr result IsStorersCause }
{
    if part.shape() != bins.shape() {
        return Err(GivenUp::Stopped);
    }
    match bins.absorb(part) {
        Ok(()) => Ok(()),
        Err(_) => Err(GivenUp::Memory),
    }
}

/// Takes parts until the queue is finished, and absorbs them into its bins. A part of another shape, which no splitter sends, ends
/// it.
pub(crate) fn store<R: Wait, G: Gate>(
    rt: &R,
    way: &SharedQueue<Part>,
    shard: Shard,
    gate: &G,
) -> Result<Shard, GivenUp>
    requires { IsFreshReader (identity way.now.lanes) way.now.lanes.shape shard.seat }
    ensures done { IfOk result (λ h. IsShard shard h) }
    ensures cause { IfErr result IsStorersCause }
{
    // what was got stays added with each part
    no_parts_are_added();
    absorbed_part_is_added();
    let Shard { mut seat, mut bins } = shard;
    for _ in rt.forever() {
        match take_part(rt, way, &mut seat, gate)? {
            Some(part) => absorb(&mut bins, part)?,
            None => return Ok(Shard { seat, bins }),
        }
    }
    unreachable!()
}
