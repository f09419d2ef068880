//! A storer for a reader of a queue, in a thread of its own.
ghost use Rattle.std.specs.Prelude.{◌≡◌, MatchResult, IfOk, IfErr};
ghost use Rattle.kmc_stage_one.specs.StorerCauses.{IsStorersCause};
ghost use Rattle.kmc_stage_one.specs.Shards.{IsFreshReader, IsShard};
ghost use Rattle.kmc_partqueue.specs.declared.refusal.GivenUp.TheVariants.{Memory};
ghost use Rattle.kmc_partqueue.specs.Queue.{identity};

use crate::shard::Shard;
use crate::storer::store;
use kmc_partqueue::{Gate, GivenUp, SharedQueue};
use kmc_record::Part;
use std::snapshot::Snapshot;
use std::sync::Wait;
use std::thread::{Promise, PromisedHandle, Scope, Threads};

/// A storer hands its seat back, told that the queue is finished, with its bins, or ends with a cause.
#[derive(Drop)]
pub struct Takes {
    /// What it was given.
    pub shard: Snapshot<Shard>,
}

impl Promise<Result<Shard, GivenUp>> for Takes {
    ghost kept_by = { λ p r. MatchResult r (λ h. IsShard p.shard.value h) IsStorersCause };
}

/// One storer. Where it has a cause, the others stop.
fn store_one<R: Wait, G: Gate>(
    rt: &R,
    way: &SharedQueue<Part>,
    shard: Shard,
    gate: &G,
) -> Result<Shard, GivenUp>
    requires { IsFreshReader (identity way.now.lanes) way.now.lanes.shape shard.seat }
    ensures { MatchResult result (λ h. IsShard shard h) IsStorersCause }
{
    let stored = store(rt, way, shard, gate);
    if stored.is_err() {
        way.stop();
    }
    stored
}

/// Starts one storer. Where no thread can be made, the others stop.
pub fn start_storer<'s, E, R: Threads + Wait + Sync, G: Gate + Sync>(
    rt: &'s R,
    scope: &Scope<'s, E>,
    way: &'s SharedQueue<Part>,
    shard: Shard,
    gate: &'s G,
) -> Result<PromisedHandle<Result<Shard, GivenUp>, Takes>, GivenUp>
    requires { IsFreshReader (identity way.now.lanes) way.now.lanes.shape shard.seat }
    ensures takes { IfOk result (λ h. h.promise.shard.value ≡ shard) }
    ensures cause { IfErr result (λ e. e ≡ Memory) }
{
    let promise = Takes {
        shard: Snapshot::of(&shard),
    };
    let started = scope.spawn_with(
        promise,
        move || -> Result<Shard, GivenUp>
            requires { IsFreshReader (identity way.now.lanes) way.now.lanes.shape shard.seat }
        { store_one(rt, way, shard, gate) },
    );
    match started {
        Ok(child) => Ok(child),
        Err(_) => {
            way.stop();
            Err(GivenUp::Memory)
        }
    }
}
