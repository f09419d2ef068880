//! How many words of a dump have each count, in a map.
ghost use Rattle.std.specs.Prelude.{◌≡◌, ◌-◌, ◌^◌, ◌<◌, ℕ, List, Option, length, OnOk, IfOk, IfErr};
ghost use Rattle.std.specs.Ordering.{nat_cmp};
ghost use Rattle.kmc_sum.specs.Heads.{IsTree};
ghost use Rattle.kmc_sum.specs.Listed.{IsLength};
ghost use Rattle.kmc_sum.specs.Sources.{AreReady, AreSources, failures_of, left_at, lefts_of, no_lists};
ghost use Rattle.kmc_join.specs.Rows.{HasNoZero};
ghost use Rattle.kmc_join.specs.Tally.{IsTallyCause, IsWholeTally};

use crate::tally::{Tally, none_small, put_small, see_count};
use kmc_device::Counted;
use kmc_sum::{Head, LineRead, Room, SumError, advance};
use std::alloc::Global;
use std::collections::BTreeMap;

/// Takes all lines of one source, and tallies their counts.
pub(crate) fn tallied<R: LineRead>(
    alloc: Global,
    readers: &mut [Counted<R>],
    rooms: &mut [Room],
    heads: &mut [Head],
    k: usize,
) -> Result<Tally<u64>, SumError>
    requires ready { AreReady k (length readers.old) rooms.old heads.old }
    requires one { length readers.old ≡ 1 }
    requires tree { IsTree heads.old }
    requires long { IsLength k }
    ensures sound { IfOk result (HasNoZero nat_cmp) }
    ensures whole { IfOk result (λ tally. (starts : List (Option (List ℕ)))
        → AreSources k starts (lefts_of R.remaining readers.old) rooms.old heads.old (no_lists starts)
        → IsWholeTally (left_at starts 0) (left_at (lefts_of R.remaining readers.new) 0) tally) }
    ensures kept { OnOk result (failures_of readers.new ≡ failures_of readers.old) }
    ensures cause { IfErr result (λ e. (starts : List (Option (List ℕ)))
        → AreSources k starts (lefts_of R.remaining readers.old) rooms.old heads.old (no_lists starts)
        → IsTallyCause starts (lefts_of R.remaining readers.new) (failures_of readers.old)
        (failures_of readers.new) e) }
{
    let mut small = match none_small(alloc) {
        Ok(small) => small,
        Err(_) => return Err(SumError::Memory),
    };
    let mut tally = BTreeMap::new(alloc);
    for _step in 0..u64::MAX - 1 {
        if !heads[1].live {
            break;
        }
        match see_count(&mut small, &mut tally, heads[1].count) {
            Ok(()) => {}
            Err(_) => return Err(SumError::Memory),
        }
        advance(readers, rooms, heads, k)?;
    }
    if heads[1].live {
        return Err(SumError::TooLong);
    }
    match put_small(small.as_slice(), &mut tally) {
        Ok(()) => Ok(tally),
        Err(_) => Err(SumError::Memory),
    }
}
