//! How many words of two dumps have which counts there, in a map.
ghost use Rattle.std.specs.Prelude.{◌≡◌, ◌-◌, ◌^◌, ◌<◌, ℕ, List, Option, length, min, OnOk, IfOk, IfErr};
ghost use Rattle.kmc_sum.specs.Heads.{IsTree};
ghost use Rattle.kmc_sum.specs.Listed.{IsLength};
ghost use Rattle.kmc_sum.specs.Sources.{AreReady, failures_of, lefts_of, no_lists};
ghost use Rattle.kmc_join.specs.Rows.{HasNoZero};
ghost use Rattle.kmc_join.specs.Table.{counts_cmp};
ghost use Rattle.kmc_join.specs.Tabulation.{IsTableTally};
ghost use Rattle.kmc_join.specs.Taking.{AreAbreast, count_in};
ghost use Rattle.kmc_join.specs.Tally.{IsTallyCause};

use crate::taking::{CountedWord, take_word};
use crate::tally::{Tally, count_key};
use kmc_device::Counted;
use kmc_sum::{Head, LineRead, Room, SumError};
use std::alloc::Global;
use std::collections::BTreeMap;

/// The two counts of a word, each at most the cap.
fn capped(word: CountedWord, cap: u64) -> (u64, u64)
    ensures { result ≡ (min (count_in word 0) cap, min (count_in word 1) cap) }
{
    (word.counts[0].min(cap), word.counts[1].min(cap))
}

/// Takes all lines of the two sources, least word first, and tallies the two counts of each word, each at most the cap.
pub(crate) fn tabulated<R: LineRead>(
    alloc: Global,
    readers: &mut [Counted<R>],
    rooms: &mut [Room],
    heads: &mut [Head],
    k: usize,
    cap: u64,
) -> Result<Tally<(u64, u64)>, SumError>
    requires ready { AreReady k (length readers.old) rooms.old heads.old }
    requires two { length readers.old ≡ 2 }
    requires tree { IsTree heads.old }
    requires long { IsLength k }
    ensures sound { IfOk result (HasNoZero counts_cmp) }
    ensures whole { IfOk result (λ tally. (starts : List (Option (List ℕ)))
        → AreAbreast k starts (lefts_of R.remaining readers.old) rooms.old heads.old (no_lists starts)
        → IsTableTally cap starts (lefts_of R.remaining readers.new) tally) }
    ensures kept { OnOk result (failures_of readers.new ≡ failures_of readers.old) }
    ensures cause { IfErr result (λ e. (starts : List (Option (List ℕ)))
        → AreAbreast k starts (lefts_of R.remaining readers.old) rooms.old heads.old (no_lists starts)
        → IsTallyCause starts (lefts_of R.remaining readers.new) (failures_of readers.old)
        (failures_of readers.new) e) }
{
    let mut tally = BTreeMap::new(alloc);
    for _step in 0..u64::MAX - 1 {
        if !heads[1].live {
            break;
        }
        let word = take_word(readers, rooms, heads, k)?;
        let counts = capped(word, cap);
        match count_key(&mut tally, counts) {
            Ok(()) => {}
            Err(_) => return Err(SumError::Memory),
        }
    }
    if heads[1].live {
        return Err(SumError::TooLong);
    }
    Ok(tally)
}
