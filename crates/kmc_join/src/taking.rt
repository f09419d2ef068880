//! Two sources word by word: the least word that either has next, with its count in each.
ghost use Rattle.std.specs.Prelude.{◌≡◌, ℕ, ◌*◌, ◌<◌, ◌^◌, List, Option, length, true, IfOk, IfErr, OnOk, OnErr};
ghost use Rattle.kmc_sum.specs.Heads.{head_at, IsTree};
ghost use Rattle.kmc_sum.specs.Listed.{IsLength};
ghost use Rattle.kmc_sum.specs.Refusals.{IsFaultOf};
ghost use Rattle.kmc_sum.specs.Sources.{AreReady, GaveFronts, failures_of, lefts_of};
ghost use Rattle.kmc_join.specs.Taking.{AreAbreast, IsTaken};

use kmc_device::Counted;
use kmc_sum::{Head, LineRead, Room, SourceError, advance};

/// A packed word and its counts in the first and in the second source: 0 where a source does not have it.
#[derive(Clone, Copy)]
pub(crate) struct CountedWord {
    pub packed: u128,
    pub counts: [u64; 2],
}

/// Takes the least word that either of the two sources has next, from each that has it.
pub(crate) fn take_word<R: LineRead>(
    readers: &mut [Counted<R>],
    rooms: &mut [Room],
    heads: &mut [Head],
    k: usize,
) -> Result<CountedWord, SourceError>
    requires ready { AreReady k (length readers.old) rooms.old heads.old }
    requires two { length readers.old ≡ 2 }
    requires tree { IsTree heads.old }
    requires live { (head_at heads.old 1).live ≡ true }
    ensures ready { OnOk result (AreReady k (length readers.new) rooms.new heads.new) }
    ensures tree { OnOk result (IsTree heads.new) }
    ensures fits { IfOk result (λ w. w.packed < 4 ^ k) }
    ensures taken { IfOk result (λ w. (starts : List (Option (List ℕ))) (lists : List (List (List ℕ × ℕ)))
        → AreAbreast k starts (lefts_of R.remaining readers.old) rooms.old heads.old lists
        → IsTaken k starts (lefts_of R.remaining readers.new) rooms.new heads.new lists w) }
    ensures kept { OnOk result (failures_of readers.new ≡ failures_of readers.old) }
    ensures fault { IfErr result (λ e. (starts : List (Option (List ℕ))) (lists : List (List (List ℕ × ℕ)))
        → AreAbreast k starts (lefts_of R.remaining readers.old) rooms.old heads.old lists
        → IsFaultOf k starts (lefts_of R.remaining readers.new) (failures_of readers.old)
        (failures_of readers.new) e.source e.fault) }
    ensures lost { OnErr result ((starts : List (Option (List ℕ))) (lists : List (List (List ℕ × ℕ)))
        → AreAbreast k starts (lefts_of R.remaining readers.old) rooms.old heads.old lists
        → GaveFronts k starts (lefts_of R.remaining readers.new) lists) }
{
    let packed = heads[1].packed;
    let mut counts = [0u64; 2];
    counts[heads[1].source] = heads[1].count;
    advance(readers, rooms, heads, k)?;
    if !heads[1].live || heads[1].packed != packed {
        return Ok(CountedWord { packed, counts });
    }
    counts[heads[1].source] = heads[1].count;
    advance(readers, rooms, heads, k)?;
    Ok(CountedWord { packed, counts })
}
