//! Runs of neighbouring words of one signature.
ghost use Rattle.std.specs.Prelude.{◌≡◌, ℕ, ◌^◌, ◌<◌, ◌≤◌, length, map, take, slice_index, OnOk};
ghost use Rattle.kmc_split.specs.Cut.{AreRuns};
ghost use Rattle.kmc_split.specs.Candidates.{unmarked};
ghost use Rattle.kmc_split.specs.Rows.{IsRow, AreRowEnds, Last, MayFollow};

use crate::mmer::Mmer;
use crate::signatures::{MAX_M, Sig};
use std::alloc::AllocError;

/// Words that stand at neighbouring places of a segment and have one signature.
#[derive(Clone, Copy)]
pub struct Run {
    /// The place of the first word, from 0.
    pub start: usize,
    /// How many words, 1 to 256.
    pub words: usize,
    pub signature: Sig,
}

/// The most words of a run, so that the number of symbols above k fits one byte.
const MOST_WORDS: usize = 256;

/// Where the maximal rows of equal values end, but for the last one: at the front of `ends`, and how many they are. Each place
/// is written, and counted where its value is new, so that there is no branch to be guessed.
fn row_ends<V: Mmer>(values: &[V], ends: &mut [usize]) -> usize
    requires some { 0 < length values.now }
    requires long { length ends.old ≡ length values.now }
    ensures within { result ≤ length ends.new }
    ensures rows { AreRowEnds (λ i. slice_index (map V.number values.now) i) 0
        (length values.now) (take result ends.new) }
{
    let mut count = 0;
    for i in 1..values.len() {
        ends[count] = i;
        let before = values[i - 1];
        count += if values[i].is_same(before) { 0 } else { 1 };
    }
    count
}

/// Appends the runs of a row of words of one signature from one place to before another.
pub(crate) fn push_row(
    signature: Sig,
    start: usize,
    end: usize,
    runs: &mut Vec<Run>,
) -> Result<(), AllocError>
    requires { start < end }
    ensures runs { (at : ℕ → ℕ) → IsRow at start end → at start ≡ signature
        → AreRuns at 0 start runs.old.items → MayFollow signature runs.old.items
        → OnOk result (AreRuns at 0 end runs.new.items) }
    ensures last { OnOk result (Last (λ r. r.signature ≡ signature) runs.new.items) }
{
    let mut place = start;
    while end - place > MOST_WORDS {
        runs.push(Run {
            start: place,
            words: MOST_WORDS,
            signature,
        })?;
        place += MOST_WORDS;
    }
    runs.push(Run {
        start: place,
        words: end - place,
        signature,
    })?;
    Ok(())
}

/// The runs of words whose least candidates are these. `ends` is to be used again.
pub(crate) fn group<V: Mmer>(
    values: &[V],
    m: usize,
    ends: &mut Vec<usize>,
    runs: &mut Vec<Run>,
) -> Result<(), AllocError>
    requires some { 0 < length values.now }
    requires most { m ≤ MAX_M }
    requires fit { (i : ℕ) → i < length values.now
        → slice_index (map V.number values.now) i < 4 ^ m }
    ensures { OnOk result (AreRuns (λ i. unmarked m (slice_index (map V.number values.now) i)) 0
        (length values.now) runs.new.items) }
{
    runs.clear();
    ends.resize(values.len(), 0)?;
    let count = row_ends(values, ends);
    let mut start = 0;
    for end in &ends[..count] {
        push_row(Sig::of_least(values[start].to_u32(), m), start, *end, runs)?;
        start = *end;
    }
    push_row(
        Sig::of_least(values[start].to_u32(), m),
        start,
        values.len(),
        runs,
    )
}
