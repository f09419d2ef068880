//! The cut of a segment.
ghost use Rattle.std.specs.Prelude.{◌≡◌, ℕ, ◌+◌, ◌<◌, ◌≤◌, List, length, map, OnOk};
ghost use Rattle.std.specs.List.{All};
ghost use Rattle.kmc_base.specs.Words.{windows};
ghost use Rattle.kmc_split.specs.Candidates.{AreCandidates};
ghost use Rattle.kmc_split.specs.Cut.{IsCut, IsRunOf, run_words};

use crate::minima::window_minima;
use crate::mmer::{MOST_SHORT, Mmer};
use crate::offering::{offer, offer_short};
use crate::rooms::ROW;
use crate::runs::{Run, group, push_row};
use crate::signatures::{MAX_M, Sig};
use std::alloc::{AllocError, Global};

/// Room that a cut works in, to be used again for the next segment.
#[derive(Drop)]
pub struct Scratch {
    quads: Vec<u8>,
    turned: Vec<u8>,
    values: Vec<u16>,
    spare: Vec<u16>,
    wide_values: Vec<u32>,
    wide_spare: Vec<u32>,
    ends: Vec<usize>,
}

impl Scratch {
    /// Empty room, which grows with the longest segment that is cut in it.
    pub fn new(alloc: Global) -> Scratch {
        Scratch {
            quads: Vec::new(alloc),
            turned: Vec::new(alloc),
            values: Vec::new(alloc),
            spare: Vec::new(alloc),
            wide_values: Vec::new(alloc),
            wide_spare: Vec::new(alloc),
            ends: Vec::new(alloc),
        }
    }
}

/// The cut of a segment of so many words for m-mers of no symbols: all words have the signature 0, so there is nothing to look for.
fn cut_whole(words: usize, runs: &mut Vec<Run>) -> Result<(), AllocError>
    requires { 0 < words }
    ensures { (k : ℕ) (codes : List ℕ) → words + k ≡ length codes + 1
        → OnOk result (IsCut k 0 codes runs.new.items) }
{
    runs.clear();
    push_row(Sig::of_value(0), 0, words, runs)
}

/// The cut of a segment from the candidates of all its m-mers, at the front of `values`, which has a row of room behind them.
fn cut_offered<V: Mmer + Drop>(
    codes: &[u8],
    k: usize,
    m: usize,
    values: &mut Vec<V>,
    spare: &mut Vec<V>,
    ends: &mut Vec<usize>,
    runs: &mut Vec<Run>,
) -> Result<(), AllocError>
    requires some { 1 ≤ m }
    requires most { m ≤ MAX_M }
    requires within { m ≤ k }
    requires long { k ≤ length codes.now }
    requires codes { All (λ c. c < 4) codes.now }
    requires room { length codes.now + ROW < length values.old.items + m }
    requires are { AreCandidates m codes.now (map V.number values.old.items) }
    ensures { OnOk result (IsCut k m codes.now runs.new.items) }
{
    let n = codes.len() - (m - 1);
    let count = window_minima(values, spare, n, k - (m - 1))?;
    group(&values[..count], m, ends, runs)
}

/// The cut of a segment by m-mers whose candidates take 16 bits.
fn cut_short(
    codes: &[u8],
    k: usize,
    m: usize,
    scratch: &mut Scratch,
    runs: &mut Vec<Run>,
) -> Result<(), AllocError>
    requires some { 1 ≤ m }
    requires most { m ≤ MOST_SHORT }
    requires within { m ≤ k }
    requires long { k ≤ length codes.now }
    requires codes { All (λ c. c < 4) codes.now }
    ensures { OnOk result (IsCut k m codes.now runs.new.items) }
{
    let Scratch {
        quads,
        turned,
        values,
        spare,
        wide_values: _,
        wide_spare: _,
        ends,
    } = scratch;
    offer_short(codes, m, quads, turned, values)?;
    cut_offered(codes, k, m, values, spare, ends, runs)
}

/// The cut of a segment by m-mers whose candidates take 32 bits.
fn cut_wide(
    codes: &[u8],
    k: usize,
    m: usize,
    scratch: &mut Scratch,
    runs: &mut Vec<Run>,
) -> Result<(), AllocError>
    requires some { 1 ≤ m }
    requires most { m ≤ MAX_M }
    requires within { m ≤ k }
    requires long { k ≤ length codes.now }
    requires codes { All (λ c. c < 4) codes.now }
    ensures { OnOk result (IsCut k m codes.now runs.new.items) }
{
    let Scratch {
        quads: _,
        turned: _,
        values: _,
        spare: _,
        wide_values,
        wide_spare,
        ends,
    } = scratch;
    offer(codes, m, wide_values)?;
    cut_offered(codes, k, m, wide_values, wide_spare, ends, runs)
}

/// The cut of a segment takes the place of what `runs` had; after an error `runs` has nothing of use.
///
/// A run is a maximal stretch of words of one signature, cut after each 256th word. A few passes over the codes, one more each time
/// that a word has four times as many m-mers, and none where m is 0; `scratch` and `runs` are to be used again.
pub fn cut(
    codes: &[u8],
    k: usize,
    m: usize,
    scratch: &mut Scratch,
    runs: &mut Vec<Run>,
) -> Result<(), AllocError>
    requires some { 1 ≤ k }
    requires most { m ≤ MAX_M }
    requires within { m ≤ k }
    requires long { k ≤ length codes.now }
    requires codes { All (λ c. c < 4) codes.now }
    ensures cut { OnOk result (IsCut k m codes.now runs.new.items) }
    ensures each { OnOk result (All (IsRunOf k m codes.now) runs.new.items) }
    ensures words { OnOk result (run_words k codes.now runs.new.items ≡ windows k codes.now) }
{
    if m == 0 {
        cut_whole(codes.len() - (k - 1), runs)
    } else if m <= MOST_SHORT {
        cut_short(codes, k, m, scratch, runs)
    } else {
        cut_wide(codes, k, m, scratch, runs)
    }
}
