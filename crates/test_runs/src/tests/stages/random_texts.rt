//! Random texts by settings anywhere in their ranges.
use super::random_reads::some_reads;
use super::*;
use crate::tests::texts::direct_dump;
use kmc_base::Strands;
use kmc_count::Limits;
use kmc_reads::Format;

/// Limits within which some of the words of a random text lie.
fn some_limits(dice: &mut Dice) -> Option<Limits> {
    let ci = dice.roll(4);
    let cx = 1 + dice.roll(100);
    let cs = 1 + dice.roll(20);
    Limits::new(ci as u64, cx as u64, cs as u64)
}

/// A length of words, in every other case a short one.
fn some_length(dice: &mut Dice) -> usize {
    let longest = if dice.roll(2) == 0 { 12 } else { 64 };
    1 + dice.roll(longest)
}

/// Settings anywhere in their ranges.
fn some_settings(dice: &mut Dice) -> Option<Params> {
    let k = some_length(dice);
    let limits = some_limits(dice)?;
    let n = 1 + dice.roll(2000);
    let p = 5 + dice.roll(7);
    let sp = 1 + dice.roll(16);
    let sr = 1 + dice.roll(16);
    let params = Params::new(Format::Fastq, k, p, n, sp, sr, limits)?;
    if dice.roll(2) == 0 {
        Some(params.with_strands(Strands::Apart))
    } else {
        Some(params)
    }
}

/// The same settings with a queue of any size.
fn with_some_queue(dice: &mut Dice, params: Params) -> Option<Params> {
    let readers = 1 + dice.roll(8);
    let per_writer = 1 + dice.roll(64);
    let batch = 1 + dice.roll(6);
    params.with_queue(readers, per_writer, batch)
}

/// Settings and a queue anywhere in their ranges.
fn some_params(dice: &mut Dice) -> Option<Params> {
    let settings = some_settings(dice)?;
    with_some_queue(dice, settings)
}

/// How bins are filled.
#[derive(Clone, Copy)]
enum Filling {
    /// Part by part, in any order.
    PartByPart,
    /// By stage one.
    ByStageOne,
}

/// Bins of the reads, filled so.
fn bins_of<R: Abort + Threads + Wait + Sync>(
    rt: &R,
    alloc: Global,
    dice: &mut Dice,
    filling: Filling,
    reads: &[Vec<u8>],
    params: &Params,
) -> Bins {
    match filling {
        Filling::PartByPart => {
            let batch = 1 + dice.roll(5);
            filled_in_any_order(rt, alloc, dice, reads, batch, params.shape())
        }
        Filling::ByStageOne => filled(rt, alloc, reads, params),
    }
}

/// Asserts that stage two makes of the bins the dump of the direct count of the reads. The answer is its number of lines.
fn lines_as_direct<R: Abort + Threads + Wait + Sync>(
    rt: &R,
    alloc: Global,
    bins: Bins,
    reads: &[Vec<u8>],
    params: &Params,
) -> usize {
    let by_bins = counted(rt, alloc, bins, params);
    let (direct, lines) = direct_dump(rt, alloc, reads, params);
    assert!(rt; by_bins == direct);
    lines
}

/// The number of lines of one random text, whose bins are filled so; its dump is that of the direct count.
fn lines_of_random_text<R: Abort + Threads + Wait + Sync>(
    rt: &R,
    alloc: Global,
    dice: &mut Dice,
    filling: Filling,
) -> usize {
    let params = some_params(dice).expect(rt, "settings in range");
    let reads = some_reads(alloc, dice, 12, 90).expect(rt, "memory");
    let bins = bins_of(rt, alloc, dice, filling, &reads, &params);
    lines_as_direct(rt, alloc, bins, &reads, &params)
}

/// The number of lines of thirty random texts, whose bins are filled so.
fn lines_of_random_texts<R: Abort + Threads + Wait + Sync + Alloc<A = Global>>(
    rt: &R,
    state: u64,
    filling: Filling,
) -> usize {
    let mut dice = Dice { state };
    let mut listed: usize = 0;
    for _ in 0..30 {
        let lines = lines_of_random_text(rt, rt.alloc(), &mut dice, filling);
        listed = lines.saturating_add(listed);
    }
    listed
}

#[test]
fn stage_two_counts_what_the_reads_hold(rt: HostRuntime) {
    // the texts are no idle ones
    assert!(rt; lines_of_random_texts(&rt, 7, Filling::PartByPart) > 300);
}

#[test]
fn both_stages_count_random_texts(rt: HostRuntime) {
    assert!(rt; lines_of_random_texts(&rt, 23, Filling::ByStageOne) > 300);
}
