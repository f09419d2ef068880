//! The reads of a text, a round at a time, to the files of slices.
ghost use Rattle.std.specs.Prelude.{◌≡◌, ℕ, ◌+◌, ◌-◌, ◌^◌, ◌<◌, ◌≤◌, List, [], length, map, Option, OnOk, OnErr, IfErr, Some};
ghost use Rattle.kmc_reads.specs.declared.format.Format.{Format};
ghost use Rattle.kmc_reads.specs.Standing.{Stands};
ghost use Rattle.kmc_slices.specs.Cut.{AreReadCounts, AreWriteCounts, IsCutError, IsLastCutError};
ghost use Rattle.kmc_slices.specs.Rounds.{AreAllRounds, AreLastRounds, AreRounds, AreUnended};

use crate::error::{CutError, told};
use crate::round::next_bins;
use crate::writing::write_bins;
use kmc_device::Counted;
use kmc_partqueue::Gate;
use kmc_reads::{Feeder, InputError, Reads};
use kmc_stage_one::{Dealing, fill_round, last_round, round_of};
use kmc_store::Bins;
use kmc_store::laws::empty_bins_hold_no_reads;
use std::io::{Read, Write};
use std::sync::Wait;
use std::thread::Threads;

/// The text ends here: the reads that are left go, by way of bins of their own, to the writers.
fn cut_last_round<T: Threads + Wait + Sync, W: Write, G: Gate + Sync>(
    rt: &T,
    feeder: Feeder,
    writers: &mut [Counted<W>],
    counts: &mut [u64],
    dealing: &Dealing<'_, G>,
) -> Result<(), CutError>
    requires some { 1 ≤ length writers.old }
    requires counts { length counts.old ≡ length writers.old }
    ensures ok { (format : Format) (text : List ℕ) (taken : List (List ℕ)) (olds : List (Option (List ℕ)))
        → Stands (Some (dealing.now.settings.shape.k - 1)) format text taken feeder
        → AreRounds dealing.now.settings.shape dealing.now.limit (length writers.old) taken olds
        (map (λ w. W.contents w.inner) writers.old) counts.old
        → OnOk result
        (AreLastRounds format dealing.now.settings.shape dealing.now.limit
        (length writers.old) text olds (map (λ w. W.contents w.inner) writers.new) counts.new) }
    ensures kept { OnOk result
        (map (λ w. w.failures) writers.new ≡ map (λ w. w.failures) writers.old) }
    ensures cause { (format : Format) (text : List ℕ) (taken : List (List ℕ))
        → Stands (Some (dealing.now.settings.shape.k - 1)) format text taken feeder
        → IfErr result (IsLastCutError format text) }
    ensures write_counts { IfErr result
        (AreWriteCounts (map (λ w. w.failures) writers.old) (map (λ w. w.failures) writers.new)) }
    ensures left { (taken : List (List ℕ)) (olds : List (Option (List ℕ)))
        → AreRounds dealing.now.settings.shape dealing.now.limit (length writers.old) taken olds
        (map (λ w. W.contents w.inner) writers.old) counts.old
        → OnErr result
        (AreUnended dealing.now.settings.shape (length writers.old) olds
        (map (λ w. W.contents w.inner) writers.new)) }
{
    empty_bins_hold_no_reads();
    let bins = Bins::new(dealing.alloc, dealing.settings.shape)?;
    let bins = match last_round(rt, bins, feeder, dealing) {
        Ok(bins) => bins,
        Err(e) => return Err(told(InputError::from(e))),
    };
    match write_bins(writers, counts, &bins) {
        Ok(()) => Ok(()),
        Err(s) => Err(CutError::Write(s)),
    }
}

/// All that the reader gives, of which fewer than `max_reads` reads may give bytes, goes to the writers, round after round: of
/// a round's reads, its bins and the next round's bytes no more than one round is held at a time. The frames of each
/// writer are counted.
pub(crate) fn cut_rounds<T: Threads + Wait + Sync, R: Read, W: Write, G: Gate + Sync>(
    rt: &T,
    reader: &mut Counted<R>,
    writers: &mut [Counted<W>],
    counts: &mut [u64],
    dealing: &Dealing<'_, G>,
    max_reads: u64,
) -> Result<(), CutError>
    requires reads { reader.old.reads + max_reads < 2 ^ 64 }
    requires most { max_reads ≤ 2 ^ 32 }
    requires some { 1 ≤ length writers.old }
    requires counts { length counts.old ≡ length writers.old }
    ensures ok { (olds : List (Option (List ℕ)))
        → AreRounds dealing.now.settings.shape dealing.now.limit (length writers.old) [] olds
        (map (λ w. W.contents w.inner) writers.old) counts.old
        → OnOk result
        (AreAllRounds dealing.now.settings.format dealing.now.settings.shape dealing.now.limit
        (length writers.old) (R.remaining reader.old.inner) (R.remaining reader.new.inner) olds
        (map (λ w. W.contents w.inner) writers.new) counts.new) }
    ensures sound { OnOk result ((reader.new.failures ≡ reader.old.failures)
        × (reader.old.reads ≤ reader.new.reads)
        × (reader.new.reads < reader.old.reads + max_reads)) }
    ensures kept { OnOk result
        (map (λ w. w.failures) writers.new ≡ map (λ w. w.failures) writers.old) }
    ensures cause { IfErr result
        (IsCutError dealing.now.settings.format max_reads (R.remaining reader.old.inner)
        (R.remaining reader.new.inner)) }
    ensures read_counts { IfErr result
        (AreReadCounts (reader.old.reads + max_reads) reader.old.reads reader.new.reads
        reader.old.failures reader.new.failures) }
    ensures write_counts { IfErr result
        (AreWriteCounts (map (λ w. w.failures) writers.old) (map (λ w. w.failures) writers.new)) }
    ensures left { (olds : List (Option (List ℕ)))
        → AreRounds dealing.now.settings.shape dealing.now.limit (length writers.old) [] olds
        (map (λ w. W.contents w.inner) writers.old) counts.old
        → OnErr result
        (AreUnended dealing.now.settings.shape (length writers.old) olds
        (map (λ w. W.contents w.inner) writers.new)) }
{
    let settings = &dealing.settings;
    let mut bins = Bins::new(dealing.alloc, settings.shape)?;
    let mut feeder = Feeder::new(dealing.alloc, settings.format);
    let mut spent = Reads::new(dealing.alloc);
    let most = reader.reads() + max_reads;
    let mut more = match fill_round(
        reader,
        &mut feeder,
        most,
        round_of(settings),
        dealing.symbols,
    ) {
        Ok(more) => more,
        Err(e) => return Err(told(e)),
    };
    for _ in 0..1u64 << 32 {
        if !more {
            return cut_last_round(rt, feeder, writers, counts, dealing);
        }
        let (next, goes_on) = match next_bins(
            rt,
            dealing,
            bins,
            reader,
            &mut feeder,
            most,
            &mut spent,
        ) {
            Ok(next) => next,
            Err(e) => return Err(told(e)),
        };
        match write_bins(writers, counts, &next) {
            Ok(()) => more = goes_on,
            Err(s) => return Err(CutError::Write(s)),
        }
        bins = next;
    }
    Err(CutError::TooLong)
}
