//! The reads of a round in bins of their own.
ghost use Rattle.std.specs.Prelude.{◌≡◌, ℕ, ◌-◌, ◌≤◌, List, false, IfOk, IfErr, Ok, Some};
ghost use Rattle.std.specs.Io.KnownBytes.{IsAtEnd};
ghost use Rattle.kmc_reads.specs.declared.format.Format.{Format};
ghost use Rattle.kmc_reads.specs.Standing.{Stands};
ghost use Rattle.kmc_stage_one.specs.Fed.{AreCounts, AreCountsOf};
ghost use Rattle.kmc_store.specs.Bins.{empty_bins};
ghost use Rattle.kmc_slices.specs.Rounds.{IsRound, IsRoundError};

use kmc_device::Counted;
use kmc_partqueue::Gate;
use kmc_reads::{Feeder, InputError, Reads};
use kmc_stage_one::{Dealing, feed_round, take_round};
use kmc_store::Bins;
use kmc_store::laws::empty_bins_hold_no_reads;
use std::alloc::{AllocError, Global};
use std::io::Read;
use std::mem::replace;
use std::sync::Wait;
use std::thread::Threads;

/// The bins without their records. Their bodies keep their memory, so that those of the next round need not grow anew.
pub(crate) fn emptied(alloc: Global, bins: Bins) -> Result<Bins, AllocError>
    ensures { IfOk result (λ b. b ≡ empty_bins bins.shape) }
{
    let shape = bins.shape();
    let mut bodies = Vec::with_capacity(alloc, shape.n())?;
    let mut words = Vec::with_capacity(alloc, shape.n())?;
    for mut body in bins.into_bodies() {
        body.clear();
        bodies.push(body)?;
        words.push(0)?;
    }
    Ok(Bins::of_bodies(shape, bodies, words))
}

/// The bins of the reads that wait in the feeder, made in threads while this thread reads and feeds the next round, and
/// whether the text goes on. No read is made once `most` of them gave bytes. They take the memory of the bins of another round, and the
/// next round that of reads that are spent; then its own reads are the spent ones.
pub(crate) fn next_bins<T: Threads + Wait + Sync, R: Read, G: Gate + Sync>(
    rt: &T,
    dealing: &Dealing<'_, G>,
    last: Bins,
    reader: &mut Counted<R>,
    feeder: &mut Feeder,
    most: u64,
    spent: &mut Reads,
) -> Result<(Bins, bool), InputError>
    requires shape { last.shape ≡ dealing.now.settings.shape }
    requires reads { reader.old.reads ≤ most }
    ensures shape { IfOk result (λ p. p.0.shape ≡ dealing.now.settings.shape) }
    ensures counts { IfOk result (λ p. AreCounts most reader.old.reads reader.new.reads
        reader.old.failures reader.new.failures (Ok p.1)) }
    ensures refused { IfErr result
        (AreCountsOf most reader.old.reads reader.new.reads reader.old.failures reader.new.failures) }
    ensures at_end { IfOk result (λ p. p.1 ≡ false → IsAtEnd (R.remaining reader.new.inner)) }
    ensures round { (format : Format) (text : List ℕ) (taken : List (List ℕ))
        → Stands (Some (dealing.now.settings.shape.k - 1)) format text taken feeder.old
        → IfOk result
        (λ p. IsRound dealing.now.settings.shape dealing.now.limit format
        (R.remaining reader.old.inner) (R.remaining reader.new.inner) reader.old.reads
        reader.new.reads text taken p.0.bodies feeder.new) }
    ensures cause { (format : Format) (text : List ℕ) (taken : List (List ℕ))
        → Stands (Some (dealing.now.settings.shape.k - 1)) format text taken feeder.old
        → IfErr result
        (IsRoundError (dealing.now.settings.shape.k - 1) format (R.remaining reader.old.inner)
        (R.remaining reader.new.inner) reader.old.reads reader.new.reads text taken feeder.new) }
{
    empty_bins_hold_no_reads();
    let mut bins = emptied(dealing.alloc, last)?;
    let room = replace(spent, Reads::new(dealing.alloc));
    let round = take_round(feeder, dealing.settings.shape, room)?;
    let (stored, fed) = feed_round(rt, &mut bins, &round, dealing, reader, feeder, most);
    *spent = round;
    let more = fed?;
    stored?;
    Ok((bins, more))
}
