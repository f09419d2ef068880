//! The reads of a text, a round at a time, into bins: a round is cut in threads while the caller's thread reads on.
ghost use Rattle.std.specs.Prelude.{◌≡◌, ◌≢◌, ℕ, ◌+◌, ◌-◌, ◌^◌, ◌<◌, ◌≤◌, List, [], ◌++◌, Option, false, IfOk, IfErr, OnOk, OnErr, Ok, Err, Some};
ghost use Rattle.std.specs.Io.KnownBytes.{IsAtEnd};
ghost use Rattle.kmc_reads.specs.declared.format.Format.{Format};
ghost use Rattle.kmc_reads.specs.Cuts.{AreCut};
ghost use Rattle.kmc_reads.specs.Reads.{reads_of};
ghost use Rattle.kmc_reads.specs.Standing.{IsHandedOut, Stands};
ghost use Rattle.kmc_stage_one.specs.Lemmas.Stored.{AreStored, AreStoredBy};
ghost use Rattle.kmc_stage_one.specs.Fed.{IsFedBy, IsFilled, IsNextRound, IsWholeRound, AreCounts, AreCountsOf};
ghost use Rattle.kmc_stage_one.specs.Rounds.{HoldsPieces, HoldsInput, IsInputError, reads_of_round};
ghost use Rattle.kmc_stage_one.specs.declared.round.TheConstants.{BLOCK};

use crate::dealing::{Dealing, store_round};
use crate::round::fill_round;
use crate::settings::RoundSettings;
use kmc_device::Counted;
use kmc_partqueue::Gate;
use kmc_reads::{Feeder, InputError, Reads, ReadsError};
use kmc_record::Shape;
use kmc_store::Bins;
use kmc_store::laws::empty_bins_hold_no_reads;
use std::alloc::{AllocError, Global};
use std::io::Read;
use std::mem::replace;
use std::sync::Wait;
use std::thread::{Threads, join_mut};

/// A run's round is full with so many symbols: fewer make more rounds, each of which waits for its slowest thread.
const ROUND: usize = 1 << 25;

/// So many reads fill a round: `batch` for each splitter, as far as a `usize` tells.
pub fn round_of(settings: &RoundSettings) -> usize
    ensures { result ≡ reads_of_round settings.now.queue.writers settings.now.batch }
{
    settings.queue.writers.saturating_mul(settings.batch)
}

/// A round, the reads that were taken out of the feeder last, is added in threads to the bins, which are of the shape of the
/// settings; meanwhile this thread reads and feeds the next round, as [`fill_round`](crate::round::fill_round) does. Both end before
/// this does. The first answer is that of the bins, which hold the round's reads too, each as its pieces of at most `limit`
/// symbols, or were refused memory, and then what they held may be lost. The second is that of the reading: whether the text
/// goes on. Where the one is a refusal the other may be none.
pub fn feed_round<T: Threads + Wait + Sync, R: Read, G: Gate + Sync>(
    rt: &T,
    bins: &mut Bins,
    round: &Reads,
    dealing: &Dealing<'_, G>,
    reader: &mut Counted<R>,
    feeder: &mut Feeder,
    most: u64,
) -> (Result<(), AllocError>, Result<bool, InputError>)
    requires shape { bins.old.shape ≡ dealing.now.settings.shape }
    requires reads { reader.old.reads ≤ most }
    ensures shape { bins.new.shape ≡ dealing.now.settings.shape }
    ensures holds { (held : List (List ℕ))
        → HoldsPieces dealing.now.settings.shape dealing.now.limit held bins.old.bodies
        → OnOk result.0
        (HoldsPieces dealing.now.settings.shape dealing.now.limit
        (held ++ round.now) bins.new.bodies) }
    ensures counts { AreCounts most reader.old.reads reader.new.reads reader.old.failures reader.new.failures result.1 }
    ensures fed { (overlap : ℕ) (format : Format) (text : List ℕ) (taken : List (List ℕ))
        → Stands (Some overlap) format text taken feeder.old
        → IsFedBy overlap format (R.remaining reader.old.inner)
        (R.remaining reader.new.inner) reader.old.reads reader.new.reads text taken feeder.new result.1 }
    ensures at_end { result.1 ≡ Ok false → IsAtEnd (R.remaining reader.new.inner) }
    ensures filled { (overlap : ℕ) (format : Format) (text : List ℕ) (taken : List (List ℕ))
        → Stands (Some overlap) format text taken feeder.old
        → OnOk result.1
        (IsFilled (reads_of_round dealing.now.settings.queue.writers dealing.now.settings.batch) dealing.now.symbols BLOCK
        overlap format (R.remaining reader.old.inner) (R.remaining reader.new.inner) text taken feeder.old feeder.new) }
    ensures full { IsWholeRound (reads_of_round dealing.now.settings.queue.writers dealing.now.settings.batch)
        dealing.now.symbols reader.old.reads reader.new.reads feeder.new result.1 }
{
    let reads = round_of(&dealing.settings);
    let symbols = dealing.symbols;
    join_mut(
        rt,
        &mut || -> Result<(), AllocError>
            requires { bins.now.shape ≡ dealing.now.settings.shape }
        { store_round(rt, bins, round, dealing) },
        &mut || -> Result<bool, InputError>
            requires reads { reader.now.reads ≤ most }
        { fill_round(reader, feeder, most, reads, symbols) },
    )
}

/// The text ends here, where the reader gave all that it has: the feeder ends, and the reads that it still has go into the
/// bins, each as its pieces. With those that were taken before they are the reads of the text, whatever the bins held: these
/// go on with bins of the earlier rounds, or begin with none. It fails where the text is no list of reads, or for want of
/// memory.
pub fn last_round<T: Threads + Wait + Sync, G: Gate + Sync>(
    rt: &T,
    bins: Bins,
    feeder: Feeder,
    dealing: &Dealing<'_, G>,
) -> Result<Bins, ReadsError>
    requires { bins.shape ≡ dealing.now.settings.shape }
    ensures shape { IfOk result (λ b. b.shape ≡ dealing.now.settings.shape) }
    ensures holds { (format : Format) (text : List ℕ) (taken held : List (List ℕ))
        → Stands (Some (dealing.now.settings.shape.k - 1)) format text taken feeder
        → HoldsPieces dealing.now.settings.shape dealing.now.limit held bins.bodies
        → IfOk result
        (λ b. (reads last : List (List ℕ)) × (reads_of format text ≡ Ok reads)
        × AreCut (dealing.now.settings.shape.k - 1) reads (taken ++ last)
        × HoldsPieces dealing.now.settings.shape dealing.now.limit (held ++ last) b.bodies) }
    ensures cause { (format : Format) (text : List ℕ) (taken : List (List ℕ))
        → Stands (Some (dealing.now.settings.shape.k - 1)) format text taken feeder
        → IfErr result (λ e. e ≢ ReadsError.Memory → reads_of format text ≡ Err e) }
{
    let reads = match feeder.finish() {
        Ok(reads) => reads,
        Err((e, _)) => return Err(e),
    };
    let mut bins = bins;
    store_round(rt, &mut bins, &reads, dealing)?;
    Ok(bins)
}

/// The reads of a round, taken out of the feeder: of an open one all but the k - 1 symbols that its next piece begins with. The next round
/// is read into the memory of a round that is spent. After want of memory the feeder stands where it stood.
pub fn take_round(feeder: &mut Feeder, shape: Shape, spent: Reads) -> Result<Reads, AllocError>
    ensures stands { (format : Format) (text : List ℕ) (taken : List (List ℕ))
        → Stands (Some (shape.k - 1)) format text taken feeder.old
        → IfOk result (λ reads. Stands (Some (shape.k - 1)) format text (taken ++ reads) feeder.new) }
    ensures memory { (format : Format) (text : List ℕ) (taken : List (List ℕ))
        → Stands (Some (shape.k - 1)) format text taken feeder.old
        → OnErr result (Stands (Some (shape.k - 1)) format text taken feeder.new) }
    ensures handed { OnOk result (IsHandedOut (shape.k - 1) feeder.new.scan) }
{
    feeder.take_open(shape.k() - 1, spent)
}

/// The reads that wait in the feeder are added to the bins, which are of the shape of the settings, while this thread reads and
/// feeds the next round, into the memory of the round that is spent; then they are the spent ones. The answer is whether the text goes on.
/// A refusal is that of the reading before that of the bins.
fn next_round<T: Threads + Wait + Sync, R: Read, G: Gate + Sync>(
    rt: &T,
    bins: &mut Bins,
    feeder: &mut Feeder,
    dealing: &Dealing<'_, G>,
    reader: &mut Counted<R>,
    most: u64,
    spent: &mut Reads,
) -> Result<bool, InputError>
    requires shape { bins.old.shape ≡ dealing.now.settings.shape }
    requires reads { reader.old.reads ≤ most }
    ensures shape { bins.new.shape ≡ dealing.now.settings.shape }
    ensures stored { (format : Format) (first : Option (List ℕ)) (before : ℕ)
        → AreStored format dealing.now.settings.shape dealing.now.limit first
        (R.remaining reader.old.inner) before reader.old.reads bins.old feeder.old
        → AreStoredBy format dealing.now.settings.shape dealing.now.limit first
        (R.remaining reader.new.inner) before reader.new.reads bins.new feeder.new result }
    ensures counts { AreCounts most reader.old.reads reader.new.reads reader.old.failures reader.new.failures result }
    ensures at_end { result ≡ Ok false → IsAtEnd (R.remaining reader.new.inner) }
    ensures held { OnOk result (IsNextRound
        (reads_of_round dealing.now.settings.queue.writers dealing.now.settings.batch) dealing.now.symbols BLOCK
        (dealing.now.settings.shape.k - 1) (R.remaining reader.old.inner) (R.remaining reader.new.inner) feeder.new) }
{
    let room = replace(spent, Reads::new(dealing.alloc));
    let round = take_round(feeder, dealing.settings.shape, room)?;
    let (stored, fed) = feed_round(rt, bins, &round, dealing, reader, feeder, most);
    *spent = round;
    let more = fed?;
    stored?;
    Ok(more)
}

/// Each round of a text but the last goes into the bins, which hold no reads, while this thread reads and feeds the next one. The
/// feeder, which has taken nothing, is left with the last round, and the reader at its end. At most `max_reads` reads may give bytes.
fn earlier_rounds<T: Threads + Wait + Sync, R: Read, G: Gate + Sync>(
    rt: &T,
    bins: &mut Bins,
    feeder: &mut Feeder,
    dealing: &Dealing<'_, G>,
    reader: &mut Counted<R>,
    max_reads: u64,
) -> Result<(), InputError>
    requires shape { bins.old.shape ≡ dealing.now.settings.shape }
    requires bins { HoldsPieces dealing.now.settings.shape dealing.now.limit [] bins.old.bodies }
    requires feeder { Stands
        (Some (dealing.now.settings.shape.k - 1)) dealing.now.settings.format [] [] feeder.old }
    requires reads { reader.old.reads + max_reads < 2 ^ 64 }
    requires most { max_reads ≤ 2 ^ 32 }
    ensures shape { bins.new.shape ≡ dealing.now.settings.shape }
    ensures stored { OnOk result
        (AreStored dealing.now.settings.format dealing.now.settings.shape dealing.now.limit
        (R.remaining reader.old.inner)
        (R.remaining reader.new.inner) reader.old.reads reader.new.reads bins.new feeder.new
        × IsAtEnd (R.remaining reader.new.inner)
        × (reader.new.failures ≡ reader.old.failures)
        × (reader.old.reads ≤ reader.new.reads)
        × (reader.new.reads < reader.old.reads + max_reads)) }
    ensures cause { IfErr result (λ e. AreCountsOf
        (reader.old.reads
        + max_reads) reader.old.reads reader.new.reads reader.old.failures reader.new.failures e
        × IsInputError dealing.now.settings.format max_reads (R.remaining reader.old.inner)
        (R.remaining reader.new.inner) e) }
{
    let most = reader.reads() + max_reads;
    let full = round_of(&dealing.settings);
    let mut spent = Reads::new(dealing.alloc);
    let mut more = fill_round(reader, feeder, most, full, dealing.symbols)?;
    for _ in 0..1u64 << 32 {
        if !more {
            return Ok(());
        }
        more = next_round(rt, bins, feeder, dealing, reader, most, &mut spent)?;
    }
    Err(InputError::TooLong)
}

/// Bins that hold the reads of all that the reader gives, of which at most `max_reads` reads may give bytes. Of a
/// round's reads and the next round's bytes no more than one round is held at a time, beside the bins: a FASTA read that
/// is open is taken in pieces. Each read is held as its pieces of at most `limit` symbols.
pub fn bins_of_input<T: Threads + Wait + Sync, R: Read, G: Gate + Sync>(
    rt: &T,
    alloc: Global,
    reader: &mut Counted<R>,
    settings: &RoundSettings,
    gate: &G,
    max_reads: u64,
    limit: usize,
) -> Result<Bins, InputError>
    requires reads { reader.old.reads + max_reads < 2 ^ 64 }
    requires most { max_reads ≤ 2 ^ 32 }
    requires limit { settings.now.shape.k ≤ limit }
    ensures ok { IfOk result (HoldsInput settings.now.format settings.now.shape limit
        (R.remaining reader.old.inner) (R.remaining reader.new.inner)) }
    ensures sound { OnOk result ((reader.new.failures ≡ reader.old.failures)
        × (reader.old.reads ≤ reader.new.reads)
        × (reader.new.reads < reader.old.reads + max_reads)) }
    ensures counts { IfErr result
        (AreCountsOf
        (reader.old.reads
        + max_reads) reader.old.reads reader.new.reads reader.old.failures reader.new.failures) }
    ensures cause { IfErr result
        (IsInputError settings.now.format max_reads (R.remaining reader.old.inner)
        (R.remaining reader.new.inner)) }
{
    empty_bins_hold_no_reads();
    let dealing = Dealing {
        alloc,
        settings: *settings,
        limit,
        symbols: ROUND,
        gate,
    };
    let mut bins = Bins::new(alloc, settings.shape)?;
    let mut feeder = Feeder::new(alloc, settings.format);
    earlier_rounds(rt, &mut bins, &mut feeder, &dealing, reader, max_reads)?;
    Ok(last_round(rt, bins, feeder, &dealing)?)
}
