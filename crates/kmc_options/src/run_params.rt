//! The settings of a run.
ghost use Rattle.std.specs.Prelude.{◌≡◌, ◌↔◌, ◌≤◌, IsTrue, MatchOption};
ghost use Rattle.kmc_base.specs.declared.strands.Strands.TheVariants.{Joined};
ghost use Rattle.kmc_options.specs.Ranges.{AreQueueSettings, AreSettings, IsSignatureLength};

use crate::setting::Setting;
use kmc_base::Strands;
use kmc_count::Limits;
use kmc_partcore::{MAX_PER_WRITER, MAX_READERS, QueueShape};
use kmc_reads::Format;
use kmc_record::Shape;

/// Most reads of a round for each splitter.
pub const MAX_BATCH: usize = 65536;

/// Words of so many symbols fit signatures of none.
const SHORT_WORD: usize = 10;

/// Longer ones fit signatures of so many symbols.
const MIDDLE_SIGNATURE: usize = 5;

/// And of one more for each symbol above so many.
const MIDDLE_WORD: usize = 14;

/// Up to so many.
const LONG_SIGNATURE: usize = 8;

const READERS: usize = 1;

const PER_WRITER: usize = 8;

const BATCH: usize = 1024;

/// What a run is told: what its text is, what it counts and lists, and how it shares the work.
/// The dump depends on the format, `k`, the strands and the limits alone.
#[derive(Clone, Copy)]
pub struct Params {
    /// The format of the input.
    pub format: Format,
    /// Whether a word counts for its reverse complement.
    pub strands: Strands,
    /// Which counts are listed.
    pub limits: Limits,
    /// The symbols of a counted word, 1 to 64.
    pub k: usize,
    /// The symbols that signatures are asked to have, 5 to 11.
    pub asked_signature_length: usize,
    /// The symbols that signatures have, 0 to 11 and at most `k`: with none all words have one. [`Params::new`] makes it the lesser
    /// of these two, and [`Params::with_fitting_signatures`] what fits `k` best.
    pub signature_length: usize,
    /// The bins, 1 to 2000.
    pub bins: usize,
    /// The threads that cut reads, 1 to 16: the writers of the queue.
    pub splitters: usize,
    /// The threads that count bins, 1 to 16.
    pub counters: usize,
    /// The threads that store parts, 1 to 8: the readers of the queue.
    pub readers: usize,
    /// The parts that one writer may have in the queue, 1 to 64.
    pub per_writer: usize,
    /// The reads of a round for each splitter, 1 to 65536.
    pub batch: usize,
    pub ghost in_range: { AreSettings k asked_signature_length bins splitters counters
        × AreQueueSettings readers per_writer batch
        × IsSignatureLength k signature_length },
}

/// Whether the number is at least 1 and at most this.
fn is_up_to(number: usize, most: usize) -> bool
    ensures { IsTrue result ↔ ((1 ≤ number) × (number ≤ most)) }
{
    1 <= number && number <= most
}

impl Params {
    ghost use Rattle.kmc_options.specs.Kept.{HasAskedSignatures, HasUsualQueue, IsQueueOf, KeepsOptions, KeepsQueue, KeepsSignatures};
    ghost use Rattle.kmc_options.specs.Ranges.{fitting_length};
    ghost use Rattle.kmc_options.specs.Shape.{shape_of};

    /// The settings of the command line, where they are in range. The strands are joined, signatures have as many symbols as asked for, or
    /// those of a whole word, and the queue has its usual size.
    pub fn new(
        format: Format,
        k: usize,
        asked_signature_length: usize,
        bins: usize,
        splitters: usize,
        counters: usize,
        limits: Limits,
    ) -> Option<Params>
        ensures { MatchOption result
            (AreSettings k asked_signature_length bins splitters counters → ⊥)
            (λ r. (r.format ≡ format) × (r.strands ≡ Joined) × (r.limits ≡ limits) × (r.k ≡ k)
            × (r.asked_signature_length ≡ asked_signature_length) × (r.bins ≡ bins)
            × (r.splitters ≡ splitters) × (r.counters ≡ counters) × HasAskedSignatures r
            × HasUsualQueue r) }
    {
        let in_range = Setting::K.takes(k as u64)
            && Setting::P.takes(asked_signature_length as u64)
            && Setting::N.takes(bins as u64)
            && Setting::Sp.takes(splitters as u64)
            && Setting::Sr.takes(counters as u64);
        if !in_range {
            return None;
        }
        Some(Params {
            format,
            strands: Strands::Joined,
            limits,
            k,
            asked_signature_length,
            signature_length: asked_signature_length.min(k),
            bins,
            splitters,
            counters,
            readers: READERS,
            per_writer: PER_WRITER,
            batch: BATCH,
        })
    }

    /// How the reads of a chunk are cut into parts. The dump is the same for every length of signatures.
    pub fn shape(&self) -> Shape
        ensures { result ≡ shape_of self.now }
    {
        match Shape::of_signature_length(self.k, self.signature_length, self.bins) {
            Some(shape) => shape,
            None => unreachable!(),
        }
    }

    /// The queue that the parts pass: a writer for each splitter, a reader for each storer.
    pub fn queue(&self) -> QueueShape
        ensures { IsQueueOf self.now result }
    {
        match QueueShape::new(self.splitters, self.per_writer, self.readers) {
            Some(queue) => queue,
            None => unreachable!(),
        }
    }

    /// The same run with signatures of the length that fits words of `k` symbols best. Short words have short ones, so that neighbours
    /// share one: with none where a word has at most 10 symbols, so all of them are of one bin; 5 from 11 to 14, and one more for
    /// each symbol above, up to 8. This is what the program does where it is not asked for a length.
    pub fn with_fitting_signatures(self) -> Params
        ensures length { result.signature_length ≡ fitting_length self.k }
        ensures kept { (result.strands ≡ self.strands) × KeepsOptions self result
            × KeepsQueue self result }
    {
        let middle = MIDDLE_SIGNATURE.min(MIDDLE_SIGNATURE * self.k.saturating_sub(SHORT_WORD));
        let long = middle + self.k.saturating_sub(MIDDLE_WORD);
        let mut changed = self;
        changed.signature_length = long.min(LONG_SIGNATURE);
        changed
    }

    /// The same run with words counted by these strands.
    pub fn with_strands(self, strands: Strands) -> Params
        ensures { (result.strands ≡ strands) × KeepsOptions self result × KeepsSignatures self result
            × KeepsQueue self result }
    {
        let mut changed = self;
        changed.strands = strands;
        changed
    }

    /// The same run with a queue of this size, where it is in range.
    pub fn with_queue(self, readers: usize, per_writer: usize, batch: usize) -> Option<Params>
        ensures { MatchOption result (AreQueueSettings readers per_writer batch → ⊥)
            (λ r. (r.readers ≡ readers) × (r.per_writer ≡ per_writer) × (r.batch ≡ batch)
            × (r.strands ≡ self.strands) × KeepsOptions self r × KeepsSignatures self r) }
    {
        let in_range = is_up_to(readers, MAX_READERS)
            && is_up_to(per_writer, MAX_PER_WRITER)
            && is_up_to(batch, MAX_BATCH);
        if !in_range {
            return None;
        }
        let mut changed = self;
        changed.readers = readers;
        changed.per_writer = per_writer;
        changed.batch = batch;
        Some(changed)
    }
}

impl Default for Params {
    ghost use Rattle.kmc_options.specs.Kept.{IsDefault};

    /// What a run does where no option is given.
    fn default() -> Params
        ensures { IsDefault result }
    {
        Params {
            format: Format::Fastq,
            strands: Strands::Joined,
            limits: Limits {
                ci: Setting::Ci.bounds().default,
                cx: Setting::Cx.bounds().default,
                cs: Setting::Cs.bounds().default,
            },
            k: Setting::K.bounds().default as usize,
            asked_signature_length: Setting::P.bounds().default as usize,
            signature_length: Setting::P.bounds().default.min(Setting::K.bounds().default) as usize,
            bins: Setting::N.bounds().default as usize,
            splitters: Setting::Sp.bounds().default as usize,
            counters: Setting::Sr.bounds().default as usize,
            readers: READERS,
            per_writer: PER_WRITER,
            batch: BATCH,
        }
    }
}
