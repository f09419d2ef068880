//! A text that comes in blocks.
ghost use Rattle.std.specs.Prelude.{◌≡◌, ◌≢◌, ℕ, ◌+◌, List, [], ◌++◌, length, IfOk, IfErr, OnOk, OnErr, IsErrOf, Option, Some, Err, None};
ghost use Rattle.std.specs.Io.BufRead.{strip_last};
ghost use Rattle.std.specs.List.{concat};
ghost use Rattle.kmc_reads.specs.Reads.{reads_of};
ghost use Rattle.kmc_reads.specs.Stages.{Spot, fault, ended};
ghost use Rattle.kmc_reads.specs.Cuts.{AreReadsBy};
ghost use Rattle.kmc_reads.specs.Standing.{At, Hands, Stands, StandsStill, IsSomewhere, IsHandedOut, Refuses, open_symbols};

use crate::error::ReadsError;
use crate::format::Format;
use crate::reads::Reads;
use crate::scan::Scan;
use std::alloc::{AllocError, Global};
use std::marker::Model;

/// Takes a text that comes in blocks, however it is cut, and gives its reads as they end. Each byte is looked at
/// once; of the lines that are no symbols of a read nothing is kept but what they are judged by.
///
/// A feeder that has refused the text answers the same refusal from then on. One that was refused
/// memory stands where it stood, and the call can be made again.
#[derive(Drop)]
pub struct Feeder {
    scan: Scan,
    refusal: Option<ReadsError>,
}

impl Model for Feeder {
    ghost use Rattle.kmc_reads.specs.Standing.{FeederState, IsSomewhere};

    ghost Value = { FeederState };

    ghost view = { λ a. record { scan = a.scan; refusal = a.refusal } };

    ghost invariant = { λ a. IsSomewhere a.scan };
}

impl Feeder {
    /// A feeder at the empty text.
    pub fn new(alloc: Global, format: Format) -> Feeder
        ensures { (cut : Option ℕ) → Stands cut format [] [] result }
    {
        Feeder {
            scan: Scan::new(alloc, format),
            refusal: None,
        }
    }

    /// Takes the next block of the text. A line is judged once its line feed has come, so the answer
    /// is never `Truncated`. The reads that the block ends wait until they are taken.
    pub fn feed(&mut self, block: &[u8]) -> Result<(), ReadsError>
        ensures stands { (cut : Option ℕ) (format : Format) (text : List ℕ) (taken : List (List ℕ))
            → Stands cut format text taken self.old
            → OnOk result (Stands cut format (text ++ block.now) taken self.new) }
        ensures sound { (cut : Option ℕ) (format : Format) (text : List ℕ) (taken : List (List ℕ))
            → Stands cut format text taken self.old
            → OnOk result (fault format (text ++ block.now) ≡ None) }
        ensures refused { (cut : Option ℕ) (format : Format) (text : List ℕ) (taken : List (List ℕ))
            → Stands cut format text taken self.old
            → IfErr result
            (λ e. e ≢ ReadsError.Memory → (fault format (text ++ block.now) ≡ Some e)
            × Refuses e self.new) }
        ensures memory { (cut : Option ℕ) (format : Format) (text : List ℕ) (taken : List (List ℕ))
            → Stands cut format text taken self.old → IsErrOf result ReadsError.Memory
            → Stands cut format text taken self.new }
        ensures again { (e : ReadsError) → Refuses e self.old → (result ≡ Err e)
            × (self.new ≡ self.old) }

        // What waited before a refusal waits after it.
        ensures still { OnErr result (StandsStill self.old.scan self.new.scan) }
    {
        if let Some(e) = self.refusal {
            return Err(e);
        }
        match self.scan.feed(block) {
            Ok(()) => Ok(()),
            Err(e) => {
                if e != ReadsError::Memory {
                    self.refusal = Some(e);
                    return Err(e);
                }
                Err(e)
            }
        }
    }

    /// How many reads have ended and were not taken yet.
    pub fn waiting(&self) -> usize
        ensures are { (format : Format) (text : List ℕ) (taken : List (List ℕ))
            → Stands None format text taken self.now
            → length (ended format text) ≡ length taken + result }
        ensures rows { (rows : List (List ℕ)) (spot : Spot) (front : List ℕ)
            → At rows spot front self.now.scan → result ≡ length rows }
    {
        self.scan.count()
    }

    /// How many symbols these reads have in all.
    pub fn waiting_symbols(&self) -> usize
        ensures are { (format : Format) (text : List ℕ) (taken : List (List ℕ))
            → Stands None format text taken self.now
            → length (concat (ended format text)) ≡ length (concat taken) + result }
        ensures rows { (rows : List (List ℕ)) (spot : Spot) (front : List ℕ)
            → At rows spot front self.now.scan → result ≡ length (concat rows) }
    {
        self.scan.symbols()
    }

    /// Hands out the reads that have ended and were not taken yet. It copies the open read, so take
    /// them a round at a time, and not after each block. A feeder that has refused the text hands out the reads that had
    /// ended before the block that it refused, and goes on refusing.
    pub fn take(&mut self, alloc: Global) -> Result<Reads, AllocError>
        ensures all { (format : Format) (text : List ℕ) (taken : List (List ℕ))
            → Stands None format text taken self.old
            → IfOk result (λ reads. ended format text ≡ taken ++ reads) }
        ensures stands { (cut : Option ℕ) (format : Format) (text : List ℕ) (taken : List (List ℕ))
            (s : Stands cut format text taken self.old)
            → IfOk result (λ reads. (reads ≡ s.rows)
            × Stands cut format text (taken ++ reads) self.new) }
        ensures memory { OnErr result (self.new ≡ self.old) }
        ensures refused { (e : ReadsError) → Refuses e self.old → Refuses e self.new }

        // What waits is handed out, after a refusal too.
        ensures waiting { (rows : List (List ℕ)) (spot : Spot) (front : List ℕ)
            → At rows spot front self.old.scan
            → IfOk result (λ reads. (reads ≡ rows) × At [] spot front self.new.scan) }
    {
        self.scan.take(Reads::new(alloc))
    }

    /// Hands out the reads that have ended and were not taken yet and, of a FASTA read that is open, its symbols so far as
    /// a piece. The last `overlap` of these stay: the next piece of this read, or its end, begins with them. So a sequence of any
    /// length passes in little memory. Where no more symbols are open, or a carriage return came last, it is [`Feeder::take`],
    /// and so it is for FASTQ, where the length of a read is wanted for its quality line. What comes next lies in the memory of reads
    /// that are spent, so that two buffers do for all rounds of a text; [`Reads::new`] is none.
    pub fn take_open(&mut self, overlap: usize, spent: Reads) -> Result<Reads, AllocError>
        ensures stands { (format : Format) (text : List ℕ) (taken : List (List ℕ))
            → Stands (Some overlap) format text taken self.old
            → IfOk result (λ reads. Stands (Some overlap) format text (taken ++ reads) self.new) }
        ensures memory { (format : Format) (text : List ℕ) (taken : List (List ℕ))
            → Stands (Some overlap) format text taken self.old
            → OnErr result (Stands (Some overlap) format text taken self.new) }
        ensures handed { OnOk result (IsHandedOut overlap self.new.scan) }
        ensures refused { (e : ReadsError) → Refuses e self.old → Refuses e self.new }

        // What waits is handed out, after a refusal too.
        ensures waiting { (rows : List (List ℕ)) (spot : Spot) (front : List ℕ)
            → At rows spot front self.old.scan
            → IfOk result (λ reads. Hands overlap rows spot front reads self.new.scan) }
        ensures still { OnErr result (StandsStill self.old.scan self.new.scan) }
    {
        self.scan.take_open(overlap, spent)
    }

    /// How many symbols of the open read [`Feeder::take_open`] can hand out.
    pub fn open_symbols(&self) -> usize
        ensures { (at : IsSomewhere self.now.scan)
            → result ≡ length (open_symbols at.spot.stage at.spot.read (strip_last 13 at.front)) }
    {
        self.scan.open()
    }

    /// Ends the text: the reads that were not taken yet, or the refusal of the first faulty line, with
    /// the feeder.
    pub fn finish(self) -> Result<Reads, (ReadsError, Feeder)>
        ensures all { (cut : Option ℕ) (format : Format) (text : List ℕ) (taken : List (List ℕ))
            → Stands cut format text taken self
            → IfOk result (λ reads. AreReadsBy cut (reads_of format text) (taken ++ reads)) }
        ensures refused { (cut : Option ℕ) (format : Format) (text : List ℕ) (taken : List (List ℕ))
            → Stands cut format text taken self
            → IfErr result
            (λ p. p.0 ≢ ReadsError.Memory → (reads_of format text ≡ Err p.0) × Refuses p.0 p.1) }
        ensures memory { (cut : Option ℕ) (format : Format) (text : List ℕ) (taken : List (List ℕ))
            → Stands cut format text taken self
            → IfErr result (λ p. p.0 ≡ ReadsError.Memory → Stands cut format text taken p.1) }
        ensures again { (e : ReadsError) → Refuses e self → result ≡ Err (e, self) }

        // What waited before a refusal waits after it.
        ensures still { IfErr result (λ p. StandsStill self.scan p.1.scan) }
    {
        let mut feeder = self;
        if let Some(e) = feeder.refusal {
            return Err((e, feeder));
        }
        match feeder.scan.end() {
            Ok(()) => {
                let Feeder { scan, .. } = feeder;
                Ok(scan.into_reads())
            }
            Err(e) => {
                if e != ReadsError::Memory {
                    feeder.refusal = Some(e);
                    return Err((e, feeder));
                }
                Err((e, feeder))
            }
        }
    }
}
