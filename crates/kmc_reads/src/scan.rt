//! One pass over a text that comes in blocks.
ghost use Rattle.std.specs.Prelude.{false, ◌≡◌, ◌≢◌, ◌⊎◌, ℕ, ◌+◌, ◌<◌, ◌≤◌, List, [], ◌∷◌, ◌++◌, length, take, IfOk, IfErr, OnOk, OnErr, Err};
ghost use Rattle.std.specs.Io.BufRead.{strip_last};
ghost use Rattle.std.specs.List.{concat};
ghost use Rattle.kmc_reads.specs.declared.line_kind.LineKind.TheVariants.{Body, Rest};
ghost use Rattle.kmc_reads.specs.OpenLines.{last_line};
ghost use Rattle.kmc_reads.specs.Stages.{Spot, first_spot, answer_at_end, reads_from};
ghost use Rattle.kmc_reads.specs.Standing.{Lies, Keeps, At, IsSomewhere, Goes, HasFault, EndsLine, EndsRead, EndsText, Hands, IsAgain, IsHandedOut, Moves, kept, open_symbols};

mod line;
mod record;

use crate::error::ReadsError;
use crate::format::Format;
use crate::line::cut_line;
use crate::line_kind::LineKind;
use crate::reads::Reads;
use std::alloc::{AllocError, Global};
use std::mem;

/// What is known of the open line, and where the open read begins.
#[derive(Clone, Copy)]
struct Place {
    stage: LineKind,
    /// The number of the open line.
    number: u64,
    /// The first byte of its content, where there is one.
    first: u8,
    /// How many bytes of content have come.
    length: usize,
    /// Whether a carriage return came last: it is content only where more of the line comes.
    held: bool,
    /// Where the open read begins in the buffer.
    start: usize,
}

/// The reads that have ended and the open one, one behind the other in one buffer. Of headers, plus
/// lines and quality lines only the length and the first byte are kept.
///
/// Within a call the buffers only grow, so that a refusal is undone by cutting them back.
#[derive(Drop)]
pub struct Scan {
    bytes: Vec<u8>,
    ends: Vec<usize>,
    place: Place,
}

/// The place once all symbols of the open read were handed out: what comes of the open line is the rest of a line.
fn emptied(place: Place) -> Place
    ensures between { place.length ≡ 0 → result.stage ≡ place.stage }
    ensures inside { 0 < place.length → result.stage ≡ Rest }
    ensures rest { (result.number ≡ place.number) × (result.length ≡ 0)
        × (result.held ≡ place.held) × (result.start ≡ 0) }
{
    let mut next = place;
    if place.length > 0 {
        next.stage = LineKind::Rest;
        next.length = 0;
    }
    next.start = 0;
    next
}

/// The same bytes with room for so many more, where memory is to be had: the next round is about as long as the last. Where they have no
/// such room, they get an eighth more, so that a round that is a little longer finds it.
fn with_room(bytes: Vec<u8>, more: usize) -> Vec<u8>
    ensures { result.items ≡ bytes.items }
{
    let mut roomy = bytes;
    if roomy.capacity() - roomy.len() < more {
        let _ = roomy.reserve(more.saturating_add(more / 8));
    }
    roomy
}

impl Scan {
    /// A scan at the empty text.
    pub fn new(alloc: Global, format: Format) -> Scan
        ensures { At [] (first_spot format) [] result }
    {
        Scan {
            bytes: Vec::new(alloc),
            ends: Vec::new(alloc),
            place: Place {
                stage: LineKind::first(format),
                number: 1,
                first: 0,
                length: 0,
                held: false,
                start: 0,
            },
        }
    }

    /// The open read is whole.
    fn close(&mut self) -> Result<(), AllocError>
        ensures keeps { (rows : List (List ℕ)) (spot : Spot) (line : List ℕ)
            → Keeps rows spot line self.old → kept spot.stage line ≡ []
            → OnOk result
            (Keeps (rows ++ spot.read ∷ [])
            (record { number = spot.number; stage = spot.stage; read = [] }) line self.new) }
        ensures held { self.new.place.held ≡ self.old.place.held }
        ensures bytes { self.new.bytes.items ≡ self.old.bytes.items }
        ensures ends { take (length self.old.ends.items) self.new.ends.items ≡ self.old.ends.items }
    {
        self.ends.push(self.bytes.len())?;
        self.place.start = self.bytes.len();
        Ok(())
    }

    /// Goes over a block.
    fn go(&mut self, block: &[u8]) -> Result<(), ReadsError>
        ensures goes { (rows : List (List ℕ)) (spot : Spot) (front : List ℕ)
            → At rows spot front self.old → OnOk result (Goes rows spot front block.now self.new) }
        ensures fault { (rows : List (List ℕ)) (spot : Spot) (front : List ℕ)
            → At rows spot front self.old
            → IfErr result (λ e. e ≢ ReadsError.Memory → HasFault spot front block.now e) }
        ensures bytes { take (length self.old.bytes.items) self.new.bytes.items
            ≡ self.old.bytes.items }
        ensures ends { take (length self.old.ends.items) self.new.ends.items ≡ self.old.ends.items }
    {
        let mut rest = block;
        while let Some((line, after)) = cut_line(rest) {
            self.line(line)?;
            rest = after;
        }
        self.extend(rest)?;
        Ok(())
    }

    /// Cuts the buffers back to these lengths, and returns to that place.
    fn undo(&mut self, bytes: usize, ends: usize, place: Place)
        ensures bytes { self.new.bytes.items ≡ take bytes self.old.bytes.items }
        ensures ends { self.new.ends.items ≡ take ends self.old.ends.items }
        ensures place { self.new.place ≡ place }
    {
        self.bytes.truncate(bytes);
        self.ends.truncate(ends);
        self.place = place;
    }

    /// Goes over the next block of the text, or leaves all as it was.
    pub fn feed(&mut self, block: &[u8]) -> Result<(), ReadsError>
        ensures goes { (rows : List (List ℕ)) (spot : Spot) (front : List ℕ)
            → At rows spot front self.old → OnOk result (Goes rows spot front block.now self.new) }
        ensures fault { (rows : List (List ℕ)) (spot : Spot) (front : List ℕ)
            → At rows spot front self.old
            → IfErr result (λ e. e ≢ ReadsError.Memory → HasFault spot front block.now e) }
        ensures again { OnErr result (IsAgain self.old self.new) }
    {
        let (bytes, ends, place) = (self.bytes.len(), self.ends.len(), self.place);
        match self.go(block) {
            Ok(()) => Ok(()),
            Err(e) => {
                self.undo(bytes, ends, place);
                Err(e)
            }
        }
    }

    /// The open line is the last of the text, if it has a byte.
    fn end_open(&mut self) -> Result<(), ReadsError>
        ensures whole { (rows : List (List ℕ)) (spot : Spot) (front : List ℕ)
            → At rows spot front self.old → OnOk result (EndsLine rows spot front self.new) }
        ensures refused { (rows : List (List ℕ)) (spot : Spot) (front : List ℕ)
            → At rows spot front self.old
            → IfErr result
            (λ e. e ≢ ReadsError.Memory → reads_from spot (last_line front) ≡ Err e) }
        ensures bytes { self.new.bytes.items ≡ self.old.bytes.items }
        ensures ends { take (length self.old.ends.items) self.new.ends.items ≡ self.old.ends.items }
    {
        if self.is_between() {
            return Ok(());
        }
        self.end_line()
    }

    /// No line is left: the open read is whole, or it was cut short.
    fn end_read(&mut self) -> Result<(), ReadsError>
        ensures whole { (rows : List (List ℕ)) (spot : Spot) → At rows spot [] self.old
            → OnOk result (EndsRead rows spot self.new) }
        ensures refused { (rows : List (List ℕ)) (spot : Spot) → At rows spot [] self.old
            → IfErr result
            (λ e. e ≢ ReadsError.Memory → answer_at_end spot.number spot.stage spot.read ≡ Err e) }
        ensures bytes { self.new.bytes.items ≡ self.old.bytes.items }
        ensures ends { take (length self.old.ends.items) self.new.ends.items ≡ self.old.ends.items }
    {
        match self.place.stage {
            LineKind::Header => Ok(()),
            LineKind::FirstHeader => Ok(()),
            LineKind::Body | LineKind::Name | LineKind::Rest => {
                self.close()?;
                Ok(())
            }
            LineKind::Sequence | LineKind::Plus | LineKind::Quality => {
                Err(ReadsError::Truncated(self.place.number))
            }
        }
    }

    /// The text ends here.
    fn end_text(&mut self) -> Result<(), ReadsError>
        ensures whole { (rows : List (List ℕ)) (spot : Spot) (front : List ℕ)
            → At rows spot front self.old → OnOk result (EndsText rows spot front self.new) }
        ensures refused { (rows : List (List ℕ)) (spot : Spot) (front : List ℕ)
            → At rows spot front self.old
            → IfErr result
            (λ e. e ≢ ReadsError.Memory → reads_from spot (last_line front) ≡ Err e) }
        ensures bytes { self.new.bytes.items ≡ self.old.bytes.items }
        ensures ends { take (length self.old.ends.items) self.new.ends.items ≡ self.old.ends.items }
    {
        self.end_open()?;
        self.end_read()
    }

    /// Ends the text here, or leaves all as it was.
    pub fn end(&mut self) -> Result<(), ReadsError>
        ensures whole { (rows : List (List ℕ)) (spot : Spot) (front : List ℕ)
            → At rows spot front self.old → OnOk result (EndsText rows spot front self.new) }
        ensures refused { (rows : List (List ℕ)) (spot : Spot) (front : List ℕ)
            → At rows spot front self.old
            → IfErr result
            (λ e. e ≢ ReadsError.Memory → reads_from spot (last_line front) ≡ Err e) }
        ensures again { OnErr result (IsAgain self.old self.new) }
    {
        let (bytes, ends, place) = (self.bytes.len(), self.ends.len(), self.place);
        match self.end_text() {
            Ok(()) => Ok(()),
            Err(e) => {
                self.undo(bytes, ends, place);
                Err(e)
            }
        }
    }

    /// Hands out the reads that have ended, and keeps the open one, in the memory of reads that are spent.
    pub fn take(&mut self, spent: Reads) -> Result<Reads, AllocError>
        requires { IsSomewhere self.old }
        ensures taken { (rows : List (List ℕ)) (spot : Spot) (front : List ℕ)
            → At rows spot front self.old
            → IfOk result (λ reads. (reads ≡ rows) × At [] spot front self.new) }
        ensures moved { OnOk result (Moves self.old self.new) }
        ensures same { OnErr result (self.new ≡ self.old) }
    {
        let (mut open, rows) = spent.into_rooms();
        open.extend_from_slice(&self.bytes[self.place.start..])?;
        self.bytes.truncate(self.place.start);
        let next = with_room(open, self.bytes.len());
        let bytes = mem::replace(&mut self.bytes, next);
        let ends = mem::replace(&mut self.ends, rows);
        self.place.start = 0;
        Ok(Reads::of_rows(bytes, ends))
    }

    /// Hands out the reads that have ended and, as a last one, the symbols of the open read, of which the last ones stay, in the memory of
    /// reads that are spent.
    fn cut(&mut self, overlap: usize, spent: Reads) -> Result<Reads, AllocError>
        requires somewhere { IsSomewhere self.old }
        requires stage { (self.old.place.stage ≡ Body) ⊎ (self.old.place.stage ≡ Rest) }
        requires held { self.old.place.held ≡ false }
        requires open { self.old.place.start + overlap ≤ length self.old.bytes.items }
        ensures taken { (rows : List (List ℕ)) (spot : Spot) (front : List ℕ)
            → At rows spot front self.old
            → IfOk result (λ reads. Hands overlap rows spot front reads self.new) }
        ensures handed { OnOk result (IsHandedOut overlap self.new) }
        ensures again { OnErr result (IsAgain self.old self.new) }
    {
        let (mut kept, rows) = spent.into_rooms();
        kept.extend_from_slice(&self.bytes[self.bytes.len() - overlap..])?;
        self.ends.push(self.bytes.len())?;
        let next = with_room(kept, self.bytes.len());
        let bytes = mem::replace(&mut self.bytes, next);
        let ends = mem::replace(&mut self.ends, rows);
        self.place = emptied(self.place);
        Ok(Reads::of_rows(bytes, ends))
    }

    /// Hands out the reads that have ended and, where more than `overlap` symbols of a FASTA read are open and no
    /// carriage return came last, these as a piece, whose last `overlap` symbols stay open.
    pub fn take_open(&mut self, overlap: usize, spent: Reads) -> Result<Reads, AllocError>
        requires { IsSomewhere self.old }
        ensures taken { (rows : List (List ℕ)) (spot : Spot) (front : List ℕ)
            → At rows spot front self.old
            → IfOk result (λ reads. Hands overlap rows spot front reads self.new) }
        ensures handed { OnOk result (IsHandedOut overlap self.new) }
        ensures again { OnErr result (IsAgain self.old self.new) }
    {
        let symbols = matches!(self.place.stage, LineKind::Body | LineKind::Rest);
        if !symbols || self.place.held || self.bytes.len() - self.place.start <= overlap {
            return self.take(spent);
        }
        self.cut(overlap, spent)
    }

    /// How many symbols of the open read can be handed out.
    pub fn open(&self) -> usize
        requires { IsSomewhere self.now }
        ensures { (rows : List (List ℕ)) (spot : Spot) (front : List ℕ)
            → At rows spot front self.now
            → result ≡ length (open_symbols spot.stage spot.read (strip_last 13 front)) }
    {
        match self.place.stage {
            LineKind::Body | LineKind::Rest => self.bytes.len() - self.place.start,
            _ => 0,
        }
    }

    /// How many reads have ended.
    pub fn count(&self) -> usize
        ensures { (rows : List (List ℕ)) (spot : Spot) (front : List ℕ)
            → At rows spot front self.now → result ≡ length rows }
    {
        self.ends.len()
    }

    /// How many symbols they have in all.
    pub fn symbols(&self) -> usize
        ensures { (rows : List (List ℕ)) (spot : Spot) (front : List ℕ)
            → At rows spot front self.now → result ≡ length (concat rows) }
    {
        self.place.start
    }

    /// Hands out the reads of a text that has ended.
    pub fn into_reads(self) -> Reads
        requires { (rows : List (List ℕ)) × (behind : List ℕ) × Lies rows behind self }
        ensures { (rows : List (List ℕ)) (behind : List ℕ) → Lies rows behind self → result ≡ rows }
    {
        Reads::of_rows(self.bytes, self.ends)
    }
}
