//! The open line of a text that comes in blocks: its bytes as they come, whether it is a header, and its end, where it is judged.
ghost use Rattle.std.specs.Prelude.{true, false, ◌≡◌, ◌≢◌, ℕ, ◌<◌, List, [], ◌∷◌, ◌++◌, length, take, IfErr, OnOk, Some, None};
ghost use Rattle.std.specs.Io.BufRead.{strip_last};
ghost use Rattle.kmc_reads.specs.declared.line_kind.LineKind.TheVariants.{Body, Name};
ghost use Rattle.kmc_reads.specs.Lines.{line_feed};
ghost use Rattle.kmc_reads.specs.Stages.{Spot, fault_of, past, begun_by, given_by};
ghost use Rattle.kmc_reads.specs.Standing.{Keeps, At, Goes, HasFault, HasNoFeed, IsName};

use crate::error::ReadsError;
use crate::line::{begins_header, cut_return};
use crate::line_kind::LineKind;
use crate::scan::Scan;
use std::alloc::AllocError;

impl Scan {
    /// More content of the open line.
    fn add(&mut self, content: &[u8]) -> Result<(), AllocError>
        ensures keeps { (rows : List (List ℕ)) (spot : Spot) (line : List ℕ)
            → Keeps rows spot line self.old
            → OnOk result (Keeps rows spot (line ++ content.now) self.new) }
        ensures held { self.new.place.held ≡ self.old.place.held }
        ensures bytes { take (length self.old.bytes.items) self.new.bytes.items
            ≡ self.old.bytes.items }
        ensures ends { self.new.ends.items ≡ self.old.ends.items }
    {
        match self.place.stage {
            LineKind::Sequence | LineKind::Body | LineKind::Rest => self
                .bytes
                .extend_from_slice(content)?,
            _ => {}
        }
        if self.place.length == 0 && !content.is_empty() {
            self.place.first = content[0];
        }
        self.place.length = self.place.length.saturating_add(content.len());
        Ok(())
    }

    /// A carriage return that was held back is content after all.
    fn release(&mut self) -> Result<(), AllocError>
        ensures keeps { (rows : List (List ℕ)) (spot : Spot) (front : List ℕ)
            → At rows spot front self.old → OnOk result (Keeps rows spot front self.new) }
        ensures bytes { take (length self.old.bytes.items) self.new.bytes.items
            ≡ self.old.bytes.items }
        ensures ends { self.new.ends.items ≡ self.old.ends.items }
    {
        if self.place.held {
            return self.add(b"\r");
        }
        Ok(())
    }

    /// More bytes of the open line, which do not tell that it is a header. A carriage return at their
    /// end is held back.
    fn grow(&mut self, bytes: &[u8]) -> Result<(), AllocError>
        ensures at { (rows : List (List ℕ)) (spot : Spot) (front : List ℕ)
            → At rows spot front self.old → 0 < length bytes.now
            → begun_by spot.stage spot.read (front ++ bytes.now) ≡ []
            → OnOk result (At rows spot (front ++ bytes.now) self.new) }
        ensures bytes { take (length self.old.bytes.items) self.new.bytes.items
            ≡ self.old.bytes.items }
        ensures ends { self.new.ends.items ≡ self.old.ends.items }
    {
        self.release()?;
        let (content, held) = cut_return(bytes);
        self.add(content)?;
        self.place.held = held;
        Ok(())
    }

    /// Whether no line is open.
    pub(super) fn is_between(&self) -> bool
        ensures none { (rows : List (List ℕ)) (spot : Spot) (front : List ℕ)
            → At rows spot front self.now → result ≡ true → front ≡ [] }
        ensures some { (rows : List (List ℕ)) (spot : Spot) (front : List ℕ)
            → At rows spot front self.now → result ≡ false → front ≡ [] → ⊥ }
    {
        !self.place.held && self.place.length == 0
    }

    /// Whether these bytes of a line begin the header that ends the open read.
    fn begins_name(&self, bytes: &[u8]) -> bool
        ensures name { (rows : List (List ℕ)) (spot : Spot) (front : List ℕ)
            → At rows spot front self.now → result ≡ true → IsName spot front bytes.now }
        ensures none { (rows : List (List ℕ)) (spot : Spot) (front : List ℕ)
            → At rows spot front self.now → result ≡ false
            → begun_by spot.stage spot.read (front ++ bytes.now) ≡ [] }
    {
        self.place.stage == LineKind::Body && self.is_between() && begins_header(bytes)
    }

    /// A header begins, and the open read is whole.
    fn name(&mut self) -> Result<(), AllocError>
        ensures at { (rows : List (List ℕ)) (spot : Spot) → At rows spot [] self.old
            → spot.stage ≡ Body
            → OnOk result
            (At (rows ++ spot.read ∷ [])
            (record { number = spot.number; stage = Name; read = [] }) [] self.new) }
        ensures bytes { self.new.bytes.items ≡ self.old.bytes.items }
        ensures ends { take (length self.old.ends.items) self.new.ends.items ≡ self.old.ends.items }
    {
        self.close()?;
        self.place.stage = LineKind::Name;
        Ok(())
    }

    /// More bytes of the open line.
    pub(super) fn extend(&mut self, bytes: &[u8]) -> Result<(), AllocError>
        ensures goes { (rows : List (List ℕ)) (spot : Spot) (front : List ℕ)
            → At rows spot front self.old → HasNoFeed bytes.now
            → OnOk result (Goes rows spot front bytes.now self.new) }
        ensures bytes { take (length self.old.bytes.items) self.new.bytes.items
            ≡ self.old.bytes.items }
        ensures ends { take (length self.old.ends.items) self.new.ends.items ≡ self.old.ends.items }
    {
        if bytes.len() == 0 {
            return Ok(());
        }
        if self.begins_name(bytes) {
            self.name()?;
            return self.grow(bytes);
        }
        self.grow(bytes)
    }

    /// The fault of the open line, which is whole.
    fn judge(&self) -> Result<(), ReadsError>
        ensures fine { (rows : List (List ℕ)) (spot : Spot) (line : List ℕ)
            → Keeps rows spot line self.now
            → OnOk result (fault_of spot.number spot.stage spot.read line ≡ None) }
        ensures fault { (rows : List (List ℕ)) (spot : Spot) (line : List ℕ)
            → Keeps rows spot line self.now
            → IfErr result (λ e. fault_of spot.number spot.stage spot.read line ≡ Some e) }
    {
        let place = self.place;
        match place.stage {
            LineKind::Header if place.length > 0 && place.first != b'@' => {
                Err(ReadsError::BadHeader(place.number))
            }
            LineKind::FirstHeader if place.length > 0 && place.first != b'>' => {
                Err(ReadsError::BadHeader(place.number))
            }
            LineKind::Plus if place.length == 0 || place.first != b'+' => {
                Err(ReadsError::BadPlus(place.number))
            }
            LineKind::Quality if place.length != self.bytes.len().saturating_sub(place.start) => {
                Err(ReadsError::QualityLength(place.number))
            }
            _ => Ok(()),
        }
    }

    /// The line after the open one begins.
    fn next_line(&mut self)
        ensures at { (rows : List (List ℕ)) (spot : Spot) (line : List ℕ)
            → Keeps rows spot line self.old → (spot.stage ≡ LineKind.Quality → spot.read ≡ [])
            → begun_by spot.stage spot.read line ≡ [] → At rows (past spot line) [] self.new }
        ensures bytes { self.new.bytes.items ≡ self.old.bytes.items }
        ensures ends { self.new.ends.items ≡ self.old.ends.items }
    {
        let stage = match self.place.stage {
            LineKind::Header if self.place.length == 0 => LineKind::Header,
            LineKind::Header => LineKind::Sequence,
            LineKind::Sequence => LineKind::Plus,
            LineKind::Plus => LineKind::Quality,
            LineKind::Quality => LineKind::Header,
            LineKind::FirstHeader if self.place.length == 0 => LineKind::FirstHeader,
            LineKind::FirstHeader | LineKind::Body | LineKind::Name | LineKind::Rest =>
                LineKind::Body,
        };
        self.place.stage = stage;
        self.place.number = self.place.number.saturating_add(1);
        self.place.length = 0;
        self.place.held = false;
    }

    /// The open line is whole.
    pub(super) fn end_line(&mut self) -> Result<(), ReadsError>
        ensures fine { (rows : List (List ℕ)) (spot : Spot) (front : List ℕ)
            → At rows spot front self.old
            → OnOk result (fault_of spot.number spot.stage spot.read (strip_last 13 front) ≡ None) }
        ensures at { (rows : List (List ℕ)) (spot : Spot) (front : List ℕ)
            → At rows spot front self.old
            → OnOk result
            (At (rows ++ given_by spot.stage spot.read (strip_last 13 front))
            (past spot (strip_last 13 front)) [] self.new) }
        ensures fault { (rows : List (List ℕ)) (spot : Spot) (front : List ℕ)
            → At rows spot front self.old
            → IfErr result
            (λ e. e ≢ ReadsError.Memory
            → fault_of spot.number spot.stage spot.read (strip_last 13 front) ≡ Some e) }
        ensures bytes { self.new.bytes.items ≡ self.old.bytes.items }
        ensures ends { take (length self.old.ends.items) self.new.ends.items ≡ self.old.ends.items }
    {
        self.judge()?;
        match self.place.stage {
            LineKind::Quality => self.close()?,
            _ => {}
        }
        self.next_line();
        Ok(())
    }

    /// The last part of the open line.
    #[inline(never)]
    fn last_part(&mut self, bytes: &[u8]) -> Result<(), ReadsError>
        ensures goes { (rows : List (List ℕ)) (spot : Spot) (front : List ℕ)
            → At rows spot front self.old → HasNoFeed bytes.now
            → OnOk result (Goes rows spot front (bytes.now ++ line_feed ∷ []) self.new) }
        ensures fault { (rows : List (List ℕ)) (spot : Spot) (front : List ℕ)
            → At rows spot front self.old → HasNoFeed bytes.now
            → IfErr result
            (λ e. e ≢ ReadsError.Memory → HasFault spot front (bytes.now ++ line_feed ∷ []) e) }
        ensures bytes { take (length self.old.bytes.items) self.new.bytes.items
            ≡ self.old.bytes.items }
        ensures ends { take (length self.old.ends.items) self.new.ends.items ≡ self.old.ends.items }
    {
        self.extend(bytes)?;
        self.end_line()
    }

    /// The open line up to its line feed.
    #[inline(always)]
    pub(super) fn line(&mut self, line: &[u8]) -> Result<(), ReadsError>
        ensures goes { (rows : List (List ℕ)) (spot : Spot) (front : List ℕ)
            → At rows spot front self.old → HasNoFeed line.now
            → OnOk result (Goes rows spot front (line.now ++ line_feed ∷ []) self.new) }
        ensures fault { (rows : List (List ℕ)) (spot : Spot) (front : List ℕ)
            → At rows spot front self.old → HasNoFeed line.now
            → IfErr result
            (λ e. e ≢ ReadsError.Memory → HasFault spot front (line.now ++ line_feed ∷ []) e) }
        ensures bytes { take (length self.old.bytes.items) self.new.bytes.items
            ≡ self.old.bytes.items }
        ensures ends { take (length self.old.ends.items) self.new.ends.items ≡ self.old.ends.items }
    {
        if !self.is_between() {
            return self.last_part(line);
        }
        let (content, _) = cut_return(line);
        match self.place.stage {
            LineKind::Header => self.header(content),
            LineKind::Sequence => self.sequence(content),
            LineKind::Plus => self.plus(content),
            LineKind::Quality => self.quality(content),
            _ => self.last_part(line),
        }
    }
}
