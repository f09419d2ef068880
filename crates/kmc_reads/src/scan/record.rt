//! The lines of a FASTQ record that come whole: each is judged where it lies, and of it nothing but symbols is kept.
ghost use Rattle.std.specs.Prelude.{false, ◌≡◌, ◌≢◌, ℕ, List, [], length, take, IfErr, OnOk, Some};
ghost use Rattle.kmc_reads.specs.declared.line_kind.LineKind.TheVariants.{Header, Sequence, Plus, Quality};
ghost use Rattle.kmc_reads.specs.Lines.{line_past};
ghost use Rattle.kmc_reads.specs.Stages.{Spot, fault_of};
ghost use Rattle.kmc_reads.specs.Standing.{Keeps, At};
ghost use Rattle.kmc_reads.specs.Records.{TookLine};

use crate::error::ReadsError;
use crate::line::first_of;
use crate::line_kind::LineKind;
use crate::scan::Scan;

impl Scan {
    /// The next line begins. Nothing was noted of the last one.
    #[inline(always)]
    fn step(&mut self, stage: LineKind)
        ensures at { (rows : List (List ℕ)) (spot : Spot) → Keeps rows spot [] self.old
            → self.old.place.held ≡ false
            → At rows
            (record { number = line_past spot.number 1; stage = stage; read = spot.read }) [] self.new }
        ensures bytes { self.new.bytes.items ≡ self.old.bytes.items }
        ensures ends { self.new.ends.items ≡ self.old.ends.items }
    {
        self.place.stage = stage;
        self.place.number = self.place.number.saturating_add(1);
    }

    /// A whole header, or a blank line before it.
    #[inline(always)]
    pub(super) fn header(&mut self, content: &[u8]) -> Result<(), ReadsError>
        requires { self.old.place.stage ≡ Header }
        ensures took { (rows : List (List ℕ)) (spot : Spot) → At rows spot [] self.old
            → OnOk result (TookLine rows spot content.now self.new) }
        ensures fault { (rows : List (List ℕ)) (spot : Spot) → At rows spot [] self.old
            → IfErr result (λ e. fault_of spot.number spot.stage spot.read content.now ≡ Some e) }
        ensures bytes { self.new.bytes.items ≡ self.old.bytes.items }
        ensures ends { self.new.ends.items ≡ self.old.ends.items }
    {
        if content.is_empty() {
            self.step(LineKind::Header);
            return Ok(());
        }
        if first_of(content) != b'@' {
            return Err(ReadsError::BadHeader(self.place.number));
        }
        self.step(LineKind::Sequence);
        Ok(())
    }

    /// A whole sequence line.
    #[inline(always)]
    pub(super) fn sequence(&mut self, content: &[u8]) -> Result<(), ReadsError>
        requires { self.old.place.stage ≡ Sequence }
        ensures took { (rows : List (List ℕ)) (spot : Spot) → At rows spot [] self.old
            → OnOk result (TookLine rows spot content.now self.new) }
        ensures fault { IfErr result (λ e. e ≡ ReadsError.Memory) }
        ensures bytes { take (length self.old.bytes.items) self.new.bytes.items
            ≡ self.old.bytes.items }
        ensures ends { self.new.ends.items ≡ self.old.ends.items }
    {
        self.bytes.extend_from_slice(content)?;
        self.step(LineKind::Plus);
        Ok(())
    }

    /// A whole plus line.
    #[inline(always)]
    pub(super) fn plus(&mut self, content: &[u8]) -> Result<(), ReadsError>
        requires { self.old.place.stage ≡ Plus }
        ensures took { (rows : List (List ℕ)) (spot : Spot) → At rows spot [] self.old
            → OnOk result (TookLine rows spot content.now self.new) }
        ensures fault { (rows : List (List ℕ)) (spot : Spot) → At rows spot [] self.old
            → IfErr result (λ e. fault_of spot.number spot.stage spot.read content.now ≡ Some e) }
        ensures bytes { self.new.bytes.items ≡ self.old.bytes.items }
        ensures ends { self.new.ends.items ≡ self.old.ends.items }
    {
        if first_of(content) != b'+' {
            return Err(ReadsError::BadPlus(self.place.number));
        }
        self.step(LineKind::Quality);
        Ok(())
    }

    /// A whole quality line, which ends the open read.
    #[inline(always)]
    pub(super) fn quality(&mut self, content: &[u8]) -> Result<(), ReadsError>
        requires { self.old.place.stage ≡ Quality }
        ensures took { (rows : List (List ℕ)) (spot : Spot) → At rows spot [] self.old
            → OnOk result (TookLine rows spot content.now self.new) }
        ensures fault { (rows : List (List ℕ)) (spot : Spot) → At rows spot [] self.old
            → IfErr result
            (λ e. e ≢ ReadsError.Memory
            → fault_of spot.number spot.stage spot.read content.now ≡ Some e) }
        ensures bytes { self.new.bytes.items ≡ self.old.bytes.items }
        ensures ends { take (length self.old.ends.items) self.new.ends.items ≡ self.old.ends.items }
    {
        if content.len() != self.bytes.len().saturating_sub(self.place.start) {
            return Err(ReadsError::QualityLength(self.place.number));
        }
        self.close()?;
        self.step(LineKind::Header);
        Ok(())
    }
}
