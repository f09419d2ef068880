//! The parts of a chunk.
ghost use Rattle.std.specs.Prelude.{◌≡◌, ℕ, ◌+◌, ◌-◌, ◌≤◌, ◌<◌, nat_le, [], ◌∷◌, map, length, OnOk, IfOk};
ghost use Rattle.std.specs.List.{All, filter, range_with_len};
ghost use Rattle.kmc_base.specs.Stretches.{segments_of};
ghost use Rattle.kmc_split.specs.Cut.{IsRunOf};
ghost use Rattle.kmc_base.specs.Record.{codes_in};
ghost use Rattle.kmc_record.specs.Parts.{empty_part, bin_runs, ArePartsOf};
ghost use Rattle.kmc_record.specs.GrowingParts.{AreForBins, HaveGrown, HaveTaken};

use crate::part::Part;
use crate::shape::Shape;
use kmc_base::{leading_codes, pack_codes};
use kmc_split::{Run, Scratch, cut};
use std::alloc::{AllocError, Global};

/// The empty part of each bin.
fn empty_parts(alloc: Global, number: u64, shape: Shape) -> Result<Vec<Part>, AllocError>
    ensures { IfOk result (λ parts. parts.items
        ≡ map (empty_part number shape) (range_with_len 0 shape.n)) }
{
    let mut parts = Vec::new(alloc);
    for bin in 0..shape.n() {
        parts.push(Part::empty(alloc, number, bin, shape))?;
    }
    Ok(parts)
}

/// Appends the record of a run of packed codes to the part of its bin.
fn push_run(packed: &[u8], run: Run, shape: Shape, parts: &mut Vec<Part>) -> Result<(), AllocError>
    requires bins { AreForBins shape parts.old.items }
    requires run { IsRunOf shape.k shape.m (codes_in packed.now) run }
    ensures { OnOk result (HaveGrown shape.k
        (λ j. bin_runs shape.k shape.n j (codes_in packed.now) (run ∷ []))
        parts.old.items parts.new.items) }
{
    let more = shape.k() - 1;
    let bin = run.signature.bin(shape.n());
    let part = &mut parts[bin];
    part.push(packed, run.start, run.words + more, run.words)?;
    Ok(())
}

/// Appends the records of the runs of a segment's packed codes to the parts of their bins.
fn push_runs(
    packed: &[u8],
    runs: &[Run],
    shape: Shape,
    parts: &mut Vec<Part>,
) -> Result<(), AllocError>
    requires bins { AreForBins shape parts.old.items }
    requires runs { All (IsRunOf shape.k shape.m (codes_in packed.now)) runs.now }
    ensures { OnOk result (HaveGrown shape.k
        (λ j. bin_runs shape.k shape.n j (codes_in packed.now) runs.now)
        parts.old.items parts.new.items) }
{
    for run in runs {
        push_run(packed, *run, shape, parts)?;
    }
    Ok(())
}

/// Cuts a stretch of bases that has at least k, packs its codes once, and appends the records of its runs, which are copied out
/// of them, to the parts of their bins. What it works in is to be used again.
fn push_stretch(
    codes: &[u8],
    shape: Shape,
    packed: &mut Vec<u8>,
    scratch: &mut Scratch,
    runs: &mut Vec<Run>,
    parts: &mut Vec<Part>,
) -> Result<(), AllocError>
    requires bins { AreForBins shape parts.old.items }
    requires codes { All (λ c. c < 4) codes.now }
    ensures some { 1 ≤ shape.k }
    ensures taken { OnOk result ((start : ℕ)
        → HaveTaken shape
        (filter (λ s. nat_le shape.k (length s.codes))
        (record { start = start; codes = codes.now } ∷ [])) parts.old.items parts.new.items) }
{
    let k = shape.k();
    if codes.len() < k {
        return Ok(());
    }
    cut(codes, k, shape.m(), scratch, runs)?;
    pack_codes(codes, packed)?;
    push_runs(packed.as_slice(), runs.as_slice(), shape, parts)?;
    Ok(())
}

/// Appends the records of the runs of a read to the parts of their bins. The codes of one stretch of bases after the other
/// take the place of what `codes` had; that, their packed form and what a cut works in are to be used again.
fn push_read(
    read: &[u8],
    shape: Shape,
    codes: &mut Vec<u8>,
    packed: &mut Vec<u8>,
    scratch: &mut Scratch,
    runs: &mut Vec<Run>,
    parts: &mut Vec<Part>,
) -> Result<(), AllocError>
    requires { AreForBins shape parts.old.items }
    ensures { OnOk result (HaveTaken shape
        (segments_of shape.k read.now) parts.old.items parts.new.items) }
{
    let mut place = 0;
    while place < read.len() {
        leading_codes(&read[place..], codes)?;
        push_stretch(codes.as_slice(), shape, packed, scratch, runs, parts)?;
        // The byte behind a stretch is no base.
        place += codes.len() + 1;
    }
    Ok(())
}

/// The parts of some reads that are the chunk of this number: one for each bin that is not empty, bins rising, with the
/// records of the reads' runs of that bin in the order of reads and places.
pub fn parts_of_reads(
    alloc: Global,
    number: u64,
    reads: &[&[u8]],
    shape: Shape,
) -> Result<Vec<Part>, AllocError>
    ensures { IfOk result (λ parts. ArePartsOf number
        (map (λ r. r.now) reads.now) shape parts.items) }
{
    let mut parts = empty_parts(alloc, number, shape)?;
    let mut codes = Vec::new(alloc);
    let mut packed = Vec::new(alloc);
    let mut scratch = Scratch::new(alloc);
    let mut runs = Vec::new(alloc);
    for read in reads {
        push_read(
            read,
            shape,
            &mut codes,
            &mut packed,
            &mut scratch,
            &mut runs,
            &mut parts,
        )?;
    }
    parts.retain(|part| part.has_records());
    Ok(parts)
}
