//! The files of all slices: begun, ended, or written whole.
ghost use Rattle.std.specs.Prelude.{◌≡◌, ℕ, ◌^◌, ◌<◌, ◌≤◌, length, map, OnOk, OnErr, IfErr, slice_index};
ghost use Rattle.std.specs.Io.KnownBytes.{Appends};
ghost use Rattle.kmc_device.specs.Device.{AppendsFront, RisesByOne, HasFailed};
ghost use Rattle.kmc_slice_files.specs.Files.{header_bytes};
ghost use Rattle.kmc_slice_files.specs.Frames.{end_bytes};
ghost use Rattle.kmc_slice_files.specs.Writes.{EachGot, EachBegan, AreFiles};

use crate::frame::write_end;
use crate::header::{Slicing, write_header};
use crate::round::write_round;
use kmc_device::{Counted, WriteFault};
use kmc_record::Shape;
use std::io::Write;

/// Writes to each writer the header of the file of its slice, and sets its number of frames to 0. It fails by the number of
/// the first writer that fails.
pub fn begin_files<W: Write>(
    writers: &mut [Counted<W>],
    counts: &mut [u64],
    shape: Shape,
) -> Result<(), usize>
    requires few { length writers.old < 2 ^ 16 }
    requires counts { length counts.old ≡ length writers.old }
    ensures ok { OnOk result
        (EachGot (header_bytes shape (length writers.old)) (length writers.old)
        (map (λ w. W.contents w.inner) writers.old) (map (λ w. W.contents w.inner) writers.new)) }
    ensures none { OnOk result ((s : ℕ) → s < length writers.old → slice_index counts.new s ≡ 0) }
    ensures kept { OnOk result
        (map (λ w. w.failures) writers.new ≡ map (λ w. w.failures) writers.old) }
    ensures failed { IfErr result (λ s. HasFailed s (map (λ w. w.failures) writers.old)
        (map (λ w. w.failures) writers.new)) }
    ensures begun { OnErr result
        (EachBegan (header_bytes shape (length writers.old)) (length writers.old)
        (map (λ w. W.contents w.inner) writers.old) (map (λ w. W.contents w.inner) writers.new)) }
{
    let slices = writers.len() as u16;
    for s in 0..writers.len() {
        let slicing = Slicing {
            shape,
            slices,
            slice: s as u16,
        };
        counts[s] = 0;
        match write_header(&mut writers[s], &slicing) {
            Ok(()) => {}
            Err(_) => return Err(s),
        }
    }
    Ok(())
}

/// Writes what stands behind the last of so many frames, and lets the device write out what it holds.
fn end_file<W: Write>(writer: &mut Counted<W>, frames: u64) -> Result<(), WriteFault>
    ensures ok { OnOk result (Appends (W.contents writer.old.inner)
        (W.contents writer.new.inner) (end_bytes frames)) }
    ensures kept { OnOk result (writer.new.failures ≡ writer.old.failures) }
    ensures failed { OnErr result (RisesByOne writer.old.failures writer.new.failures) }
    ensures front { OnErr result (AppendsFront (W.contents writer.old.inner)
        (W.contents writer.new.inner) (end_bytes frames)) }
{
    write_end(writer, frames)?;
    match writer.flush() {
        Ok(()) => Ok(()),
        Err(_) => Err(WriteFault),
    }
}

/// Writes to each writer what stands behind the last of its frames, of which there are so many, and lets the device write
/// out what it holds. It fails by the number of the first writer that fails.
pub fn end_files<W: Write>(writers: &mut [Counted<W>], counts: &[u64]) -> Result<(), usize>
    requires counts { length counts.now ≡ length writers.old }
    ensures ok { OnOk result
        (EachGot (λ s. end_bytes (slice_index counts.now s)) (length writers.old)
        (map (λ w. W.contents w.inner) writers.old) (map (λ w. W.contents w.inner) writers.new)) }
    ensures kept { OnOk result
        (map (λ w. w.failures) writers.new ≡ map (λ w. w.failures) writers.old) }
    ensures failed { IfErr result (λ s. HasFailed s (map (λ w. w.failures) writers.old)
        (map (λ w. w.failures) writers.new)) }
    ensures begun { OnErr result
        (EachBegan (λ s. end_bytes (slice_index counts.now s)) (length writers.old)
        (map (λ w. W.contents w.inner) writers.old) (map (λ w. W.contents w.inner) writers.new)) }
{
    for s in 0..writers.len() {
        match end_file(&mut writers[s], counts[s]) {
            Ok(()) => {}
            Err(_) => return Err(s),
        }
    }
    Ok(())
}

/// Writes the files of all slices of bins with these bodies, and counts their frames. It fails by the number of the first
/// writer that fails.
pub fn write_files<W: Write>(
    writers: &mut [Counted<W>],
    counts: &mut [u64],
    shape: Shape,
    bodies: &[Vec<u8>],
) -> Result<(), usize>
    requires some { 1 ≤ length writers.old }
    requires few { length writers.old < 2 ^ 16 }
    requires counts { length counts.old ≡ length writers.old }
    requires bins { length bodies.now ≡ shape.n }
    ensures ok { OnOk result
        (AreFiles shape (length writers.old) (map (λ b. b.items) bodies.now)
        (map (λ w. W.contents w.inner) writers.old) (map (λ w. W.contents w.inner) writers.new)) }
    ensures kept { OnOk result
        (map (λ w. w.failures) writers.new ≡ map (λ w. w.failures) writers.old) }
    ensures failed { IfErr result (λ s. HasFailed s (map (λ w. w.failures) writers.old)
        (map (λ w. w.failures) writers.new)) }
{
    let bins = shape.n();
    prove!(bins == bodies.len());
    begin_files(writers, counts, shape)?;
    write_round(writers, counts, bodies)?;
    end_files(writers, counts)
}
