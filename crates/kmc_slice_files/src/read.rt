//! One frame that is read.
ghost use Rattle.std.specs.Prelude.{◌≡◌, ℕ, ◌+◌, ◌<◌, ◌≤◌, ◌++◌, List, length, map, vec_len, OnOk, OnErr, IfOk, IfErr};
ghost use Rattle.std.specs.Io.KnownBytes.{Consumes};
ghost use Rattle.kmc_slice_files.specs.Reads.{IsHeadOf, TookNext, GaveSome, IsSaid, TookHead, IsHeadFault, IsBodyFault, IsFrameFault, TellsOfReader, held_bytes};

use crate::check::frame_check;
use crate::frame::{HEAD, MOST_BODY, NO_BIN};
use kmc_device::{Counted, ReadFault, fill_behind};
use std::io::Read;
use thiserror::Error;

/// Memory for a body is asked for in blocks of so many bytes, as they come.
pub const BLOCK: usize = 65536;

/// Why no frame was read.
#[derive(Clone, Copy, Debug, PartialEq, Eq, Error)]
pub enum FrameFault {
    /// A read failed.
    #[error("it cannot be read")]
    Read,
    /// Memory for its body was refused.
    #[error("out of memory")]
    Memory,
    /// The bytes end before the frame does.
    #[error("the file was cut short")]
    Short,
    /// What stands there is no frame of the slice, and not its end.
    #[error("it is damaged")]
    Damaged,
}

impl FrameFault {
    ghost use Rattle.kmc_slice_files.specs.RefusalNumbers.{number_of_frame_fault};

    /// The number of the refusal, as docs/REFUSALS.md lists it.
    pub fn number(&self) -> u8
        ensures { result ≡ number_of_frame_fault self.now }
    {
        match self {
            FrameFault::Read => 1,
            FrameFault::Memory => 2,
            FrameFault::Short => 3,
            FrameFault::Damaged => 4,
        }
    }
}

impl From<ReadFault> for FrameFault {
    ghost use Rattle.kmc_slice_files.specs.declared.read.FrameFault.TheVariants.{Read};

    ghost from_gives = { λ _ e. e ≡ Read };

    fn from(_: ReadFault) -> FrameFault {
        FrameFault::Read
    }
}

/// What stands before a body.
#[derive(Clone, Copy)]
pub(crate) struct Head {
    pub bin: u16,
    pub spare: u16,
    pub long: u32,
    pub check: u64,
}

/// The head that bytes spell.
fn head_of(bytes: &[u8; HEAD]) -> Head
    ensures { IsHeadOf result bytes.now }
{
    let h = bytes;
    Head {
        bin: u16::from_le_bytes([h[0], h[1]]),
        spare: u16::from_le_bytes([h[2], h[3]]),
        long: u32::from_le_bytes([h[4], h[5], h[6], h[7]]),
        check: u64::from_le_bytes([h[8], h[9], h[10], h[11], h[12], h[13], h[14], h[15]]),
    }
}

/// Reads so many bytes behind those of a vector, a block at a time: where fewer come, the vector has grown by what came and at most
/// one block.
fn read_body<R: Read>(
    reader: &mut Counted<R>,
    out: &mut Vec<u8>,
    long: u32,
) -> Result<(), FrameFault>
    ensures ok { OnOk result ((body : List ℕ) × (length body ≡ long)
        × (out.new.items ≡ out.old.items ++ body)
        × Consumes (R.remaining reader.old.inner) (R.remaining reader.new.inner) body
        × (reader.new.failures ≡ reader.old.failures)) }
    ensures fault { IfErr result
        (IsBodyFault long (R.remaining reader.old.inner) (R.remaining reader.new.inner)) }
    ensures device { IfErr result (TellsOfReader reader.old.failures reader.new.failures) }
    ensures held { OnErr result (GaveSome (vec_len out.old) (vec_len out.new) BLOCK
        (R.remaining reader.old.inner) (R.remaining reader.new.inner)) }
{
    let mut left = long as usize;
    while left > 0 {
        let block = left.min(BLOCK);
        let from = out.len();
        match out.resize(from + block, 0) {
            Ok(()) => {}
            Err(_) => return Err(FrameFault::Memory),
        }
        let end = fill_behind(reader, out.as_mut_slice(), from)?;
        if end < from + block {
            return Err(FrameFault::Short);
        }
        left -= block;
    }
    Ok(())
}

/// What a head begins.
#[derive(Clone, Copy)]
pub(crate) enum Said {
    /// A body of this bin.
    Body(usize),
    /// The end.
    End,
    /// Nothing that stands in the file of this slice.
    Neither,
}

/// Reads a head.
fn read_head<R: Read>(reader: &mut Counted<R>) -> Result<Head, FrameFault>
    ensures ok { IfOk result (λ h. TookHead h (R.remaining reader.old.inner)
        (R.remaining reader.new.inner)) }
    ensures kept { OnOk result (reader.new.failures ≡ reader.old.failures) }
    ensures fault { IfErr result
        (IsHeadFault (R.remaining reader.old.inner) (R.remaining reader.new.inner)) }
    ensures device { IfErr result (TellsOfReader reader.old.failures reader.new.failures) }
{
    let mut bytes = [0; HEAD];
    let end = fill_behind(reader, &mut bytes, 0)?;
    if end < HEAD {
        return Err(FrameFault::Short);
    }
    Ok(head_of(&bytes))
}

/// What a head says in the file of slice `slice` of `slices`, of `n` bins, behind so many frames.
fn judge_head(head: &Head, n: usize, slices: usize, slice: usize, frames: u64) -> Said
    requires some { 1 ≤ slices }
    requires few { n < 65536 }
    ensures { IsSaid n slices slice frames head.now result }
{
    if head.spare != 0 {
        return Said::Neither;
    }
    if head.bin == NO_BIN {
        return if head.long == 0 && head.check == frames {
            Said::End
        } else {
            Said::Neither
        };
    }
    let bin = usize::from(head.bin);
    let long = head.long as usize;
    if bin < n && bin % slices == slice && 0 < long && long <= MOST_BODY {
        Said::Body(bin)
    } else {
        Said::Neither
    }
}

/// Reads the next frame of the file of slice `slice` of `slices`, of as many bins as there are bodies, behind so many
/// frames. Its body goes behind what its bin has, with no copy, and it says how many bytes that is; `None` is the end. After
/// a fault the bodies may have more than they had, and are of no use.
pub(crate) fn read_frame<R: Read>(
    reader: &mut Counted<R>,
    bodies: &mut [Vec<u8>],
    slices: usize,
    slice: usize,
    frames: u64,
) -> Result<Option<u32>, FrameFault>
    requires some { 1 ≤ slices }
    requires few { length bodies.old < 65536 }
    ensures ok { IfOk result
        (TookNext (length bodies.old) slices slice frames (R.remaining reader.old.inner)
        (R.remaining reader.new.inner) (map (λ v. v.items) bodies.old)
        (map (λ v. v.items) bodies.new)) }
    ensures kept { OnOk result (reader.new.failures ≡ reader.old.failures) }
    ensures fault { IfErr result
        (IsFrameFault (length bodies.old) slices slice frames (R.remaining reader.old.inner)
        (R.remaining reader.new.inner)) }
    ensures device { IfErr result (TellsOfReader reader.old.failures reader.new.failures) }
    ensures held { OnErr result
        (GaveSome (held_bytes (map (λ v. v.items) bodies.old))
        (held_bytes (map (λ v. v.items) bodies.new)) BLOCK (R.remaining reader.old.inner)
        (R.remaining reader.new.inner)) }
{
    let head = read_head(reader)?;
    match judge_head(&head, bodies.len(), slices, slice, frames) {
        Said::End => Ok(None),
        Said::Neither => Err(FrameFault::Damaged),
        Said::Body(bin) => {
            let from = bodies[bin].len();
            read_body(reader, &mut bodies[bin], head.long)?;
            if frame_check(head.bin, &bodies[bin][from..]) == head.check {
                Ok(Some(head.long))
            } else {
                Err(FrameFault::Damaged)
            }
        }
    }
}
