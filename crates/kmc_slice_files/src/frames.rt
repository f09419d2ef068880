//! All frames of a file, to its end.
ghost use Rattle.std.specs.Prelude.{◌≡◌, ◌<◌, ◌≤◌, [], length, map, OnOk, OnErr, IfOk, IfErr};
ghost use Rattle.kmc_slice_files.specs.Files.{IsSlicing};
ghost use Rattle.kmc_slice_files.specs.Reads.{GaveSome, held_bytes};
ghost use Rattle.kmc_device.specs.Device.{GaveAll};
ghost use Rattle.kmc_slice_files.specs.Whole.{TookAll, GaveFrames, IsEndFault, IsFileFault, FileTells};

use crate::frame::HEAD;
use crate::header::{HEADER, Slicing};
use crate::read::{BLOCK, FrameFault, read_frame};
use kmc_device::{Counted, ReadFault, fill_behind};
use std::io::Read;

/// How many frames stand before a frame, and the byte of the file at which it begins, as far as a `u64` tells.
#[derive(Clone, Copy, Debug, PartialEq, Eq)]
pub struct Place {
    pub frames: u64,
    pub byte: u64,
}

/// What is at fault behind the header.
#[derive(Clone, Copy, Debug, PartialEq, Eq)]
pub enum FramesFault {
    /// The next frame, or the end.
    Next(FrameFault),
    /// Bytes stand behind the end.
    Behind,
    /// There are 2^64 - 1 frames and no end.
    TooMany,
}

impl FramesFault {
    ghost use Rattle.kmc_slice_files.specs.RefusalNumbers.{number_of_frames_fault};

    /// The number of the refusal, as docs/REFUSALS.md lists it.
    pub fn number(&self) -> u8
        ensures { result ≡ number_of_frames_fault self.now }
    {
        match self {
            FramesFault::Next(_) => 1,
            FramesFault::Behind => 2,
            FramesFault::TooMany => 3,
        }
    }
}

/// Where the first fault is behind the header, and which.
#[derive(Clone, Copy, Debug, PartialEq, Eq)]
pub struct FileFault {
    pub place: Place,
    pub why: FramesFault,
}

/// Reads frames and the end, and says where that stands.
fn take_frames<R: Read>(
    reader: &mut Counted<R>,
    bodies: &mut [Vec<u8>],
    slices: usize,
    slice: usize,
) -> Result<Place, FileFault>
    requires some { 1 ≤ slices }
    requires few { length bodies.old < 65536 }
    ensures ok { IfOk result (λ place.
        TookAll (length bodies.old) slices slice (R.remaining reader.old.inner)
        (R.remaining reader.new.inner) (map (λ v. v.items) bodies.old)
        (map (λ v. v.items) bodies.new) place) }
    ensures kept { OnOk result (reader.new.failures ≡ reader.old.failures) }
    ensures fault { IfErr result
        (IsFileFault (length bodies.old) slices slice (R.remaining reader.old.inner)
        (R.remaining reader.new.inner) (map (λ v. v.items) bodies.old)) }
    ensures device { IfErr result (λ e. FileTells reader.old.failures reader.new.failures e.why) }
    ensures held { OnErr result
        (GaveSome (held_bytes (map (λ v. v.items) bodies.old))
        (held_bytes (map (λ v. v.items) bodies.new)) BLOCK (R.remaining reader.old.inner)
        (R.remaining reader.new.inner)) }
{
    let mut byte = HEADER as u64;
    for frames in 0..u64::MAX {
        match read_frame(reader, bodies, slices, slice, frames) {
            Ok(Some(long)) => byte = byte.saturating_add(HEAD as u64 + u64::from(long)),
            Ok(None) => return Ok(Place { frames, byte }),
            Err(fault) => {
                return Err(FileFault {
                    place: Place { frames, byte },
                    why: FramesFault::Next(fault),
                });
            }
        }
    }
    Err(FileFault {
        place: Place {
            frames: u64::MAX,
            byte,
        },
        why: FramesFault::TooMany,
    })
}

/// Sees that nothing stands behind the end.
fn end_of<R: Read>(reader: &mut Counted<R>) -> Result<(), FramesFault>
    ensures ok { OnOk result (GaveAll (R.remaining reader.old.inner) (R.remaining reader.new.inner) []) }
    ensures kept { OnOk result (reader.new.failures ≡ reader.old.failures) }
    ensures fault { IfErr result
        (IsEndFault (R.remaining reader.old.inner) (R.remaining reader.new.inner)) }
    ensures device { IfErr result (FileTells reader.old.failures reader.new.failures) }
{
    let mut more = [0; 1];
    match fill_behind(reader, &mut more, 0) {
        Ok(0) => Ok(()),
        Ok(_) => Err(FramesFault::Behind),
        Err(ReadFault) => Err(FramesFault::Next(FrameFault::Read)),
    }
}

/// Reads the frames of a file behind its header, to the end, behind which nothing may stand. Their bodies go behind what
/// their bins have. After a fault the bodies may have more than they had, and are of no use.
pub fn read_frames<R: Read>(
    reader: &mut Counted<R>,
    bodies: &mut [Vec<u8>],
    slicing: &Slicing,
) -> Result<(), FileFault>
    requires slicing { IsSlicing slicing.now.shape slicing.now.slices slicing.now.slice }
    requires bins { length bodies.old ≡ slicing.now.shape.n }
    ensures ok { OnOk result
        (GaveFrames (length bodies.old) slicing.now.slices slicing.now.slice
        (R.remaining reader.old.inner) (R.remaining reader.new.inner)
        (map (λ v. v.items) bodies.old) (map (λ v. v.items) bodies.new)) }
    ensures kept { OnOk result (reader.new.failures ≡ reader.old.failures) }
    ensures fault { IfErr result
        (IsFileFault (length bodies.old) slicing.now.slices slicing.now.slice
        (R.remaining reader.old.inner) (R.remaining reader.new.inner)
        (map (λ v. v.items) bodies.old)) }
    ensures device { IfErr result (λ e. FileTells reader.old.failures reader.new.failures e.why) }
    ensures held { OnErr result
        (GaveSome (held_bytes (map (λ v. v.items) bodies.old))
        (held_bytes (map (λ v. v.items) bodies.new)) BLOCK (R.remaining reader.old.inner)
        (R.remaining reader.new.inner)) }
{
    let place = take_frames(
        reader,
        bodies,
        usize::from(slicing.slices),
        usize::from(slicing.slice),
    )?;
    match end_of(reader) {
        Ok(()) => Ok(()),
        Err(why) => Err(FileFault { place, why }),
    }
}
