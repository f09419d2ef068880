//! Writers in memory, one for each slice.
ghost use Rattle.std.specs.Prelude.{◌≡◌, ℕ, length, map, slice_index, IfOk};

use kmc_device::Counted;
use std::alloc::{AllocError, Global};
use test_support::{Full, NarrowWriter};

/// The one writer that has less room than all others, or does not flush.
#[derive(Clone, Copy)]
pub(crate) struct Weak {
    pub writer: usize,
    /// The bytes that it takes in all.
    pub room: usize,
    pub flushes: bool,
    /// The bytes for which all writers have memory before they take any.
    pub ready: usize,
}

/// No writer fails.
pub(crate) const SOUND: Weak = Weak {
    writer: 0,
    room: 1 << 30,
    flushes: true,
    ready: 0,
};

/// The device of slice s.
fn device(alloc: Global, s: usize, weak: &Weak) -> Result<NarrowWriter, AllocError> {
    let out = Vec::with_capacity(alloc, weak.ready)?;
    let (room, flushes) = if s == weak.writer {
        (weak.room, weak.flushes)
    } else {
        (1 << 30, true)
    };
    Ok(NarrowWriter::new(out, 1000, room, Full::Fails, flushes))
}

/// So many writers that have taken nothing.
pub(crate) fn writers_of(
    alloc: Global,
    slices: usize,
    weak: &Weak,
) -> Result<Vec<Counted<NarrowWriter>>, AllocError>
    ensures { IfOk result (λ writers. (length writers.items ≡ slices)
        × ((s : ℕ) → slice_index (map (λ w. w.failures) writers.items) s ≡ 0)) }
{
    let mut writers = Vec::new(alloc);
    for s in 0..slices {
        writers.push(Counted::new(device(alloc, s, weak)?))?;
    }
    Ok(writers)
}

/// What each writer took.
pub(crate) fn files_of(
    alloc: Global,
    writers: Vec<Counted<NarrowWriter>>,
) -> Result<Vec<Vec<u8>>, AllocError> {
    let mut files = Vec::new(alloc);
    for writer in writers {
        files.push(writer.into_inner().into_bytes())?;
    }
    Ok(files)
}
