//! Room for a range, had before the first byte of a dump goes out.
ghost use Rattle.std.specs.Prelude.{◌≡◌, IfOk, IsTrue};
ghost use Rattle.kmc_dump.specs.Rooms.{HasRoomForRange};

use kmc_base::PackedKmer;
use std::alloc::{AllocError, Global};

/// Room for the pairs of one range, also as keys, and for its text, whose first `filled` bytes are those of the range `range`. The thread
/// that fills it first puts zeros there. A pair has its count in 64 bits however narrow the lists keep it: beside a word it takes no
/// more memory so, and pairs are sorted by one function for all widths of counts.
#[derive(Drop)]
pub struct Buffer<W> {
    pub pairs: Vec<(W, u64)>,
    pub keys: Vec<u64>,
    pub text: Vec<u8>,
    pub filled: usize,
    pub range: usize,
}

/// An empty buffer with room for `widest` pairs, and for as many lines of at most `line` bytes.
pub fn make_buffer<W: PackedKmer + Drop>(
    alloc: Global,
    widest: usize,
    line: usize,
) -> Result<Buffer<W>, AllocError>
    ensures { IfOk result (HasRoomForRange widest line) }
{
    let Some(bytes) = widest.checked_mul(line) else {
        return Err(AllocError);
    };
    Ok(Buffer {
        pairs: Vec::with_capacity(alloc, widest)?,
        keys: Vec::with_capacity(alloc, widest)?,
        text: Vec::with_capacity(alloc, bytes)?,
        filled: 0,
        range: 0,
    })
}

/// Whether a buffer has room for `widest` pairs, and for as many lines of at most `line` bytes.
pub fn has_room<W: PackedKmer + Drop>(buffer: &Buffer<W>, widest: usize, line: usize) -> bool
    ensures { IsTrue result → HasRoomForRange widest line buffer.now }
{
    match widest.checked_mul(line) {
        Some(bytes) => buffer.pairs.capacity() >= widest && buffer.text.capacity() >= bytes,
        None => false,
    }
}
