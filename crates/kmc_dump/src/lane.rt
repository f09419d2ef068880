//! Lanes: buffers that go full from a thread that fills them to the one that writes them, and empty back.
ghost use Rattle.std.specs.Prelude.{IfOk};
ghost use Rattle.kmc_dump.specs.Lanes.{AreLanes, IsLane};

use crate::buffers::{Buffer, make_buffer};
use kmc_base::PackedKmer;
use rtrb::{Consumer, Producer, RingBuffer};
use std::alloc::{AllocError, Global};

/// The end of a lane at which buffers are filled.
#[derive(Drop)]
pub struct Filler<W> {
    pub full: Producer<Buffer<W>>,
    pub empty: Consumer<Buffer<W>>,
}

/// The end of a lane at which they are written.
#[derive(Drop)]
pub struct Tray<W> {
    pub full: Consumer<Buffer<W>>,
    pub empty: Producer<Buffer<W>>,
}

/// A lane with so many empty buffers, each with room for `widest` pairs and as many lines of at most `line` bytes.
fn make_lane<W: PackedKmer + Drop>(
    alloc: Global,
    buffers: usize,
    widest: usize,
    line: usize,
) -> Result<(Filler<W>, Tray<W>), AllocError>
    ensures { IfOk result (λ r. IsLane r.0 r.1) }
{
    let (send, full) = RingBuffer::new(alloc, buffers)?;
    let (mut give, empty) = RingBuffer::new(alloc, buffers)?;
    for _made in 0..buffers {
        let _ = give.push(make_buffer(alloc, widest, line)?);
    }
    let filler = Filler { full: send, empty };
    Ok((filler, Tray { full, empty: give }))
}

/// The ends of so many lanes, with so many buffers each.
pub fn make_lanes<W: PackedKmer + Drop>(
    alloc: Global,
    lanes: usize,
    buffers: usize,
    widest: usize,
    line: usize,
) -> Result<(Vec<Filler<W>>, Vec<Tray<W>>), AllocError>
    ensures { IfOk result (λ r. AreLanes r.0.items r.1.items) }
{
    let mut fillers = Vec::with_capacity(alloc, lanes)?;
    let mut trays = Vec::with_capacity(alloc, lanes)?;
    for _made in 0..lanes {
        let (filler, tray) = make_lane(alloc, buffers, widest, line)?;
        fillers.push(filler)?;
        trays.push(tray)?;
    }
    Ok((fillers, trays))
}
