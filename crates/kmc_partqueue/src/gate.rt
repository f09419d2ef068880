//! Points of a call at which a caller may look in.

/// A point that a call passes, with the number of the writer `w`, the number of the part among that writer's, `n`, and the number of the
/// reader `r`.
#[derive(Drop, Clone, Copy)]
pub enum Point {
    /// `(w, n)`: a worker is about to put the part.
    BeforePut(usize, u64),
    /// `(w, n)`: the part was put.
    AfterPut(usize, u64),
    /// `(w, n)`: the slot for the part is in the writer's hand, and still empty.
    SlotHeld(usize, u64),
    /// `(r, w, n)`: the reader has claimed the part, and not yet moved it out of its slot.
    PartClaimed(usize, usize, u64),
    /// `(r)`: the reader has got a part, and not yet used it.
    AfterTake(usize),
}

/// Is told of each point. A gate waits for nobody and returns.
pub trait Gate {
    fn pass(&self, point: Point);
}

/// The gate that does nothing, for callers that look in nowhere.
pub struct NoGate;

impl Gate for NoGate {
    fn pass(&self, _point: Point) {}
}
