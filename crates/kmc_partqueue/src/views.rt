//! What the seats of a queue know. No value of these types is made: they stand in proofs alone.
use kmc_partcore::Received;
use std::collections::LinkedList;

/// What a writer knows: its number, the slots of its lane, what it has put, whether the slot of its next part is in its hand, and whether
/// it has completed.
pub struct Writing<T> {
    pub number: u64,
    pub per_writer: u64,
    pub sent: LinkedList<T>,
    pub held: bool,
    pub done: bool,
}

/// The number of all parts of a lane that was seen at its end.
pub struct Ending {
    pub writer: u64,
    pub total: u64,
}

/// What a reader knows: its number, the lanes and the slots of each, what it got, whether the slot of the last part that it got is in its
/// hand, the lane and the head that it read last, whether that part was seen published, and the totals of the lanes that it saw at their
/// end.
pub struct Reading<T> {
    pub number: u64,
    pub writers: u64,
    pub per_writer: u64,
    pub got: LinkedList<Received<T>>,
    pub held: bool,
    pub lane: u64,
    pub head: u64,
    pub ready: bool,
    pub ends: LinkedList<Ending>,
}

/// A seat mostly has one writer or one reader. Before it is split and after joins it has several, and a spent one has none.
pub struct View<T> {
    pub writers: LinkedList<Writing<T>>,
    pub readers: LinkedList<Reading<T>>,
}
