//! A gate that counts the points that it is told of.
use kmc_partqueue::{Gate, Point};
use std::process::Abort;
use std::sync::atomic::{AtomicU64, Ordering};

/// How often each kind of point was passed.
#[derive(Drop)]
pub struct Passes {
    before_put: AtomicU64,
    after_put: AtomicU64,
    slot_held: AtomicU64,
    part_claimed: AtomicU64,
    after_take: AtomicU64,
}

impl Passes {
    pub fn new() -> Passes {
        Passes {
            before_put: AtomicU64::new(0),
            after_put: AtomicU64::new(0),
            slot_held: AtomicU64::new(0),
            part_claimed: AtomicU64::new(0),
            after_take: AtomicU64::new(0),
        }
    }

    /// How often the points were passed, in the order of a part's way.
    fn counts(&self) -> [u64; 5] {
        [
            self.before_put.load(Ordering::SeqCst),
            self.after_put.load(Ordering::SeqCst),
            self.slot_held.load(Ordering::SeqCst),
            self.part_claimed.load(Ordering::SeqCst),
            self.after_take.load(Ordering::SeqCst),
        ]
    }

    /// Asserts that each kind of point was passed so often.
    pub fn assert_each(&self, rt: &impl Abort, times: u64) {
        assert_eq!(rt; self.counts(), [times; 5]);
    }
}

impl Gate for Passes {
    fn pass(&self, point: Point) {
        let count = match point {
            Point::BeforePut(_, _) => &self.before_put,
            Point::AfterPut(_, _) => &self.after_put,
            Point::SlotHeld(_, _) => &self.slot_held,
            Point::PartClaimed(_, _, _) => &self.part_claimed,
            Point::AfterTake(_) => &self.after_take,
        };
        count.fetch_add(1, Ordering::SeqCst);
    }
}
