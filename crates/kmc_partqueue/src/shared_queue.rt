//! What the workers of a run share.
ghost use Rattle.std.specs.Prelude.{◌≡◌};

use crate::lanes::Lanes;
use std::alloc::Global;
use std::sync::Wait;
use std::sync::atomic::{AtomicU64, Ordering};
use std::time::Duration;

/// The stop word while all workers are to go on, and once they are to stop.
const GOING: u64 = 0;

const STOPPED: u64 = 1;

/// The most microseconds of a sleep.
const SLEEP: u64 = 100;

/// The queue that the parts pass, the source of memory, and the word that tells all workers to stop.
#[derive(Drop)]
pub struct SharedQueue<T> {
    /// The queue.
    pub lanes: Lanes<T>,
    /// How many writers it has.
    pub writers: usize,
    /// The source of the memory for parts and records.
    pub alloc: Global,
    stop: AtomicU64,
    ghost as_many: { writers ≡ lanes.shape.writers },
}

impl<T: Drop> SharedQueue<T> {
    /// The way through a queue of so many writers, on which no worker has been told to stop.
    pub fn new(lanes: Lanes<T>, writers: usize, alloc: Global) -> SharedQueue<T>
        requires { writers ≡ lanes.shape.writers }
        ensures { (result.lanes ≡ lanes) × (result.writers ≡ writers) }
    {
        SharedQueue {
            lanes,
            writers,
            alloc,
            stop: AtomicU64::new(GOING),
        }
    }

    /// Tells all workers to stop, those that sleep too.
    pub fn stop(&self) {
        self.stop.store(STOPPED, Ordering::SeqCst);
        self.stop.wake_all();
    }

    /// Whether the workers were told to stop.
    pub(crate) fn is_stopped(&self) -> bool {
        self.stop.load(Ordering::SeqCst) == STOPPED
    }

    /// Sleeps shortly, or not at all where the workers were told to stop.
    pub(crate) fn sleep<R: Wait>(&self, rt: &R) {
        self.stop
            .park_timeout(rt, GOING as u32, Duration::from_micros(SLEEP));
    }

    /// The queue.
    pub fn into_lanes(self) -> Lanes<T>
        ensures { result ≡ self.lanes }
    {
        let SharedQueue {
            lanes,
            writers: _,
            alloc: _,
            stop: _,
        } = self;
        lanes
    }
}
