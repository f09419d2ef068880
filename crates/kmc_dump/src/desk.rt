//! What the threads that fill buffers and the one that writes them tell each other. No promise rests on it: a buffer that does not come
//! is filled by the thread that writes.
use std::alloc::{AllocError, Global};
use std::sync::Wait;
use std::sync::atomic::{AtomicU64, Ordering};
use std::thread;
use std::time::Duration;

/// The state of a filler that has not begun, and of a desk that is not open yet.
const WAITING: u64 = 0;

/// The state of a filler that is at work, and of an open desk.
const OPEN: u64 = 1;

/// The state of a filler that fills no more, and of a closed desk.
const CLOSED: u64 = 2;

/// So many times a thread yields before it sleeps.
const YIELDS: u32 = 32;

/// The microseconds of a sleep.
const SLEEP: u64 = 100;

/// After so many waits, some tenths of a second, a thread that has not begun is waited for no longer.
const PATIENCE: u32 = 2000;

/// Whether the thread that writes has begun, or needs no more, and the same of each filler.
#[derive(Drop)]
pub struct Desk {
    writer: AtomicU64,
    fillers: Vec<AtomicU64>,
}

impl Desk {
    /// A desk of so many fillers, none of which has begun.
    pub fn new(alloc: Global, fillers: usize) -> Result<Desk, AllocError> {
        let mut states = Vec::with_capacity(alloc, fillers)?;
        for _made in 0..fillers {
            states.push(AtomicU64::new(WAITING))?;
        }
        Ok(Desk {
            writer: AtomicU64::new(WAITING),
            fillers: states,
        })
    }

    /// The thread that writes begins.
    pub fn open(&self) {
        self.writer.store(OPEN, Ordering::SeqCst);
    }

    /// The thread that writes needs no more buffers.
    pub fn close(&self) {
        self.writer.store(CLOSED, Ordering::SeqCst);
        self.writer.wake_all();
    }

    /// Whether a filler that waited so many times has nothing to wait for.
    pub fn is_closed(&self, waits: u32) -> bool {
        match self.writer.load(Ordering::SeqCst) {
            OPEN => false,
            WAITING => waits >= PATIENCE,
            _ => true,
        }
    }

    /// A filler begins, where it is still waited for.
    pub fn begin(&self, filler: usize) -> bool {
        match self.fillers.get(filler) {
            Some(state) => state
                .compare_exchange(WAITING, OPEN, Ordering::SeqCst, Ordering::SeqCst)
                .is_ok(),
            None => false,
        }
    }

    /// A filler fills no more.
    pub fn leave(&self, filler: usize) {
        if let Some(state) = self.fillers.get(filler) {
            state.store(CLOSED, Ordering::SeqCst);
        }
    }

    /// Whether a filler fills no more. One that has not begun after so many waits never will.
    pub fn has_left(&self, filler: usize, waits: u32) -> bool {
        let Some(state) = self.fillers.get(filler) else {
            return true;
        };
        match state.load(Ordering::SeqCst) {
            OPEN => false,
            WAITING => {
                waits >= PATIENCE
                    && state
                        .compare_exchange(WAITING, CLOSED, Ordering::SeqCst, Ordering::SeqCst)
                        .is_ok()
            }
            _ => true,
        }
    }

    /// Waits shortly: a yield, or after some of them a sleep that [`close`](Desk::close) ends. The answer is how many waits there were.
    pub fn wait<R: Wait>(&self, rt: &R, waits: u32) -> u32 {
        let state = self.writer.load(Ordering::SeqCst);
        if waits < YIELDS {
            thread::yield_now();
        } else if state != CLOSED {
            self.writer.park_timeout(rt, (state % (1 << 32)) as u32, Duration::from_micros(SLEEP));
        }
        waits.saturating_add(1)
    }
}
