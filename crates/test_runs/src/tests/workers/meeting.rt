//! A place where each of two workers waits for the other.
use std::sync::atomic::{AtomicBool, Ordering};
use std::thread;

/// The most turns of a wait where the other is to come.
pub(super) const PATIENT: u32 = 100_000_000;

/// The most turns of a wait where the other cannot come.
pub(super) const HASTY: u32 = 1000;

/// Between two yields a wait turns so often.
const TURNS_APART: u32 = 1000;

/// Each of two workers sets its flag when it first comes, and waits until the flag of the other is set. A wait that is
/// not over after so many turns is noted.
#[derive(Drop)]
pub(super) struct Meeting {
    turns: u32,
    first: AtomicBool,
    second: AtomicBool,
    missed: AtomicBool,
}

/// Whether the flag is set within so many turns.
fn is_seen(flag: &AtomicBool, turns: u32) -> bool {
    for turn in 0..turns {
        if flag.load(Ordering::SeqCst) {
            return true;
        }
        if turn % TURNS_APART == 0 {
            thread::yield_now();
        }
    }
    false
}

impl Meeting {
    /// A place where a wait has at most so many turns.
    pub(super) fn new(turns: u32) -> Meeting {
        Meeting {
            turns,
            first: AtomicBool::new(false),
            second: AtomicBool::new(false),
            missed: AtomicBool::new(false),
        }
    }

    /// One of the two comes, and waits where it has not come before.
    fn come(&self, own: &AtomicBool, other: &AtomicBool) {
        if own.swap(true, Ordering::SeqCst) {
            return;
        }
        if !is_seen(other, self.turns) {
            self.missed.store(true, Ordering::SeqCst);
        }
    }

    /// Worker 0 or worker 1 comes.
    pub(super) fn comes(&self, worker: usize) {
        match worker {
            0 => self.come(&self.first, &self.second),
            1 => self.come(&self.second, &self.first),
            _ => self.missed.store(true, Ordering::SeqCst),
        }
    }

    /// A worker did not see the other.
    pub(super) fn is_missed(&self) -> bool {
        self.missed.load(Ordering::SeqCst)
    }

    /// Both came, and each saw the other.
    pub(super) fn is_held(&self) -> bool {
        let first = self.first.load(Ordering::SeqCst);
        let second = self.second.load(Ordering::SeqCst);
        first && second && !self.is_missed()
    }
}
