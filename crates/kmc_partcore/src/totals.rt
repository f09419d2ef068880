//! How many items were accepted of each writer.
ghost use Rattle.std.specs.Prelude.{◌≡◌, ◌≤◌, length, slice_get};

use crate::shape::MAX_WRITERS;
use std::marker::Model;

/// A count for each writer of a queue, held without a growth. A clause sees the list of the counts.
#[derive(Drop)]
pub struct Totals {
    counts: [u64; MAX_WRITERS],
    writers: usize,
}

impl Model for Totals {
    ghost use Rattle.std.specs.Prelude.{ℕ, ◌≡◌, ◌≤◌, List, length, take};

    ghost Value = { List ℕ };

    ghost view = { λ t. take t.writers t.counts };

    ghost invariant = { λ t. (t.writers ≤ 16) × (length t.counts ≡ 16) };
}

impl Totals {
    /// The totals with the count `counts[w]` for each writer `w`.
    pub fn new(counts: &[u64]) -> Totals
        requires { length counts.now ≤ MAX_WRITERS }
        ensures { result ≡ counts.now }
    {
        let mut held = [0; MAX_WRITERS];
        held[..counts.len()].copy_from_slice(counts);
        Totals {
            counts: held,
            writers: counts.len(),
        }
    }

    /// How many items of the writer were accepted, or `None` where it is no writer of the queue.
    pub fn of(&self, writer: usize) -> Option<u64>
        ensures { result ≡ slice_get self.now writer }
    {
        if writer < self.writers {
            return Some(self.counts[writer]);
        }
        None
    }
}
