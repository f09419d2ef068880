//! Which body a thread takes next: the largest that none has taken, so that threads end at about one time.
ghost use Rattle.std.specs.Prelude.{◌<◌, IfSome};

use std::alloc::{AllocError, Global};
use std::sync::atomic::{AtomicUsize, Ordering};

/// The sizes of bodies with their places, the largest last, and how many of them are taken. Threads share it. A size and its place
/// are the halves of one number, so that they are sorted as plain numbers.
#[derive(Drop)]
pub struct LargestFirst {
    sizes: Vec<u128>,
    taken: AtomicUsize,
}

impl LargestFirst {
    /// The places of these bodies, of which none is taken. It fails only for want of memory.
    pub fn new(alloc: Global, bodies: &[Vec<u8>]) -> Result<LargestFirst, AllocError> {
        let mut sizes = Vec::with_capacity(alloc, bodies.len())?;
        for (place, body) in bodies.iter().enumerate() {
            sizes.push(((body.len() as u128) << 64) | place as u128)?;
        }
        sizes.sort_unstable();
        Ok(LargestFirst {
            sizes,
            taken: AtomicUsize::new(0),
        })
    }

    /// The place of the next of so many bodies, from 0 on; none where all are taken. No two calls answer one place: nothing is
    /// proved of that, and [`in_order`](crate::placed::in_order) looks for it.
    pub fn take(&self, count: usize) -> Option<usize>
        ensures { IfSome result (λ place. place < count) }
    {
        let turn = self.taken.fetch_add(1, Ordering::SeqCst);
        let left = self.sizes.len().checked_sub(turn)?;
        let place = (self.sizes.get(left.checked_sub(1)?)? % (1 << 64)) as usize;
        if place < count { Some(place) } else { None }
    }
}
