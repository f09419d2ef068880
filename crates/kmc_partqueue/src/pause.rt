//! How a worker waits that finds nothing to do: it yields some times, and then sleeps shortly each time, so that it takes no
//! processor from those that have work.
use crate::shared_queue::SharedQueue;
use std::sync::Wait;
use std::thread;

/// So many times a worker yields before it sleeps.
const YIELDS: u32 = 32;

/// The waits of a worker since it last had something to do.
#[derive(Drop)]
pub(crate) struct Pause {
    waits: u32,
}

impl Pause {
    /// Before the first wait.
    pub(crate) fn new() -> Pause {
        Pause { waits: 0 }
    }

    /// Waits once more: a yield, or a sleep that a stop ends.
    pub(crate) fn wait<T: Drop, R: Wait>(&mut self, rt: &R, way: &SharedQueue<T>) {
        if self.waits < YIELDS {
            self.waits += 1;
            thread::yield_now();
        } else {
            way.sleep(rt);
        }
    }
}
