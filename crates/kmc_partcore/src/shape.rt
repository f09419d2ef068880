//! How many writers, items of each writer, and readers a queue has.
ghost use Rattle.std.specs.Prelude.{◌≡◌, ◌↔◌, IsSome, IfSome};
ghost use Rattle.kmc_partcore.specs.Limits.{IsWithinLimits};

/// The most writers of a queue; the least is 1.
pub const MAX_WRITERS: usize = 16;

/// The most items of one writer that may wait in the queue; the least is 1.
pub const MAX_PER_WRITER: usize = 64;

/// The most readers of a queue; the least is 1.
pub const MAX_READERS: usize = 8;

/// The most items that one writer may put in its life: their numbers fit 32 bits.
pub const MAX_ITEMS: u64 = 4294967295;

/// The shape of a queue. Writers and readers are numbered from 0.
#[derive(Clone, Copy)]
pub struct QueueShape {
    pub writers: usize,
    pub per_writer: usize,
    pub readers: usize,
    pub ghost within: { IsWithinLimits writers per_writer readers },
}

impl QueueShape {
    /// The shape, or `None` where a number is out of its limits.
    pub fn new(writers: usize, per_writer: usize, readers: usize) -> Option<QueueShape>
        ensures some { IsSome result ↔ IsWithinLimits writers per_writer readers }
        ensures fields { IfSome result
            (λ q. (q.writers ≡ writers) × (q.per_writer ≡ per_writer) × (q.readers ≡ readers)) }
    {
        let fits = 1 <= writers
            && writers <= MAX_WRITERS
            && 1 <= per_writer
            && per_writer <= MAX_PER_WRITER
            && 1 <= readers
            && readers <= MAX_READERS;
        if fits {
            return Some(QueueShape {
                writers,
                per_writer,
                readers,
            });
        }
        None
    }
}
