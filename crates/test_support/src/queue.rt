//! A queue whose seats came back.
ghost use Rattle.std.specs.Prelude.{◌≡◌, ◌<◌, ℕ, length, IfSome};
ghost use Rattle.kmc_partqueue.specs.Counts.{Each, total_of, same};
ghost use Rattle.kmc_partqueue.specs.Seats.{IsWriterOf, IsReaderOf};
ghost use Rattle.kmc_partqueue.specs.Queue.{identity};

use kmc_partcore::Totals;
use kmc_partqueue::{DoneSeat, Lanes, ReaderSeat};

/// What `gather` answers, where the first of the readers has seen each lane at its end.
pub fn gathered<T: Drop>(
    lanes: Lanes<T>,
    writers: Vec<DoneSeat<T>>,
    readers: Vec<ReaderSeat<T>>,
) -> Option<Totals>
    requires queue { Each (IsWriterOf (identity lanes) lanes.shape) writers.items
        × Each (IsReaderOf (identity lanes) lanes.shape) readers.items }
    requires writers { (w : ℕ) → w < lanes.shape.writers → total_of (λ s. same s.number w) writers.items ≡ 1 }
    requires readers { (q : ℕ) → q < lanes.shape.readers → total_of (λ s. same s.number q) readers.items ≡ 1 }
    ensures { IfSome result (λ t. length t ≡ lanes.shape.writers) }
{
    if readers.is_empty() || !readers[0].finished() {
        return None;
    }
    Some(lanes.gather(writers, readers))
}
