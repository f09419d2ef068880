//! How a part is put by a caller that waits.
ghost use Rattle.std.specs.Prelude.{◌≡◌, ◌↔◌, [], ◌∷◌, ◌++◌, length, MatchResult, Err};
ghost use Rattle.kmc_partqueue.specs.Seats.{IsWriterOf};
ghost use Rattle.kmc_partqueue.specs.declared.writer.TryPutError.TheVariants.{NumbersSpent};
ghost use Rattle.kmc_partcore.specs.declared.shape.TheConstants.{MAX_ITEMS};
ghost use Rattle.kmc_partqueue.specs.Queue.{identity};

use crate::gate::Gate;
use crate::lanes::Lanes;
use crate::writer::{PutResult, TryPutError, WriterSeat};
use std::sync::Wait;
use std::thread;

/// Puts a part. It tries again, and yields between two tries, for as long as the next slot is not free.
pub fn put<T, R: Wait, G: Gate>(
    lanes: &Lanes<T>,
    rt: &R,
    s: &mut WriterSeat<T>,
    part: T,
    gate: &G,
) -> PutResult<T>
    requires { IsWriterOf (identity lanes.now) lanes.now.shape s.old }
    ensures seat { (s.new.table ≡ s.old.table) × (s.new.number ≡ s.old.number)
        × (s.new.per_writer ≡ s.old.per_writer) }
    ensures put { MatchResult result
        (λ n. (n ≡ length s.old.sent) × (s.new.sent ≡ s.old.sent ++ part ∷ []))
        (λ e. (e ≡ (NumbersSpent, part)) × (s.new.sent ≡ s.old.sent)) }
    ensures spent { (result ≡ Err (NumbersSpent, part)) ↔ (length s.old.sent ≡ MAX_ITEMS) }
{
    let mut part = part;
    for _ in rt.forever() {
        match lanes.try_put(s, part, gate) {
            Err((TryPutError::Full, back)) => part = back,
            answer => return answer,
        }
        thread::yield_now();
    }
    unreachable!()
}
