//! How a part is taken by a caller that waits.
ghost use Rattle.std.specs.Prelude.{◌≡◌};
ghost use Rattle.kmc_partqueue.specs.Seats.{IsReaderOf, KeepsNotes, AllEnded};
ghost use Rattle.kmc_partqueue.specs.WaitingAnswers.{TakeAnswers, IsLast};
ghost use Rattle.kmc_partqueue.specs.Queue.{identity};

use crate::gate::Gate;
use crate::lanes::Lanes;
use crate::reader::{ReaderSeat, TryTaken};
use kmc_partcore::Taken;
use std::sync::Wait;
use std::thread;

/// Takes a part, or is told that there will be none. It tries again, and yields between two tries, for as long as a round takes nothing.
pub fn take<T, R: Wait, G: Gate>(
    lanes: &Lanes<T>,
    rt: &R,
    s: &mut ReaderSeat<T>,
    gate: &G,
) -> Taken<T>
    requires { IsReaderOf (identity lanes.now) lanes.now.shape s.old }
    ensures seat { (s.new.table ≡ s.old.table) × (s.new.number ≡ s.old.number)
        × (s.new.per_writer ≡ s.old.per_writer) × (s.new.writers ≡ s.old.writers) }
    ensures answer { TakeAnswers s.old s.new result }
    ensures notes { KeepsNotes s.old s.new }
    ensures again { AllEnded s.old.writers s.old.totals → (s.new ≡ s.old) × IsLast result }
{
    for _ in rt.forever() {
        match lanes.try_take(s, gate) {
            TryTaken::Got(part) => return Taken::Got(part),
            TryTaken::NotNow => {}
            TryTaken::Finished(totals) => return Taken::Finished(totals),
        }
        thread::yield_now();
    }
    unreachable!()
}
