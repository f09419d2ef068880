//! How a part is put: into the writer's lane, once there is room in it.
ghost use Rattle.std.specs.Prelude.{◌≡◌, ◌↔◌, ◌<◌, ◌∷◌, ◌++◌, [], length, OnOk, IsErrOf, Err};
ghost use Rattle.kmc_partcore.specs.declared.shape.TheConstants.{MAX_ITEMS};
ghost use Rattle.kmc_partqueue.specs.Seats.{IsWriterOf};
ghost use Rattle.kmc_partqueue.specs.SameSeats.{IsSameWriter};
ghost use Rattle.kmc_partqueue.specs.Queue.{identity};

use crate::gate::{Gate, Point};
use crate::pause::Pause;
use crate::refusal::GivenUp;
use crate::shared_queue::SharedQueue;
use crate::writer::{TryPutError, WriterSeat};
use std::sync::Wait;

/// Puts a part, and waits while the lane is full. Spent numbers come before all else; the stop word is read where the lane
/// was full, before the next try.
fn put_part<T: Drop, R: Wait, G: Gate>(
    rt: &R,
    way: &SharedQueue<T>,
    s: &mut WriterSeat<T>,
    part: T,
    gate: &G,
) -> Result<(), GivenUp>
    requires { IsWriterOf (identity way.now.lanes) way.now.lanes.shape s.old }
    ensures seat { IsSameWriter s.old s.new }
    ensures put { OnOk result (s.new.sent ≡ s.old.sent ++ part ∷ []) }
    ensures spent { (result ≡ Err GivenUp.NumbersSpent) ↔ (length s.old.sent ≡ MAX_ITEMS) }
{
    gate.pass(Point::BeforePut(s.number(), s.next_number()));
    let mut part = part;
    let mut pause = Pause::new();
    for _ in rt.forever() {
        match way.lanes.try_put(s, part, gate) {
            Ok(number) => {
                gate.pass(Point::AfterPut(s.number(), number));
                return Ok(());
            }
            Err((TryPutError::NumbersSpent, _)) => return Err(GivenUp::NumbersSpent),
            Err((TryPutError::Full, back)) => part = back,
        }
        if way.is_stopped() {
            return Err(GivenUp::Stopped);
        }
        pause.wait(rt, way);
    }
    unreachable!()
}

/// Puts parts in their order, each once its lane has room. A refusal leaves those before it in the queue.
pub fn put_all<T: Drop, R: Wait, G: Gate>(
    rt: &R,
    way: &SharedQueue<T>,
    s: &mut WriterSeat<T>,
    parts: Vec<T>,
    gate: &G,
) -> Result<(), GivenUp>
    requires { IsWriterOf (identity way.now.lanes) way.now.lanes.shape s.old }
    ensures seat { IsSameWriter s.old s.new }
    ensures put { OnOk result (s.new.sent ≡ s.old.sent ++ parts.items) }
    ensures spent { IsErrOf result GivenUp.NumbersSpent
        → MAX_ITEMS < length (s.old.sent ++ parts.items) }
{
    for part in parts {
        put_part(rt, way, s, part, gate)?;
    }
    Ok(())
}
