//! How a part is taken: the next one of the queue, once there is one.
ghost use Rattle.std.specs.Prelude.{◌≡◌, IfOk, IfErr};
ghost use Rattle.kmc_partqueue.specs.Seats.{IsReaderOf};
ghost use Rattle.kmc_partqueue.specs.SameSeats.{IsSameReader};
ghost use Rattle.kmc_partqueue.specs.Taken.{IsNext};
ghost use Rattle.kmc_partqueue.specs.declared.refusal.GivenUp.TheVariants.{Stopped};
ghost use Rattle.kmc_partqueue.specs.Queue.{identity};

use crate::gate::{Gate, Point};
use crate::pause::Pause;
use crate::reader::{ReaderSeat, TryTaken};
use crate::refusal::GivenUp;
use crate::shared_queue::SharedQueue;
use std::sync::Wait;

/// Takes the next part, and waits while there is none. It is none once the queue is finished. The stop word is read before each
/// try, and where the workers are told to stop nothing was taken.
pub fn take_part<T: Drop, R: Wait, G: Gate>(
    rt: &R,
    way: &SharedQueue<T>,
    s: &mut ReaderSeat<T>,
    gate: &G,
) -> Result<Option<T>, GivenUp>
    requires { IsReaderOf (identity way.now.lanes) way.now.lanes.shape s.old }
    ensures seat { IsSameReader s.old s.new }
    ensures next { IfOk result (IsNext s.old s.new) }
    ensures stopped { IfErr result (λ e. (e ≡ Stopped) × (s.new.got ≡ s.old.got)) }
{
    let mut pause = Pause::new();
    for _ in rt.forever() {
        if way.is_stopped() {
            return Err(GivenUp::Stopped);
        }
        match way.lanes.try_take(s, gate) {
            TryTaken::Got(received) => {
                gate.pass(Point::AfterTake(s.number()));
                return Ok(Some(received.item));
            }
            TryTaken::NotNow => pause.wait(rt, way),
            TryTaken::Finished(_) => return Ok(None),
        }
    }
    unreachable!()
}
