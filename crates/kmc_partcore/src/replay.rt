//! A whole list of calls, one after another.
ghost use Rattle.std.specs.Prelude.{◌≡◌, IfOk, length};
ghost use Rattle.kmc_partcore.specs.Legal.{IsLegal, history_of};
ghost use Rattle.kmc_partcore.specs.CoreState.{MovesOn};

use crate::event::{Event, Reply};
use crate::part_core::PartCore;
use crate::shape::QueueShape;
use std::alloc::{AllocError, Global};

/// Makes one call of the queue.
fn answer<T: Drop>(core: &mut PartCore<T>, event: Event<T>) -> Reply<T>
    ensures shape { core.new.shape ≡ core.old.shape }
    ensures legal { MovesOn core.old (event, result) core.new }
{
    match event {
        Event::Register(writer) => Reply::Register(core.register(writer)),
        Event::Put(writer, item) => Reply::Put(core.put(writer, item)),
        Event::Take(reader) => Reply::Take(core.take(reader)),
        Event::Complete(writer) => Reply::Complete(core.complete(writer)),
    }
}

/// Makes the calls on a new queue in their order, and answers the reply of each: as many replies as events, and
/// with them a legal history.
pub fn run<T: Drop>(
    alloc: Global,
    shape: QueueShape,
    events: Vec<Event<T>>,
) -> Result<Vec<Reply<T>>, AllocError>
    ensures all { IfOk result (λ replies. length replies.items ≡ length events.items) }
    ensures legal { IfOk result (λ replies. IsLegal shape (history_of events.items replies.items)) }
{
    let mut core = PartCore::new(alloc, shape)?;
    let mut replies = Vec::with_capacity(alloc, events.len())?;
    for event in events {
        replies.push(answer(&mut core, event))?;
    }
    Ok(replies)
}
