//! The queue itself.
ghost use Rattle.std.specs.Prelude.{◌≡◌, ◌≤◌, ◌↔◌, IfOk, IsTrue, map, length, All, true};

use crate::event::{CompleteError, PutError, Received, RegisterError, TakeError, Taken};
use crate::shape::{MAX_ITEMS, MAX_WRITERS, QueueShape};
use crate::totals::Totals;
use circular_buffer::HeapCircularBuffer;
use std::alloc::{AllocError, Global};
use std::marker::Model;

/// What the queue holds of one writer, but for its items.
#[derive(Clone, Copy)]
pub struct Counters {
    pub registered: bool,
    pub completed: bool,
    /// How many items were accepted.
    pub accepted_count: u64,
    /// How many of them have left.
    pub left_count: u64,
}

/// An item in the queue.
#[derive(Drop)]
pub struct Queued<T> {
    pub writer: usize,
    pub item: T,
}

/// The queue. A clause sees its shape, the counters of each writer, and the items in it in the order in which
/// they were accepted. Only `new` takes memory.
#[derive(Drop)]
pub struct PartCore<T> {
    shape: QueueShape,
    writers: Vec<Counters>,
    ring: HeapCircularBuffer<Queued<T>>,
}

impl<T> Model for PartCore<T> {
    ghost use Rattle.std.specs.Prelude.{◌≡◌, ◌*◌};
    ghost use Rattle.kmc_partcore.specs.CoreState.{CoreState, IsCore};

    ghost Value = { CoreState T };

    ghost view = { λ s. record { shape = s.shape; writers = s.writers.items; queue = s.ring.items } };

    ghost invariant = { λ s. (s.ring.capacity ≡ s.shape.writers * s.shape.per_writer) × IsCore s.shape s.writers.items s.ring.items };
}

fn all_completed(writers: &[Counters]) -> bool
    ensures { IsTrue result ↔ All (λ c. c.completed ≡ true) writers.now }
{
    writers.iter().all(|c| c.completed)
}

fn totals_of(writers: &[Counters]) -> Totals
    requires { length writers.now ≤ MAX_WRITERS }
    ensures { result ≡ map (λ c. c.accepted_count) writers.now }
{
    let mut counts = [0; MAX_WRITERS];
    for (w, c) in writers.iter().enumerate() {
        counts[w] = c.accepted_count;
    }
    Totals::new(&counts[..writers.len()])
}

impl<T: Drop> PartCore<T> {
    ghost use Rattle.kmc_partcore.specs.declared.event.Event.{Event};
    ghost use Rattle.kmc_partcore.specs.declared.event.Reply.{Reply};
    ghost use Rattle.kmc_partcore.specs.Legal.{FitsRegister, FitsPut, FitsTake, FitsComplete};
    ghost use Rattle.kmc_partcore.specs.CoreState.{opening, live_in, Becomes, MovesOn};

    /// A queue of which no call was made. It makes all the room that the queue will need.
    pub fn new(alloc: Global, shape: QueueShape) -> Result<PartCore<T>, AllocError>
        ensures { IfOk result (λ s. s ≡ opening shape) }
    {
        let idle = Counters {
            registered: false,
            completed: false,
            accepted_count: 0,
            left_count: 0,
        };
        let writers = Vec::from_elem(alloc, idle, shape.writers)?;
        let ring = HeapCircularBuffer::with_capacity(alloc, shape.writers * shape.per_writer)?;
        Ok(PartCore {
            shape,
            writers,
            ring,
        })
    }

    /// Registers a writer, once in the life of the queue. A refusal changes nothing.
    pub fn register(&mut self, writer: usize) -> Result<(), RegisterError>
        ensures answer { FitsRegister self.old.shape (live_in self.old) writer result }
        ensures state { Becomes self.old (Event.Register writer, Reply.Register result) self.new }
        ensures legal { MovesOn self.old (Event.Register writer, Reply.Register result) self.new }
    {
        if writer >= self.shape.writers {
            return Err(RegisterError::NoSuchWriter);
        }
        let counters = self.writers[writer];
        if counters.registered {
            return Err(RegisterError::AlreadyRegistered);
        }
        self.writers[writer] = Counters {
            registered: true,
            ..counters
        };
        Ok(())
    }

    /// Puts an item behind all others and answers its number among the writer's items. A refusal carries the
    /// item and changes nothing.
    pub fn put(&mut self, writer: usize, item: T) -> Result<u64, (PutError, T)>
        ensures answer { FitsPut self.old.shape (live_in self.old) writer item result }
        ensures state { Becomes self.old (Event.Put writer item, Reply.Put result) self.new }
        ensures legal { MovesOn self.old (Event.Put writer item, Reply.Put result) self.new }
    {
        if writer >= self.shape.writers {
            return Err((PutError::NoSuchWriter, item));
        }
        let counters = self.writers[writer];
        if !counters.registered {
            return Err((PutError::NotRegistered, item));
        }
        if counters.completed {
            return Err((PutError::Completed, item));
        }
        let number = counters.accepted_count;
        if number >= MAX_ITEMS {
            return Err((PutError::NumbersSpent, item));
        }
        if number - counters.left_count >= self.shape.per_writer as u64 {
            return Err((PutError::Full, item));
        }
        match self.ring.try_push_back(Queued { writer, item }) {
            Ok(()) => {}
            Err(_) => unreachable!(),
        }
        self.writers[writer] = Counters {
            accepted_count: number + 1,
            ..counters
        };
        Ok(number)
    }

    /// Takes the item that waits longest. Where none waits, it says whether one may still come. A refusal
    /// changes nothing.
    pub fn take(&mut self, reader: usize) -> Result<Taken<T>, TakeError>
        ensures answer { FitsTake self.old.shape (live_in self.old) reader result }
        ensures state { Becomes self.old (Event.Take reader, Reply.Take result) self.new }
        ensures legal { MovesOn self.old (Event.Take reader, Reply.Take result) self.new }
    {
        if reader >= self.shape.readers {
            return Err(TakeError::NoSuchReader);
        }
        match self.ring.pop_front() {
            Some(Queued { writer, item }) => {
                let counters = self.writers[writer];
                let number = counters.left_count;
                self.writers[writer] = Counters {
                    left_count: number + 1,
                    ..counters
                };
                return Ok(Taken::Got(Received {
                    writer,
                    number,
                    item,
                }));
            }
            None => {}
        }
        if all_completed(&self.writers) {
            return Ok(Taken::Finished(totals_of(&self.writers)));
        }
        Ok(Taken::Empty)
    }

    /// Completes a writer: it puts no more. Its items stay to be taken. A refusal changes nothing.
    pub fn complete(&mut self, writer: usize) -> Result<(), CompleteError>
        ensures answer { FitsComplete self.old.shape (live_in self.old) writer result }
        ensures state { Becomes self.old (Event.Complete writer, Reply.Complete result) self.new }
        ensures legal { MovesOn self.old (Event.Complete writer, Reply.Complete result) self.new }
    {
        if writer >= self.shape.writers {
            return Err(CompleteError::NoSuchWriter);
        }
        let counters = self.writers[writer];
        if !counters.registered {
            return Err(CompleteError::NotRegistered);
        }
        if counters.completed {
            return Err(CompleteError::Completed);
        }
        self.writers[writer] = Counters {
            completed: true,
            ..counters
        };
        Ok(())
    }
}
