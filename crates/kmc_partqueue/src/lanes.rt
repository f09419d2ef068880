//! The queue, and how it opens with a seat for each writer and each reader.
ghost use Rattle.std.specs.Prelude.{◌≡◌, ◌+◌, ◌*◌, ◌/◌, ◌%◌, ◌<◌, ◌≤◌, [], Option, IfOk};

use crate::reader::ReaderSeat;
use crate::rule::Reached;
use crate::steps::{SplitReader, SplitWriter};
use crate::views::View;
use crate::writer::WriterSeat;
use atomic_table::{Seat, Table};
use kmc_partcore::{MAX_ITEMS, QueueShape};
use std::alloc::{AllocError, Global};

/// A queue of parts without a lock: one lane of slots for each writer, read by any reader, in single atomic steps.
///
/// What the readers got together is known once all seats are back (`gather`); a caller that never gathers its seats learns what each of
/// them knows, and no more.
#[derive(Drop)]
pub struct Lanes<T> {
    pub(crate) table: Table<Option<T>, View<T>, QueueShape, Reached, Global>,
    pub(crate) shape: QueueShape,
    ghost shaped: { table.shared.key ≡ shape },
    ghost sized: { (table.shared.table_id.words ≡ 2 * shape.writers + shape.writers * shape.per_writer)
        × (table.shared.table_id.slots ≡ shape.writers * shape.per_writer) },
}

impl<T> Lanes<T> {
    /// Of the part with this number in the lane: its slot, the word of the slot's mark, and what the mark says while the slot is free for
    /// it.
    pub(crate) fn place(&self, lane: usize, number: u64) -> (usize, usize, u64)
        requires { (lane < self.now.shape.writers) × (number ≤ MAX_ITEMS) }
        ensures slot { result.0
            ≡ lane * self.now.shape.per_writer + number % self.now.shape.per_writer }
        ensures mark { result.1 ≡ 2 * self.now.shape.writers
            + (lane * self.now.shape.per_writer + number % self.now.shape.per_writer) }
        ensures inside { result.1 < self.now.table.shared.table_id.words }
        ensures turn { result.2 ≡ 2 * (number / self.now.shape.per_writer) }
    {
        let per_writer = self.shape.per_writer as u64;
        let slot = lane * self.shape.per_writer + (number % per_writer) as usize;
        let mark = 2 * self.shape.writers + slot;
        (slot, mark, 2 * (number / per_writer))
    }
}

impl<T: Drop> Lanes<T> {
    ghost use Rattle.kmc_partqueue.specs.Dealing.{row_from, fresh_writer, fresh_reader};
    ghost use Rattle.kmc_partqueue.specs.Queue.{identity};
    ghost use Rattle.kmc_partqueue.specs.Seats.{new_writer, new_reader};

    /// Splits off a seat for each writer.
    fn deal_writers(
        &self,
        alloc: Global,
        seat: &mut Seat<Option<T>, View<T>>,
    ) -> Result<Vec<WriterSeat<T>>, AllocError>
        requires fresh { seat.old.me ≡ (
          record {
            writers = row_from
                (fresh_writer self.now.table.shared.key) 0 self.now.shape.writers;
            readers = row_from
                (fresh_reader self.now.table.shared.key) 0 self.now.shape.readers;
          },
          [],
        ) }
        requires queue { seat.old.table_id ≡ identity self.now }
        ensures queue { IfOk result (λ _. seat.new.table_id ≡ seat.old.table_id) }
        ensures left { IfOk result (λ _. seat.new.me
            ≡ (
              record {
                writers = [];
                readers = row_from
                    (fresh_reader self.now.table.shared.key) 0 self.now.shape.readers;
              },
              [],
            )) }
        ensures seats { IfOk result (λ v. v.items
            ≡ row_from (new_writer (identity self.now) self.now.shape) 0 self.now.shape.writers) }
    {
        let mut seats = Vec::new(alloc);
        for number in 0..self.shape.writers {
            let own = self.table.shared.split_seat::<SplitWriter>(seat);
            seats.push(WriterSeat::fresh(own, number, self.shape.per_writer))?;
        }
        Ok(seats)
    }

    /// Splits off a seat for each reader.
    fn deal_readers(
        &self,
        alloc: Global,
        seat: &mut Seat<Option<T>, View<T>>,
    ) -> Result<Vec<ReaderSeat<T>>, AllocError>
        requires fresh { seat.old.me
            ≡ (record { writers = []; readers = row_from (fresh_reader self.now.table.shared.key) 0 self.now.shape.readers }, []) }
        requires queue { seat.old.table_id ≡ identity self.now }
        ensures seats { IfOk result (λ v. v.items
            ≡ row_from (new_reader (identity self.now) self.now.shape) 0 self.now.shape.readers) }
    {
        let mut seats = Vec::new(alloc);
        for number in 0..self.shape.readers {
            let own = self.table.shared.split_seat::<SplitReader>(seat);
            seats.push(ReaderSeat::fresh(own, number, &self.shape))?;
        }
        Ok(seats)
    }

    /// The queue, and the seat that has all writers and all readers.
    fn opened(
        alloc: Global,
        shape: QueueShape,
    ) -> Result<(Lanes<T>, Seat<Option<T>, View<T>>), AllocError>
        ensures shape { IfOk result (λ q. q.0.shape ≡ shape) }
        ensures queue { IfOk result (λ q. q.1.table_id ≡ identity q.0) }
        ensures seat { IfOk result (λ q. q.1.me
            ≡ (
              record {
                writers = row_from (fresh_writer q.0.table.shared.key) 0 q.0.shape.writers;
                readers = row_from (fresh_reader q.0.table.shared.key) 0 q.0.shape.readers;
              },
              [],
            )) }
    {
        let slots = shape.writers * shape.per_writer;
        let words = Vec::from_elem(alloc, 0u64, 2 * shape.writers + slots)?;
        let (table, seat) = Table::vacant(alloc, words.as_slice(), slots, &shape)?;
        let lanes = Lanes { table, shape };
        Ok((lanes, seat))
    }

    /// The queue, and its seats in the order of their numbers. Every writer is registered. All words and slots are made here; no other
    /// call of the queue takes memory.
    pub fn new(
        alloc: Global,
        shape: QueueShape,
    ) -> Result<(Lanes<T>, Vec<WriterSeat<T>>, Vec<ReaderSeat<T>>), AllocError>
        ensures shape { IfOk result (λ q. q.0.shape ≡ shape) }
        ensures writers { IfOk result (λ q. q.1.items
            ≡ row_from (new_writer (identity q.0) shape) 0 shape.writers) }
        ensures readers { IfOk result (λ q. q.2.items
            ≡ row_from (new_reader (identity q.0) shape) 0 shape.readers) }
    {
        let (lanes, mut seat) = Lanes::opened(alloc, shape)?;
        let writer_seats = lanes.deal_writers(alloc, &mut seat)?;
        let reader_seats = lanes.deal_readers(alloc, &mut seat)?;
        Ok((lanes, writer_seats, reader_seats))
    }
}
