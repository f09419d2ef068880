//! What a writer does with its seat.
ghost use Rattle.std.specs.Prelude.{◌≡◌, ◌+◌, ◌*◌, ◌/◌, ◌%◌, [], ◌∷◌, ◌++◌, length, MatchResult, IfErr, false, Option, Some, None, Err};
ghost use Rattle.kmc_partqueue.specs.Dealing.{one_of_writers};
ghost use Rattle.kmc_partqueue.specs.Seats.{IsWriterOf, open_writer};
ghost use Rattle.kmc_partqueue.specs.Refusals.{Refused};
ghost use Rattle.kmc_partqueue.specs.declared.writer.TryPutError.TheVariants.{NumbersSpent};
ghost use Rattle.kmc_partqueue.specs.Queue.{identity};

use crate::done::DoneSeat;
use crate::gate::{Gate, Point};
use crate::lanes::Lanes;
use crate::steps::{ClaimFreeSlot, CloseLane, PublishPart};
use crate::views::View;
use atomic_table::Seat;
use kmc_partcore::MAX_ITEMS;
use std::marker::Model;
use thiserror::Error;

/// The seat of a writer. One that is dropped before it has completed leaves its lane open for good, and no reader is ever answered that
/// the queue is finished.
#[derive(Drop)]
pub struct WriterSeat<T> {
    pub(crate) seat: Seat<Option<T>, View<T>>,
    pub(crate) number: usize,
    pub(crate) per_writer: usize,
    pub(crate) count: u64,
}

impl<T> Model for WriterSeat<T> {
    ghost use Rattle.kmc_partqueue.specs.Seats.{WriterState, sent_of, AtRest};

    ghost Value = { WriterState T };

    ghost view = { λ s. record { table = s.seat.table_id; number = s.number; per_writer = s.per_writer; sent = sent_of s.seat.me.0 } };

    ghost invariant = { λ s. AtRest s.seat.me s.number s.per_writer s.count };
}

impl<T> WriterSeat<T> {
    /// The seat of a writer of a new queue.
    pub(crate) fn fresh(
        seat: Seat<Option<T>, View<T>>,
        number: usize,
        per_writer: usize,
    ) -> WriterSeat<T>
        requires { seat.me ≡ (one_of_writers (open_writer number per_writer [] false), []) }
        ensures { result ≡ record { table = seat.table_id; number = number; per_writer = per_writer; sent = [] } }
    {
        WriterSeat {
            seat,
            number,
            per_writer,
            count: 0,
        }
    }

    /// The number of the writer, from 0.
    pub fn number(&self) -> usize
        ensures { result ≡ self.now.number }
    {
        self.number
    }

    /// The number of the part that is put next: how many were put.
    pub fn next_number(&self) -> u64
        ensures { result ≡ length self.now.sent }
    {
        self.count
    }
}

/// Why a part was not put. NumbersSpent is tested first, before any step.
#[derive(Drop, Clone, Copy, Debug, Error)]
pub enum TryPutError {
    /// The next slot of the lane is not yet free again.
    #[error("no room for a part of the writer")]
    Full,
    /// The writer has put as many parts as have numbers.
    #[error("part numbers spent")]
    NumbersSpent,
}

impl TryPutError {
    ghost use Rattle.kmc_partqueue.specs.RefusalNumbers.{number_of_try_put_error};

    /// The number of the refusal, as docs/REFUSALS.md lists it.
    pub fn number(&self) -> u8
        ensures { result ≡ number_of_try_put_error self.now }
    {
        match self {
            TryPutError::Full => 5,
            TryPutError::NumbersSpent => 6,
        }
    }
}

/// The number that the part got among the writer's, or why it was not put, and the part.
pub type PutResult<T> = Result<u64, (TryPutError, T)>;

impl<T> Lanes<T> {
    /// Moves a part into the slot that the seat holds.
    fn move_in(&self, seat: &mut Seat<Option<T>, View<T>>, slot: usize, part: T)
        requires { (seat.old.table_id ≡ identity self.now)
            × (seat.old.me.1 ≡ (slot, None) ∷ []) }
        ensures { (seat.new.table_id ≡ seat.old.table_id) × (seat.new.id ≡ seat.old.id)
            × (seat.new.me ≡ (seat.old.me.0, (slot, Some part) ∷ [])) }
    {
        match self.table.shared.exchange(seat, slot, Some(part)) {
            None => {}
            Some(_) => unreachable!(),
        }
    }

    /// Puts a part, or hands it back, at once: it answers the number that the part got among the writer's.
    /// The first `per_writer` puts of a seat are never refused as Full.
    pub fn try_put<G: Gate>(&self, s: &mut WriterSeat<T>, part: T, gate: &G) -> PutResult<T>
        requires { IsWriterOf (identity self.now) self.now.shape s.old }
        ensures seat { (s.new.table ≡ s.old.table) × (s.new.number ≡ s.old.number)
            × (s.new.per_writer ≡ s.old.per_writer) }
        ensures put { MatchResult result
            (λ n. (n ≡ length s.old.sent) × (s.new.sent ≡ s.old.sent ++ part ∷ []))
            (λ e. (e.1 ≡ part) × (s.new.sent ≡ s.old.sent)) }
        ensures refused { IfErr result (λ e. Refused (length s.old.sent) s.old.per_writer e.0) }
        ensures spent { length s.old.sent ≡ MAX_ITEMS → result ≡ Err (NumbersSpent, part) }
    {
        if s.count == MAX_ITEMS {
            return Err((TryPutError::NumbersSpent, part));
        }
        let count = s.count;
        let (slot, mark, turn) = self.place(s.number, count);
        let found = self.table.shared.load::<ClaimFreeSlot>(&mut s.seat, mark);
        if found != turn {
            return Err((TryPutError::Full, part));
        }
        gate.pass(Point::SlotHeld(s.number, count));
        self.move_in(&mut s.seat, slot, part);
        self.table
            .shared
            .store::<PublishPart>(&mut s.seat, mark, turn + 1);
        s.count = count + 1;
        Ok(count)
    }

    /// The writer puts no more: its seat is consumed.
    pub fn complete(&self, mut s: WriterSeat<T>) -> DoneSeat<T>
        requires { IsWriterOf (identity self.now) self.now.shape s }
        ensures { result ≡ s }
    {
        self.table
            .shared
            .store::<CloseLane>(&mut s.seat, s.number, s.count + 1);
        let WriterSeat { seat, number, .. } = s;
        DoneSeat { seat, number }
    }
}
