//! All seats come back, and what was sent was got once.
ghost use Rattle.std.specs.Prelude.{◌≡◌, ℕ, ◌<◌, List, [], ◌++◌, length, Some, slice_get, Option};
ghost use Rattle.std.specs.Slots.{IsFull};
ghost use Rattle.atomic_table.specs.Table.{State, Seen};
ghost use Rattle.kmc_partqueue.specs.Reached.{IsReached};
ghost use Rattle.kmc_partqueue.specs.declared.views.View.{View};
ghost use Rattle.kmc_partqueue.specs.Counts.{Each, Among, total_of, same};
ghost use Rattle.kmc_partqueue.specs.Seats.{ReaderState, AllEnded, IsWriterOf, IsReaderOf};
ghost use Rattle.kmc_partqueue.specs.Gathered.{Pairs, WriterPairs, IsGathered};
ghost use Rattle.kmc_partqueue.specs.Told.{IsHistoryOf};
ghost use Rattle.kmc_partqueue.specs.Dealing.{both};
ghost use Rattle.kmc_partcore.specs.History.{History};
ghost use Rattle.kmc_partqueue.specs.Queue.{identity};

use crate::done::DoneSeat;
use crate::lanes::Lanes;
use crate::reader::ReaderSeat;
use crate::steps::JoinSeats;
use crate::views::View;
use atomic_table::{Closed, Seat};
use kmc_partcore::Totals;
use std::alloc::Global;

/// Drops what lies in the slots, and frees the table.
fn drain<T: Drop>(mut closed: Closed<Option<T>, Global>)
    requires { IsFull closed.slots }
{
    let mut i = 0;
    while i < closed.slot_count() {
        drop(closed.take(i));
        i += 1;
    }
    closed.free();
}

/// The first seat that has seen each lane at its end.
fn first_finished<T>(readers: &[ReaderSeat<T>]) -> usize
    requires { (s : ReaderState T) × Among s readers.now × AllEnded s.writers s.totals }
    ensures { (s : ReaderState T) × (slice_get readers.now result ≡ Some s)
        × AllEnded s.writers s.totals }
{
    for i in 0..readers.len() {
        if readers[i].finished() {
            return i;
        }
    }
    unreachable!()
}

impl<T: Drop> Lanes<T> {
    /// What the last state shows beside the seat's view.
    fn close(self, seat: Seat<Option<T>, View<T>>)
        requires { seat.table_id ≡ identity self }
        ensures { (s : State (Option T) (View T))
            × Seen (IsReached self.table.shared.key) seat.id seat.me.0 s }
    {
        let Lanes { table, shape: _ } = self;
        drain(table.close_with(seat));
    }

    /// All that a seat has goes to another.
    fn join_one(&self, seat: &mut Seat<Option<T>, View<T>>, other: Seat<Option<T>, View<T>>)
        requires { (seat.old.table_id ≡ identity self.now)
            × (other.table_id ≡ identity self.now) × (other.me.1 ≡ []) }
        ensures { (seat.new.table_id ≡ seat.old.table_id) × (seat.new.id ≡ seat.old.id)
            × (seat.new.me ≡ (both seat.old.me.0 other.me.0, seat.old.me.1)) }
    {
        self.table.shared.join_seat::<JoinSeats>(seat, other);
    }

    /// All that the seats have goes to one of them.
    fn join_all(
        &self,
        seat: &mut Seat<Option<T>, View<T>>,
        mut readers: Vec<ReaderSeat<T>>,
        mut writers: Vec<DoneSeat<T>>,
    )
        requires queue { seat.old.table_id ≡ identity self.now }
        requires readers { Each (IsReaderOf (identity self.now) self.now.shape) readers.items }
        requires writers { Each (IsWriterOf (identity self.now) self.now.shape) writers.items }
        ensures queue { (seat.new.table_id ≡ seat.old.table_id) × (seat.new.id ≡ seat.old.id) }
        ensures readers { (bs : List _) × (seat.new.me.0.readers ≡ bs ++ seat.old.me.0.readers)
            × Pairs bs readers.items }
        ensures writers { (ws : List _) × (seat.new.me.0.writers ≡ ws ++ seat.old.me.0.writers)
            × WriterPairs ws writers.items }
    {
        while let Some(reader) = readers.pop() {
            self.join_one(seat, reader.into_seat());
        }
        while let Some(writer) = writers.pop() {
            self.join_one(seat, writer.into_seat());
        }
    }

    /// All seats of the queue come back, each number once, in any order, one of the readers having seen each lane at its end. Each part
    /// that was put was got once, by one reader, and nothing else was. The run had a legal history, in which each part was put, and left
    /// to the reader that got it, at its number, and each reader that saw all lanes at their ends was told once that the queue is
    /// finished. It answers how many parts each writer put.
    pub fn gather(self, writers: Vec<DoneSeat<T>>, mut readers: Vec<ReaderSeat<T>>) -> Totals
        requires queue { Each (IsWriterOf (identity self) self.shape) writers.items
            × Each (IsReaderOf (identity self) self.shape) readers.items }
        requires writers { (w : ℕ) → w < self.shape.writers
            → total_of (λ s. same s.number w) writers.items ≡ 1 }
        requires readers { (q : ℕ) → q < self.shape.readers
            → total_of (λ s. same s.number q) readers.items ≡ 1 }
        requires finished { (s : ReaderState T) × Among s readers.items
            × AllEnded s.writers s.totals }
        ensures gathered { IsGathered writers.items readers.items }
        ensures history { (h : History T) × IsHistoryOf self.shape writers.items readers.items h }
        ensures totals { (length result ≡ self.shape.writers)
            × Each (λ s. slice_get result s.number ≡ Some (length s.sent)) writers.items }
    {
        let totals = readers[first_finished(readers.as_slice())].all_totals();
        let Some(first) = readers.pop() else {
            unreachable!()
        };
        let mut base = first.into_seat();
        self.join_all(&mut base, readers, writers);
        self.close(base);
        totals
    }
}
