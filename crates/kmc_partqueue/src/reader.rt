//! What a reader does with its seat.
ghost use Rattle.std.specs.Prelude.{◌≡◌, ℕ, ◌+◌, ◌*◌, ◌/◌, ◌%◌, ◌<◌, ◌≤◌, ◌↔◌, [], ◌∷◌, ◌++◌, MatchOption, Option, Some, None, slice_get, true, false};
ghost use Rattle.kmc_partqueue.specs.Seats.{IsReaderOf, new_reader, KeepsNotes, AllEnded, AreKeptTotals, Rests};
ghost use Rattle.kmc_partqueue.specs.declared.views.Reading.{Reading};
ghost use Rattle.kmc_partqueue.specs.Dealing.{one_of_readers, fresh_reader};
ghost use Rattle.kmc_partqueue.specs.Gathered.{Tells};
ghost use Rattle.kmc_partqueue.specs.Plays.{looking, seeing, taking, freeing, ending};
ghost use Rattle.kmc_partqueue.specs.Ends.{SawAllEnds};
ghost use Rattle.kmc_partqueue.specs.Answers.{Answers, IsFinished};
ghost use Rattle.kmc_partqueue.specs.Queue.{identity};

use crate::gate::{Gate, Point};
use crate::lanes::Lanes;
use crate::steps::{ClaimPart, ReadEnd, ReadHead, ReleaseSlot, SeePublishedPart};
use crate::views::View;
use atomic_table::Seat;
use kmc_partcore::{MAX_ITEMS, MAX_WRITERS, QueueShape, Received, Totals};
use std::marker::Model;

/// The seat of a reader. It keeps the total of each lane that it has seen at its end.
#[derive(Drop)]
pub struct ReaderSeat<T> {
    pub(crate) seat: Seat<Option<T>, View<T>>,
    pub(crate) number: usize,
    pub(crate) per_writer: usize,
    pub(crate) totals: [Option<u64>; MAX_WRITERS],
    pub(crate) writers: usize,
    pub(crate) next: usize,
}

impl<T> Model for ReaderSeat<T> {
    ghost use Rattle.kmc_partqueue.specs.Seats.{ReaderState, got_of, Between};

    ghost Value = { ReaderState T };

    ghost view = { λ s. record {
      table = s.seat.table_id;
      number = s.number;
      per_writer = s.per_writer;
      writers = s.writers;
      got = got_of s.seat.me.0;
      totals = s.totals;
    } };

    ghost invariant = { λ s. Between s.seat.me s.number s.per_writer s.next s.writers s.totals };
}

/// What a try to take answers.
#[derive(Drop)]
pub enum TryTaken<T> {
    /// A part, which is no longer in the queue.
    Got(Received<T>),
    /// This round took nothing, and the seat has not seen all lanes at their end. It does not say that all lanes were empty at one moment.
    NotNow,
    /// The seat has seen each lane at its end, with these totals: there will be no part.
    Finished(Totals),
}

impl<T> ReaderSeat<T> {
    /// The seat of a reader of a new queue.
    pub(crate) fn fresh(
        seat: Seat<Option<T>, View<T>>,
        number: usize,
        shape: &QueueShape,
    ) -> ReaderSeat<T>
        requires { seat.me ≡ (one_of_readers (fresh_reader shape.now number), []) }
        ensures { result ≡ new_reader seat.table_id shape.now number }
    {
        ReaderSeat {
            seat,
            number,
            per_writer: shape.per_writer,
            writers: shape.writers,
            next: 0,
            totals: [None; MAX_WRITERS],
        }
    }

    /// The number of the reader, from 0.
    pub fn number(&self) -> usize
        ensures { result ≡ self.now.number }
    {
        self.number
    }

    /// The lane after the one that it last took from.
    fn next_lane(&self) -> usize
        ensures { result < self.now.writers }
    {
        self.next
    }

    /// No total of the lane was seen.
    fn is_open(&self, lane: usize) -> bool
        requires { (lane < self.now.writers) × (lane < 16) }
        ensures open { result ≡ true → slice_get self.now.totals lane ≡ Some None }
        ensures ended { result ≡ false → (t : ℕ)
            × (slice_get self.now.totals lane ≡ Some (Some t)) }
    {
        match self.totals[lane] {
            None => true,
            Some(_) => false,
        }
    }

    /// Whether the seat has seen each lane at its end: a take was then answered, or will be, that the queue is finished.
    pub fn finished(&self) -> bool
        ensures { (result ≡ true) ↔ AllEnded self.now.writers self.now.totals }
    {
        for lane in 0..self.writers {
            if self.is_open(lane) {
                return false;
            }
        }
        true
    }

    /// The total of each lane.
    pub(crate) fn all_totals(&self) -> Totals
        requires { AllEnded self.now.writers self.now.totals }
        ensures { AreKeptTotals self.now.writers self.now.totals result }
    {
        let mut counts = [0u64; MAX_WRITERS];
        for lane in 0..self.writers {
            match self.totals[lane] {
                Some(total) => counts[lane] = total,
                None => unreachable!(),
            }
        }
        Totals::new(&counts[..self.writers])
    }

    /// The table's seat alone.
    pub(crate) fn into_seat(self) -> Seat<Option<T>, View<T>>
        ensures table { result.table_id ≡ self.table }
        ensures view { (b : Reading T) × (result.me ≡ (one_of_readers b, [])) × Tells b self }
    {
        let ReaderSeat { seat, .. } = self;
        seat
    }
}

/// The lane that is tried after this one.
fn lane_after(lane: usize, writers: usize) -> usize
    requires { lane < writers }
    ensures { result < writers }
{
    if lane + 1 < writers { lane + 1 } else { 0 }
}

impl<T> Lanes<T> {
    /// Moves the part out of the slot that the seat holds.
    fn move_out(&self, seat: &mut Seat<Option<T>, View<T>>, slot: usize) -> T
        requires queue { seat.old.table_id ≡ identity self.now }
        requires holds { (x : T) × (seat.old.me.1 ≡ (slot, Some x) ∷ []) }
        ensures { (seat.new.table_id ≡ seat.old.table_id) × (seat.new.id ≡ seat.old.id)
            × (seat.old.me.1 ≡ (slot, Some result) ∷ [])
            × (seat.new.me ≡ (seat.old.me.0, (slot, None) ∷ [])) }
    {
        match self.table.shared.exchange(seat, slot, None) {
            Some(item) => item,
            None => unreachable!(),
        }
    }

    /// Reads the head of a lane, and whether the part at it was published.
    fn look(&self, seat: &mut Seat<Option<T>, View<T>>, lane: usize) -> (u64, bool)
        requires queue { seat.old.table_id ≡ identity self.now }
        requires lane { lane < self.now.shape.writers }
        requires rests { (b : Reading T) × Rests self.now.shape seat.old.me b }
        ensures queue { seat.new.table_id ≡ seat.old.table_id }
        ensures head { result.0 ≤ MAX_ITEMS }
        ensures published { result.1 ≡ true → (b : Reading T) → Rests self.now.shape seat.old.me b
            → seat.new.me ≡ (one_of_readers (seeing (looking b lane result.0)), []) }
        ensures waits { result.1 ≡ false → (b : Reading T) → Rests self.now.shape seat.old.me b
            → seat.new.me ≡ (one_of_readers (looking b lane result.0), []) }
    {
        let words = &self.table.shared;
        let head = words.load::<ReadHead>(seat, self.shape.writers + lane);
        let (_, mark, turn) = self.place(lane, head);
        let seen = words.load::<SeePublishedPart>(seat, mark);
        if seen == turn + 1 {
            return (head, true);
        }
        (head, false)
    }

    /// Takes the part that was seen at the head of the lane, unless another reader was before this one.
    fn take_seen<G: Gate>(
        &self,
        seat: &mut Seat<Option<T>, View<T>>,
        number: usize,
        lane: usize,
        head: u64,
        gate: &G,
    ) -> Option<T>
        requires queue { seat.old.table_id ≡ identity self.now }
        requires lane { (lane < self.now.shape.writers) × (head ≤ MAX_ITEMS) }
        requires seen { (b : Reading T) × Rests self.now.shape seat.old.me b
            × (b.lane ≡ lane) × (b.head ≡ head) × (b.ready ≡ true) }
        ensures queue { seat.new.table_id ≡ seat.old.table_id }
        ensures taken { (b : Reading T) → seat.old.me ≡ (one_of_readers b, []) → b.head ≡ head
            → MatchOption result (seat.new.me ≡ seat.old.me)
            (λ x. seat.new.me ≡ (one_of_readers (freeing (taking b x)), [])) }
    {
        let words = &self.table.shared;
        let at = self.shape.writers + lane;
        let was = words.compare_exchange::<ClaimPart>(seat, at, head, head + 1);
        if was != head {
            return None;
        }
        gate.pass(Point::PartClaimed(number, lane, head));
        let (slot, mark, turn) = self.place(lane, head);
        let item = self.move_out(seat, slot);
        words.store::<ReleaseSlot>(seat, mark, turn + 2);
        Some(item)
    }

    /// Whether the lane ends at the head that was read.
    fn sees_end(&self, seat: &mut Seat<Option<T>, View<T>>, lane: usize, head: u64) -> bool
        requires queue { seat.old.table_id ≡ identity self.now }
        requires lane { (lane < self.now.shape.writers) × (head ≤ MAX_ITEMS) }
        requires open { (b : Reading T) × (seat.old.me ≡ (one_of_readers b, []))
            × (b.lane ≡ lane) × ¬ SawAllEnds self.now.shape.writers b.ends }
        ensures queue { seat.new.table_id ≡ seat.old.table_id }
        ensures ended { result ≡ true → (b : Reading T) → seat.old.me ≡ (one_of_readers b, [])
            → b.head ≡ head → seat.new.me ≡ (one_of_readers (ending b), []) }
        ensures open { result ≡ false → (b : Reading T) → seat.old.me ≡ (one_of_readers b, [])
            → b.head ≡ head → seat.new.me ≡ seat.old.me }
    {
        let end = self.table.shared.load::<ReadEnd>(seat, lane);
        if end == head + 1 {
            return true;
        }
        false
    }

    /// Tries the head of one lane, once.
    fn try_lane<G: Gate>(&self, s: &mut ReaderSeat<T>, lane: usize, gate: &G) -> Option<Received<T>>
        requires queue { IsReaderOf (identity self.now) self.now.shape s.old }
        requires lane { (lane < self.now.shape.writers)
            × (slice_get s.old.totals lane ≡ Some None) }
        ensures seat { (s.new.table ≡ s.old.table) × (s.new.number ≡ s.old.number)
            × (s.new.per_writer ≡ s.old.per_writer) × (s.new.writers ≡ s.old.writers) }
        ensures got { MatchOption result (s.new.got ≡ s.old.got)
            (λ x. (s.new.got ≡ s.old.got ++ x ∷ []) × (s.new.totals ≡ s.old.totals)) }
        ensures notes { KeepsNotes s.old s.new }
    {
        let (head, published) = self.look(&mut s.seat, lane);
        if published {
            match self.take_seen(&mut s.seat, s.number, lane, head, gate) {
                Some(item) => {
                    s.next = lane_after(lane, self.shape.writers);
                    return Some(Received {
                        writer: lane,
                        number: head,
                        item,
                    });
                }
                None => return None,
            }
        }
        if self.sees_end(&mut s.seat, lane, head) {
            s.totals[lane] = Some(head);
            return None;
        }
        None
    }

    /// Takes a part, if it finds one, at once. It goes once round the lanes, from the one after that it last took from, and tries each
    /// head once; a lane that it has seen at its end is passed over.
    pub fn try_take<G: Gate>(&self, s: &mut ReaderSeat<T>, gate: &G) -> TryTaken<T>
        requires { IsReaderOf (identity self.now) self.now.shape s.old }
        ensures seat { (s.new.table ≡ s.old.table) × (s.new.number ≡ s.old.number)
            × (s.new.per_writer ≡ s.old.per_writer) × (s.new.writers ≡ s.old.writers) }
        ensures answer { Answers s.old s.new result }
        ensures notes { KeepsNotes s.old s.new }
        ensures again { AllEnded s.old.writers s.old.totals → (s.new ≡ s.old) × IsFinished result }
    {
        let mut lane = s.next_lane();
        for _ in 0..self.shape.writers {
            if s.is_open(lane) {
                match self.try_lane(s, lane, gate) {
                    Some(part) => return TryTaken::Got(part),
                    None => {}
                }
            }
            lane = lane_after(lane, self.shape.writers);
        }
        if s.finished() {
            TryTaken::Finished(s.all_totals())
        } else {
            TryTaken::NotNow
        }
    }
}
