//! A writer or a reader that is held in the middle of a call, in a thread of its own.
ghost use Rattle.std.specs.Prelude.{◌≡◌};
ghost use Rattle.kmc_partqueue.specs.Seats.{IsWriterOf, IsReaderOf};
ghost use Rattle.kmc_partqueue.specs.Queue.{identity};

use crate::lanes::{got, is_full, is_not_now, total, totals};
use kmc_partcore::{QueueShape, Totals};
use kmc_partqueue::{DoneSeat, Gate, Lanes, NoGate, Point, ReaderSeat, WriterSeat};
use std::alloc::Global;
use std::process::Abort;
use std::sync::atomic::{AtomicBool, Ordering};
use std::test::Fail;
use std::thread;
use std::thread::Threads;
use test_support::gathered;

/// A wait that is not over after so many turns notes a failure.
const TURNS: u32 = 20000000;

/// Whether both points are of one writer that holds the slot for one part, or of one reader that has claimed one part.
fn is_same(a: Point, b: Point) -> bool {
    match (a, b) {
        (Point::SlotHeld(w, n), Point::SlotHeld(v, m)) => w == v && n == m,
        (Point::PartClaimed(r, w, n), Point::PartClaimed(q, v, m)) => r == q && w == v && n == m,
        _ => false,
    }
}

/// Holds the call that passes its point, until it is let go or the turns are spent.
#[derive(Drop)]
struct Hold {
    at: Point,
    reached: AtomicBool,
    let_go: AtomicBool,
    spent: AtomicBool,
}

impl Hold {
    fn new(at: Point) -> Hold {
        Hold {
            at,
            reached: AtomicBool::new(false),
            let_go: AtomicBool::new(false),
            spent: AtomicBool::new(false),
        }
    }

    fn is_spent(&self) -> bool {
        self.spent.load(Ordering::SeqCst)
    }
}

impl Gate for Hold {
    fn pass(&self, point: Point) {
        if is_same(point, self.at) {
            self.reached.store(true, Ordering::SeqCst);
            if !is_seen(&self.let_go) {
                self.spent.store(true, Ordering::SeqCst);
            }
        }
    }
}

fn is_seen(flag: &AtomicBool) -> bool {
    for _ in 0..TURNS {
        if flag.load(Ordering::SeqCst) {
            return true;
        }
        thread::yield_now();
    }
    false
}

type Item = Option<(usize, u64, u8)>;

fn take_held(lanes: &Lanes<u8>, mut seat: ReaderSeat<u8>, gate: &Hold) -> (Item, ReaderSeat<u8>)
    requires { IsReaderOf (identity lanes.now) lanes.now.shape seat }
    ensures { IsReaderOf (identity lanes.now) lanes.now.shape result.1
        × (result.1.number ≡ seat.number) }
{
    let item = got(lanes.try_take(&mut seat, gate));
    (item, seat)
}

fn put_held(
    lanes: &Lanes<u8>,
    mut seat: WriterSeat<u8>,
    gate: &Hold,
) -> (Option<u64>, WriterSeat<u8>)
    requires { IsWriterOf (identity lanes.now) lanes.now.shape seat }
    ensures { IsWriterOf (identity lanes.now) lanes.now.shape result.1 }
{
    let number = lanes.try_put(&mut seat, 20, gate).ok();
    (number, seat)
}

/// While the other reader is held: the writer finds its slot not yet free, and the reader finds nothing.
fn try_beside(
    lanes: &Lanes<u8>,
    mut writer: WriterSeat<u8>,
    mut reader: ReaderSeat<u8>,
    gate: &Hold,
) -> (bool, bool, WriterSeat<u8>)
    requires writer { IsWriterOf (identity lanes.now) lanes.now.shape writer }
    requires reader { IsReaderOf (identity lanes.now) lanes.now.shape reader }
    ensures { IsWriterOf (identity lanes.now) lanes.now.shape result.2 }
{
    let held = is_seen(&gate.reached);
    let full = is_full(lanes.try_put(&mut writer, 11, &NoGate), 11);
    let none = is_not_now(lanes.try_take(&mut reader, &NoGate));
    gate.let_go.store(true, Ordering::SeqCst);
    (held, full && none, writer)
}

/// The one reader takes and is held, and the other one tries beside it.
fn hold_a_reader<R: Threads + Sync>(
    rt: &R,
    lanes: &Lanes<u8>,
    gate: &Hold,
    writer: WriterSeat<u8>,
    held: ReaderSeat<u8>,
    other: ReaderSeat<u8>,
) -> ((Item, ReaderSeat<u8>), (bool, bool, WriterSeat<u8>))
    requires writer { IsWriterOf (identity lanes.now) lanes.now.shape writer }
    requires held { IsReaderOf (identity lanes.now) lanes.now.shape held }
    requires other { IsReaderOf (identity lanes.now) lanes.now.shape other }
    ensures { IsWriterOf (identity lanes.now) lanes.now.shape result.1.2 }
{
    thread::join(
        rt,
        move || -> (Item, ReaderSeat<u8>)
            requires { IsReaderOf (identity lanes.now) lanes.now.shape held }
        { take_held(lanes, held, gate) },
        move || -> (bool, bool, WriterSeat<u8>)
            requires writer { IsWriterOf (identity lanes.now) lanes.now.shape writer }
            requires reader { IsReaderOf (identity lanes.now) lanes.now.shape other }
            ensures { IsWriterOf (identity lanes.entry.now) lanes.entry.now.shape result.2 }
        { try_beside(lanes, writer, other, gate) },
    )
}

/// The slot of the part that a held reader takes is free only once it is let go.
fn assert_slot_kept<R: Abort + Threads + Sync>(
    rt: &R,
    queue: &Lanes<u8>,
    writer: WriterSeat<u8>,
    first: ReaderSeat<u8>,
    second: ReaderSeat<u8>,
)
    requires writer { IsWriterOf (identity queue.now) queue.now.shape writer }
    requires first { IsReaderOf (identity queue.now) queue.now.shape first }
    requires second { IsReaderOf (identity queue.now) queue.now.shape second }
{
    let hold = Hold::new(Point::PartClaimed(1, 0, 0));
    let ((item, _), (held, refused, mut back)) = hold_a_reader(
        rt, queue, &hold, writer, second, first,
    );
    assert!(rt; held && refused && !hold.is_spent() && item == Some((0, 0, 10)));
    let again = queue.try_put(&mut back, 11, &NoGate).ok();
    assert!(rt; again == Some(1));
}

#[test]
fn a_slot_stays_with_the_reader_that_is_held(rt: HostRuntime) -> Result<(), Fail> {
    let (queue, mut writers, mut readers) = Lanes::<u8>::new(rt.alloc(), shape!(1, 1, 2))?;
    let mut writer = writers.pop().expect(&rt, "a writer");
    let second = readers.pop().expect(&rt, "a reader");
    let first = readers.pop().expect(&rt, "a reader");
    let put = queue.try_put(&mut writer, 10, &NoGate).ok();
    assert!(rt; put == Some(0));
    assert_slot_kept(&rt, &queue, writer, first, second);
    Ok(())
}

/// While writer 1 is held: writer 0 puts a part and completes, and the reader gets it and then nothing.
fn pass_by(
    lanes: &Lanes<u8>,
    mut writer: WriterSeat<u8>,
    mut reader: ReaderSeat<u8>,
    gate: &Hold,
) -> (bool, bool, ReaderSeat<u8>)
    requires writer { IsWriterOf (identity lanes.now) lanes.now.shape writer }
    requires reader { IsReaderOf (identity lanes.now) lanes.now.shape reader }
    ensures { IsReaderOf (identity lanes.now) lanes.now.shape result.2 }
{
    let held = is_seen(&gate.reached);
    let put = lanes.try_put(&mut writer, 30, &NoGate).ok();
    let done = lanes.complete(writer);
    let item = got(lanes.try_take(&mut reader, &NoGate));
    let none = is_not_now(lanes.try_take(&mut reader, &NoGate));
    gate.let_go.store(true, Ordering::SeqCst);
    let right = put == Some(0) && done.number() == 0 && item == Some((0, 0, 30)) && none;
    (held, right, reader)
}

/// The one writer puts and is held, and the other one passes it.
fn hold_a_writer<R: Threads + Sync>(
    rt: &R,
    lanes: &Lanes<u8>,
    gate: &Hold,
    held: WriterSeat<u8>,
    other: WriterSeat<u8>,
    reader: ReaderSeat<u8>,
) -> ((Option<u64>, WriterSeat<u8>), (bool, bool, ReaderSeat<u8>))
    requires held { IsWriterOf (identity lanes.now) lanes.now.shape held }
    requires other { IsWriterOf (identity lanes.now) lanes.now.shape other }
    requires reader { IsReaderOf (identity lanes.now) lanes.now.shape reader }
    ensures writer { IsWriterOf (identity lanes.now) lanes.now.shape result.0.1 }
    ensures reader { IsReaderOf (identity lanes.now) lanes.now.shape result.1.2 }
{
    thread::join(
        rt,
        move || -> (Option<u64>, WriterSeat<u8>)
            requires { IsWriterOf (identity lanes.now) lanes.now.shape held }
            ensures { IsWriterOf (identity lanes.entry.now) lanes.entry.now.shape result.1 }
        { put_held(lanes, held, gate) },
        move || -> (bool, bool, ReaderSeat<u8>)
            requires writer { IsWriterOf (identity lanes.now) lanes.now.shape other }
            requires reader { IsReaderOf (identity lanes.now) lanes.now.shape reader }
            ensures { IsReaderOf (identity lanes.entry.now) lanes.entry.now.shape result.2 }
        { pass_by(lanes, other, reader, gate) },
    )
}

/// Asserts that the part of writer 1 is taken, and that the queue is finished then, with one part of each writer.
fn assert_last_of_two(rt: &impl Abort, queue: &Lanes<u8>, mut reader: ReaderSeat<u8>)
    requires { IsReaderOf (identity queue.now) queue.now.shape reader }
{
    let item = got(queue.try_take(&mut reader, &NoGate));
    assert!(rt; item == Some((1, 0, 20)));
    let end = totals(queue.try_take(&mut reader, &NoGate)).expect(rt, "finished");
    assert!(rt; end.of(0) == Some(1) && end.of(1) == Some(1));
}

/// The part of a held writer comes behind that of the other.
fn assert_passed<R: Abort + Threads + Sync>(
    rt: &R,
    queue: &Lanes<u8>,
    first: WriterSeat<u8>,
    second: WriterSeat<u8>,
    reader: ReaderSeat<u8>,
)
    requires first { IsWriterOf (identity queue.now) queue.now.shape first }
    requires second { IsWriterOf (identity queue.now) queue.now.shape second }
    requires reader { IsReaderOf (identity queue.now) queue.now.shape reader }
{
    let hold = Hold::new(Point::SlotHeld(1, 0));
    let ((number, writer), (held, right, back)) = hold_a_writer(
        rt, queue, &hold, second, first, reader,
    );
    assert!(rt; held && right && !hold.is_spent() && number == Some(0));
    let done = queue.complete(writer);
    assert!(rt; done.number() == 1);
    assert_last_of_two(rt, queue, back);
}

#[test]
fn a_held_writer_does_not_stop_another(rt: HostRuntime) -> Result<(), Fail> {
    let (queue, mut writers, mut readers) = Lanes::<u8>::new(rt.alloc(), shape!(2, 1, 1))?;
    let second = writers.pop().expect(&rt, "a writer");
    let first = writers.pop().expect(&rt, "a writer");
    let reader = readers.pop().expect(&rt, "a reader");
    assert_passed(&rt, &queue, first, second, reader);
    Ok(())
}

/// While reader 0 is held: reader 1 gets the next part, the writer finds its slot not yet free and completes,
/// and reader 1 is told that the queue is finished.
fn finish_beside(
    lanes: &Lanes<u8>,
    mut writer: WriterSeat<u8>,
    mut reader: ReaderSeat<u8>,
    gate: &Hold,
) -> (bool, DoneSeat<u8>, ReaderSeat<u8>)
    requires writer { IsWriterOf (identity lanes.now) lanes.now.shape writer }
    requires reader { IsReaderOf (identity lanes.now) lanes.now.shape reader }
    ensures writer { IsWriterOf (identity lanes.now) lanes.now.shape result.1
        × (result.1.number ≡ writer.number) }
    ensures reader { IsReaderOf (identity lanes.now) lanes.now.shape result.2
        × (result.2.number ≡ reader.number) }
{
    let held = is_seen(&gate.reached);
    let item = got(lanes.try_take(&mut reader, &NoGate));
    let full = is_full(lanes.try_put(&mut writer, 42, &NoGate), 42);
    let done = lanes.complete(writer);
    let end = total(lanes.try_take(&mut reader, &NoGate), 0);
    gate.let_go.store(true, Ordering::SeqCst);
    let right = held && item == Some((0, 1, 41)) && full && end == Some(2);
    (right, done, reader)
}

/// The totals as `gather` answers them, of a queue with one writer and two readers.
fn gathered_by_two(
    alloc: Global,
    lanes: Lanes<u8>,
    done: DoneSeat<u8>,
    first: ReaderSeat<u8>,
    second: ReaderSeat<u8>,
) -> Result<Option<Totals>, Fail>
    requires shape { (lanes.shape.writers ≡ 1) × (lanes.shape.readers ≡ 2) }
    requires writer { IsWriterOf (identity lanes) lanes.shape done × (done.number ≡ 0) }
    requires first { IsReaderOf (identity lanes) lanes.shape first × (first.number ≡ 0) }
    requires second { IsReaderOf (identity lanes) lanes.shape second
        × (second.number ≡ 1) }
{
    let writers = Vec::from_array(alloc, [done])?;
    let readers = Vec::from_array(alloc, [first, second])?;
    Ok(gathered(lanes, writers, readers))
}

/// The one reader takes and is held, and the other one finishes the queue beside it.
fn finish_past_a_reader<R: Threads + Sync>(
    rt: &R,
    lanes: &Lanes<u8>,
    gate: &Hold,
    writer: WriterSeat<u8>,
    held: ReaderSeat<u8>,
    other: ReaderSeat<u8>,
) -> ((Item, ReaderSeat<u8>), (bool, DoneSeat<u8>, ReaderSeat<u8>))
    requires writer { IsWriterOf (identity lanes.now) lanes.now.shape writer }
    requires held { IsReaderOf (identity lanes.now) lanes.now.shape held }
    requires other { IsReaderOf (identity lanes.now) lanes.now.shape other }
    ensures held { IsReaderOf (identity lanes.now) lanes.now.shape result.0.1
        × (result.0.1.number ≡ held.number) }
    ensures writer { IsWriterOf (identity lanes.now) lanes.now.shape result.1.1
        × (result.1.1.number ≡ writer.number) }
    ensures other { IsReaderOf (identity lanes.now) lanes.now.shape result.1.2
        × (result.1.2.number ≡ other.number) }
{
    thread::join(
        rt,
        move || -> (Item, ReaderSeat<u8>)
            requires { IsReaderOf (identity lanes.now) lanes.now.shape held }
            ensures { IsReaderOf (identity lanes.entry.now) lanes.entry.now.shape result.1 × (result.1.number ≡ held.number) }
        { take_held(lanes, held, gate) },
        move || -> (bool, DoneSeat<u8>, ReaderSeat<u8>)
            requires writer { IsWriterOf (identity lanes.now) lanes.now.shape writer }
            requires reader { IsReaderOf (identity lanes.now) lanes.now.shape other }
            ensures writer { IsWriterOf (identity lanes.entry.now) lanes.entry.now.shape result.1 × (result.1.number ≡ writer.number) }
            ensures reader { IsReaderOf (identity lanes.entry.now) lanes.entry.now.shape result.2 × (result.2.number ≡ other.number) }
        { finish_beside(lanes, writer, other, gate) },
    )
}

/// Asserts that the seats give up a queue of one writer and two readers in which two parts were put.
fn assert_two_gathered(
    rt: &impl Abort,
    alloc: Global,
    lanes: Lanes<u8>,
    done: DoneSeat<u8>,
    mut first: ReaderSeat<u8>,
    second: ReaderSeat<u8>,
) -> Result<(), Fail>
    requires shape { (lanes.shape.writers ≡ 1) × (lanes.shape.readers ≡ 2) }
    requires writer { IsWriterOf (identity lanes) lanes.shape done × (done.number ≡ 0) }
    requires first { IsReaderOf (identity lanes) lanes.shape first × (first.number ≡ 0) }
    requires second { IsReaderOf (identity lanes) lanes.shape second
        × (second.number ≡ 1) }
{
    let end = total(lanes.try_take(&mut first, &NoGate), 0);
    assert!(rt; end == Some(2));
    let all = gathered_by_two(alloc, lanes, done, first, second)?.expect(rt, "finished");
    assert!(rt; all.of(0) == Some(2));
    Ok(())
}

/// Puts the two parts for which there are slots.
fn put_two(rt: &impl Abort, lanes: &Lanes<u8>, writer: &mut WriterSeat<u8>)
    requires { IsWriterOf (identity lanes.now) lanes.now.shape writer.old }
    ensures { IsWriterOf (identity lanes.now) lanes.now.shape writer.new
        × (writer.new.number ≡ writer.old.number) }
{
    let a = lanes.try_put(writer, 40, &NoGate).ok();
    let b = lanes.try_put(writer, 41, &NoGate).ok();
    assert!(rt; a == Some(0) && b == Some(1));
}

/// A queue of one writer and two readers is finished while the first reader is held.
fn assert_finished_past<R: Abort + Threads + Sync>(
    rt: &R,
    alloc: Global,
    queue: Lanes<u8>,
    mut writer: WriterSeat<u8>,
    first: ReaderSeat<u8>,
    second: ReaderSeat<u8>,
) -> Result<(), Fail>
    requires shape { (queue.shape.writers ≡ 1) × (queue.shape.readers ≡ 2) }
    requires writer { IsWriterOf (identity queue) queue.shape writer × (writer.number ≡ 0) }
    requires first { IsReaderOf (identity queue) queue.shape first × (first.number ≡ 0) }
    requires second { IsReaderOf (identity queue) queue.shape second
        × (second.number ≡ 1) }
{
    put_two(rt, &queue, &mut writer);
    let hold = Hold::new(Point::PartClaimed(0, 0, 0));
    let ((item, back), (right, done, other)) = finish_past_a_reader(
        rt, &queue, &hold, writer, first, second,
    );
    assert!(rt; right && !hold.is_spent() && item == Some((0, 0, 40)));
    assert_two_gathered(rt, alloc, queue, done, back, other)
}

#[test]
fn a_queue_is_finished_while_a_reader_holds_its_part(rt: HostRuntime) -> Result<(), Fail> {
    let (queue, mut writers, mut readers) = Lanes::<u8>::new(rt.alloc(), shape!(1, 2, 2))?;
    let second = readers.pop().expect(&rt, "a reader");
    let first = readers.pop().expect(&rt, "a reader");
    let writer = writers.pop().expect(&rt, "a writer");
    assert_finished_past(&rt, rt.alloc(), queue, writer, first, second)
}
