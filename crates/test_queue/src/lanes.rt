//! Worked calls on one thread: what each answers, from the queue's description.
ghost use Rattle.std.specs.Prelude.{◌≡◌, ◌≤◌, IfOk};
ghost use Rattle.kmc_partqueue.specs.Seats.{IsWriterOf, IsReaderOf};
ghost use Rattle.kmc_partqueue.specs.Queue.{identity};

use kmc_partcore::{QueueShape, Taken, Totals};
use kmc_partqueue::{
    DoneSeat, Lanes, NoGate, ReaderSeat, TryPutError, TryTaken, WriterSeat, put, take,
};
use std::alloc::Global;
use std::process::Abort;
use std::test::Fail;
use test_support::gathered;

/// What a try got, as its writer, number and item.
pub(crate) fn got(taken: TryTaken<u8>) -> Option<(usize, u64, u8)> {
    match taken {
        TryTaken::Got(part) => Some((part.writer, part.number, part.item)),
        TryTaken::NotNow => None,
        TryTaken::Finished(_) => None,
    }
}

pub(crate) fn is_not_now(taken: TryTaken<u8>) -> bool {
    match taken {
        TryTaken::NotNow => true,
        TryTaken::Got(_) => false,
        TryTaken::Finished(_) => false,
    }
}

/// The totals, where the try was answered Finished.
pub(crate) fn totals(taken: TryTaken<u8>) -> Option<Totals> {
    match taken {
        TryTaken::Finished(totals) => Some(totals),
        TryTaken::Got(_) => None,
        TryTaken::NotNow => None,
    }
}

/// The total of a writer, where the try was answered Finished.
pub(crate) fn total(taken: TryTaken<u8>, writer: usize) -> Option<u64> {
    totals(taken)?.of(writer)
}

pub(crate) fn is_full(answer: Result<u64, (TryPutError, u8)>, part: u8) -> bool {
    match answer {
        Err((TryPutError::Full, back)) => back == part,
        Err((TryPutError::NumbersSpent, _)) => false,
        Ok(_) => false,
    }
}

/// The totals as `gather` answers them, of a queue with one writer and one reader.
fn gathered_by_one(
    alloc: Global,
    lanes: Lanes<u8>,
    done: DoneSeat<u8>,
    reader: ReaderSeat<u8>,
) -> Result<Option<Totals>, Fail>
    requires shape { (lanes.shape.writers ≡ 1) × (lanes.shape.readers ≡ 1) }
    requires writer { IsWriterOf (identity lanes) lanes.shape done × (done.number ≡ 0) }
    requires reader { IsReaderOf (identity lanes) lanes.shape reader
        × (reader.number ≡ 0) }
{
    let writers = Vec::from_array(alloc, [done])?;
    let readers = Vec::from_array(alloc, [reader])?;
    Ok(gathered(lanes, writers, readers))
}

/// Asserts that the seats of writer 0 and of reader 0 give up a queue in which so many parts were put.
fn assert_gathered(
    rt: &impl Abort,
    alloc: Global,
    lanes: Lanes<u8>,
    done: DoneSeat<u8>,
    reader: ReaderSeat<u8>,
    count: u64,
) -> Result<(), Fail>
    requires shape { (lanes.shape.writers ≡ 1) × (lanes.shape.readers ≡ 1) }
    requires writer { IsWriterOf (identity lanes) lanes.shape done × (done.number ≡ 0) }
    requires reader { IsReaderOf (identity lanes) lanes.shape reader
        × (reader.number ≡ 0) }
{
    assert!(rt; done.number() == 0 && reader.number() == 0);
    let all = gathered_by_one(alloc, lanes, done, reader)?.expect(rt, "finished");
    assert!(rt; all.of(0) == Some(count));
    Ok(())
}

/// A new queue with one writer, so many slots and one reader, and their seats.
fn queue_of_one(
    rt: &impl Abort,
    alloc: Global,
    per_writer: usize,
) -> Result<(Lanes<u8>, WriterSeat<u8>, ReaderSeat<u8>), Fail>
    requires { (1 ≤ per_writer) × (per_writer ≤ 64) }
    ensures shape { IfOk result (λ q. (q.0.shape.writers ≡ 1) × (q.0.shape.readers ≡ 1)) }
    ensures writer { IfOk result (λ q. IsWriterOf (identity q.0) q.0.shape q.1
        × (q.1.number ≡ 0)) }
    ensures reader { IfOk result (λ q. IsReaderOf (identity q.0) q.0.shape q.2
        × (q.2.number ≡ 0)) }
{
    let (lanes, mut writers, mut readers) = Lanes::<u8>::new(alloc, shape!(1, per_writer, 1))?;
    let writer = writers.pop().expect(rt, "a writer");
    let reader = readers.pop().expect(rt, "a reader");
    Ok((lanes, writer, reader))
}

/// A reader finds nothing until two parts are put, and a third one finds no slot.
fn fill_two_slots(
    rt: &impl Abort,
    lanes: &Lanes<u8>,
    writer: &mut WriterSeat<u8>,
    reader: &mut ReaderSeat<u8>,
)
    requires writer { IsWriterOf (identity lanes.now) lanes.now.shape writer.old }
    requires reader { IsReaderOf (identity lanes.now) lanes.now.shape reader.old }
    ensures writer { IsWriterOf (identity lanes.now) lanes.now.shape writer.new
        × (writer.new.number ≡ writer.old.number) }
    ensures reader { IsReaderOf (identity lanes.now) lanes.now.shape reader.new
        × (reader.new.number ≡ reader.old.number) }
{
    let empty = is_not_now(lanes.try_take(reader, &NoGate));
    let a = lanes.try_put(writer, 7, &NoGate).ok();
    let b = lanes.try_put(writer, 8, &NoGate).ok();
    let full = is_full(lanes.try_put(writer, 9, &NoGate), 9);
    assert!(rt; empty && a == Some(0) && b == Some(1) && full);
}

/// A third part is put where the first one was.
fn put_again(
    rt: &impl Abort,
    lanes: &Lanes<u8>,
    writer: &mut WriterSeat<u8>,
    reader: &mut ReaderSeat<u8>,
)
    requires writer { IsWriterOf (identity lanes.now) lanes.now.shape writer.old }
    requires reader { IsReaderOf (identity lanes.now) lanes.now.shape reader.old }
    ensures writer { IsWriterOf (identity lanes.now) lanes.now.shape writer.new
        × (writer.new.number ≡ writer.old.number) }
    ensures reader { IsReaderOf (identity lanes.now) lanes.now.shape reader.new
        × (reader.new.number ≡ reader.old.number) }
{
    let first = got(lanes.try_take(reader, &NoGate));
    let c = lanes.try_put(writer, 9, &NoGate).ok();
    assert!(rt; first == Some((0, 0, 7)) && c == Some(2) && writer.next_number() == 3);
}

/// The second and the third part are taken, and then the queue is finished, as often as it is asked.
fn take_the_rest(rt: &impl Abort, lanes: &Lanes<u8>, reader: &mut ReaderSeat<u8>)
    requires { IsReaderOf (identity lanes.now) lanes.now.shape reader.old }
    ensures { IsReaderOf (identity lanes.now) lanes.now.shape reader.new
        × (reader.new.number ≡ reader.old.number) }
{
    let second = got(lanes.try_take(reader, &NoGate));
    let third = got(lanes.try_take(reader, &NoGate));
    assert!(rt; second == Some((0, 1, 8)) && third == Some((0, 2, 9)) && !reader.finished());
    let end = total(lanes.try_take(reader, &NoGate), 0);
    let again = total(lanes.try_take(reader, &NoGate), 0);
    assert!(rt; end == Some(3) && again == Some(3) && reader.finished());
}

#[test]
fn three_parts_pass_through_two_slots(rt: HostRuntime) -> Result<(), Fail> {
    let (lanes, mut writer, mut reader) = queue_of_one(&rt, rt.alloc(), 2)?;
    assert!(rt; writer.next_number() == 0);
    fill_two_slots(&rt, &lanes, &mut writer, &mut reader);
    put_again(&rt, &lanes, &mut writer, &mut reader);
    let done = lanes.complete(writer);
    take_the_rest(&rt, &lanes, &mut reader);
    assert_gathered(&rt, rt.alloc(), lanes, done, reader, 3)
}

#[test]
fn a_queue_of_no_parts_is_finished_once_its_writer_completed(rt: HostRuntime) -> Result<(), Fail> {
    let (lanes, writer, mut reader) = queue_of_one(&rt, rt.alloc(), 1)?;
    assert!(rt; writer.number() == 0);
    let done = lanes.complete(writer);
    let end = total(lanes.try_take(&mut reader, &NoGate), 0);
    assert!(rt; end == Some(0));
    assert_gathered(&rt, rt.alloc(), lanes, done, reader, 0)
}

/// What a take that waits gave, or else the total of writer 0.
fn outcome(taken: Taken<u8>) -> (Option<(usize, u64, u8)>, Option<u64>) {
    match taken {
        Taken::Got(part) => (Some((part.writer, part.number, part.item)), None),
        Taken::Empty => (None, None),
        Taken::Finished(totals) => (None, totals.of(0)),
    }
}

#[test]
fn the_calls_that_wait_answer_at_once_where_they_can(rt: HostRuntime) -> Result<(), Fail> {
    let (lanes, mut writer, mut reader) = queue_of_one(&rt, rt.alloc(), 1)?;
    let number = put(&lanes, &rt, &mut writer, 5, &NoGate).ok();
    let first = outcome(take(&lanes, &rt, &mut reader, &NoGate));
    assert!(rt; number == Some(0) && first == (Some((0, 0, 5)), None));
    drop(lanes.complete(writer));
    let last = outcome(take(&lanes, &rt, &mut reader, &NoGate));
    assert!(rt; last == (None, Some(1)));
    Ok(())
}

/// Two lanes that have parts: a reader takes from the one and then from the other.
#[test]
fn a_reader_goes_round_the_lanes(rt: HostRuntime) -> Result<(), Fail> {
    let (lanes, mut writers, mut readers) = Lanes::<u8>::new(rt.alloc(), shape!(2, 2, 1))?;
    let mut reader = readers.pop().expect(&rt, "a reader");
    let mut second = writers.pop().expect(&rt, "a writer");
    let mut first = writers.pop().expect(&rt, "a writer");
    let a = lanes.try_put(&mut first, 5, &NoGate).ok();
    let b = lanes.try_put(&mut first, 6, &NoGate).ok();
    let c = lanes.try_put(&mut second, 7, &NoGate).ok();
    assert!(rt; a == Some(0) && b == Some(1) && c == Some(0));
    let one = got(lanes.try_take(&mut reader, &NoGate)).expect(&rt, "a part");
    let two = got(lanes.try_take(&mut reader, &NoGate)).expect(&rt, "a part");
    assert!(rt; one.0 != two.0);
    Ok(())
}
