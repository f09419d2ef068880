//! The threads: each puts or takes by the calls that wait.
ghost use Rattle.std.specs.Prelude.{◌≡◌, ◌<◌, ℕ, IfOk};
ghost use Rattle.kmc_partqueue.specs.Counts.{Each, total_of, same};
ghost use Rattle.kmc_partqueue.specs.Dealing.{row_from};
ghost use Rattle.kmc_partqueue.specs.Seats.{IsWriterOf, IsReaderOf, new_writer, new_reader};
ghost use Rattle.kmc_partqueue.specs.Queue.{identity};

use crate::parts::seen::{EACH, Seen, WRITERS, part_of};
use kmc_partcore::{Taken, Totals};
use kmc_partqueue::{DoneSeat, Lanes, NoGate, ReaderSeat, WriterSeat, put, take};
use kmc_record::Part;
use std::alloc::{AllocError, Global};
use std::sync::Wait;
use std::thread;
use std::thread::Threads;
use test_support::gathered;

/// Puts all parts of a writer, and completes.
fn put_all<R: Wait>(
    rt: &R,
    alloc: Global,
    lanes: &Lanes<Part>,
    mut seat: WriterSeat<Part>,
    seen: &Seen,
) -> DoneSeat<Part>
    requires { IsWriterOf (identity lanes.now) lanes.now.shape seat }
    ensures { IsWriterOf (identity lanes.now) lanes.now.shape result
        × (result.number ≡ seat.number) }
{
    for number in 0..EACH {
        let Some(part) = part_of(alloc, number) else {
            seen.note_strange();
            break;
        };
        if put(lanes, rt, &mut seat, part, &NoGate).ok() != Some(number) {
            seen.note_strange();
        }
    }
    lanes.complete(seat)
}

/// Takes until it is told that the queue is finished, at most once more than there are parts.
fn take_all<R: Wait>(
    rt: &R,
    lanes: &Lanes<Part>,
    mut seat: ReaderSeat<Part>,
    seen: &Seen,
) -> ReaderSeat<Part>
    requires { IsReaderOf (identity lanes.now) lanes.now.shape seat }
    ensures { IsReaderOf (identity lanes.now) lanes.now.shape result
        × (result.number ≡ seat.number) }
{
    let mut least = [0u64; WRITERS];
    for _ in 0..WRITERS as u64 * EACH + 1 {
        match take(lanes, rt, &mut seat, &NoGate) {
            Taken::Got(part) => seen.came(least.as_mut_slice(), part),
            Taken::Empty => unreachable!(),
            Taken::Finished(totals) => {
                seen.ended(&totals);
                return seat;
            }
        }
    }
    seen.note_strange();
    seat
}

/// A thread for each writer.
fn write<R: Threads + Wait + Sync>(
    rt: &R,
    alloc: Global,
    lanes: &Lanes<Part>,
    seats: Vec<WriterSeat<Part>>,
    seen: &Seen,
) -> Result<Vec<DoneSeat<Part>>, AllocError>
    requires { seats.items ≡ row_from
        (new_writer (identity lanes.now) lanes.now.shape) 0 lanes.now.shape.writers }
    ensures queue { IfOk result (λ v. Each
        (IsWriterOf (identity lanes.now) lanes.now.shape) v.items) }
    ensures numbers { IfOk result (λ v. (w : ℕ) → w < lanes.now.shape.writers
        → total_of (λ s. same s.number w) v.items ≡ 1) }
{
    thread::map_vec(
        rt,
        seats,
        &|seat| -> DoneSeat<Part>
            requires { IsWriterOf (identity lanes.now) lanes.now.shape seat }
            ensures { IsWriterOf (identity lanes.entry.now) lanes.entry.now.shape result
                × (result.number ≡ seat.number) }
        { put_all(rt, alloc, lanes, seat, seen) },
    )
}

/// A thread for each reader.
fn read<R: Threads + Wait + Sync>(
    rt: &R,
    lanes: &Lanes<Part>,
    seats: Vec<ReaderSeat<Part>>,
    seen: &Seen,
) -> Result<Vec<ReaderSeat<Part>>, AllocError>
    requires { seats.items ≡ row_from
        (new_reader (identity lanes.now) lanes.now.shape) 0 lanes.now.shape.readers }
    ensures queue { IfOk result (λ v. Each
        (IsReaderOf (identity lanes.now) lanes.now.shape) v.items) }
    ensures numbers { IfOk result (λ v. (q : ℕ) → q < lanes.now.shape.readers
        → total_of (λ s. same s.number q) v.items ≡ 1) }
{
    thread::map_vec(
        rt,
        seats,
        &|seat| -> ReaderSeat<Part>
            requires { IsReaderOf (identity lanes.now) lanes.now.shape seat }
            ensures { IsReaderOf (identity lanes.entry.now) lanes.entry.now.shape result
                × (result.number ≡ seat.number) }
        { take_all(rt, lanes, seat, seen) },
    )
}

/// All threads run. The totals are those that `gather` answers, where all seats came back and the first reader has seen each
/// lane at its end.
pub fn pass_all<R: Threads + Wait + Sync>(
    rt: &R,
    alloc: Global,
    lanes: Lanes<Part>,
    writers: Vec<WriterSeat<Part>>,
    readers: Vec<ReaderSeat<Part>>,
    seen: &Seen,
) -> Option<Totals>
    requires writers { writers.items
        ≡ row_from (new_writer (identity lanes) lanes.shape) 0 lanes.shape.writers }
    requires readers { readers.items
        ≡ row_from (new_reader (identity lanes) lanes.shape) 0 lanes.shape.readers }
{
    let queue = &lanes;
    let (written, read) = thread::join(
        rt,
        move || -> Result<Vec<DoneSeat<Part>>, AllocError>
            requires { writers.items
                ≡ row_from (new_writer (identity queue.now) queue.now.shape) 0 queue.now.shape.writers }
            ensures queue { IfOk result (λ v. Each
                (IsWriterOf (identity queue.entry.now) queue.entry.now.shape) v.items) }
            ensures numbers { IfOk result (λ v. (w : ℕ) → w < queue.entry.now.shape.writers
                → total_of (λ s. same s.number w) v.items ≡ 1) }
        { write(rt, alloc, queue, writers, seen) },
        move || -> Result<Vec<ReaderSeat<Part>>, AllocError>
            requires { readers.items
                ≡ row_from (new_reader (identity queue.now) queue.now.shape) 0 queue.now.shape.readers }
            ensures queue { IfOk result (λ v. Each
                (IsReaderOf (identity queue.entry.now) queue.entry.now.shape) v.items) }
            ensures numbers { IfOk result (λ v. (q : ℕ) → q < queue.entry.now.shape.readers
                → total_of (λ s. same s.number q) v.items ≡ 1) }
        { read(rt, queue, readers, seen) },
    );
    match (written, read) {
        (Ok(done), Ok(back)) => gathered(lanes, done, back),
        _ => None,
    }
}
