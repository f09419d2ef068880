//! The workers one after the other, on one thread: what a run must not be.
ghost use Rattle.std.specs.Prelude.{◌≡◌};
ghost use Rattle.kmc_partqueue.specs.Dealing.{row_from};
ghost use Rattle.kmc_partqueue.specs.Seats.{IsReaderOf, IsWriterOf, new_writer, new_reader};
ghost use Rattle.kmc_partqueue.specs.Queue.{identity};

use kmc_partcore::QueueShape;
use kmc_partqueue::{Gate, Lanes, Point, ReaderSeat, TryTaken, WriterSeat};
use kmc_reads::slices_of;
use kmc_record::{Part, Shape, parts_of_reads};
use std::alloc::Global;
use std::process::Abort;

/// The parts of a read, put by one splitter, which then completes.
fn put_parts<G: Gate>(
    rt: &impl Abort,
    alloc: Global,
    lanes: &Lanes<Part>,
    mut seat: WriterSeat<Part>,
    read: &[Vec<u8>],
    shape: Shape,
    gate: &G,
)
    requires { IsWriterOf (identity lanes.now) lanes.now.shape seat }
{
    let slices = slices_of(alloc, read).expect(rt, "memory");
    let parts = parts_of_reads(alloc, 0, &slices, shape).expect(rt, "memory");
    for part in parts {
        gate.pass(Point::BeforePut(seat.number(), seat.next_number()));
        assert!(rt; lanes.try_put(&mut seat, part, gate).is_ok());
    }
    lanes.complete(seat);
}

/// Tries until nothing is left to take.
fn take_parts<G: Gate>(lanes: &Lanes<Part>, mut seat: ReaderSeat<Part>, gate: &G)
    requires { IsReaderOf (identity lanes.now) lanes.now.shape seat }
{
    'tries: for _ in 0..100 {
        match lanes.try_take(&mut seat, gate) {
            TryTaken::Got(_) => {}
            TryTaken::NotNow | TryTaken::Finished(_) => return,
        }
    }
}

/// The splitters of two writers, one read each.
fn split_in_turn<G: Gate>(
    rt: &impl Abort,
    alloc: Global,
    lanes: &Lanes<Part>,
    mut seats: Vec<WriterSeat<Part>>,
    reads: &[Vec<u8>],
    shape: Shape,
    gate: &G,
)
    requires queue { lanes.now.shape.writers ≡ 2 }
    requires seats { seats.items ≡ row_from
        (new_writer (identity lanes.now) lanes.now.shape) 0 2 }
{
    assert!(rt; reads.len() == 2);
    let second = seats.pop().expect(rt, "a writer");
    let first = seats.pop().expect(rt, "a writer");
    put_parts(rt, alloc, lanes, first, &reads[..1], shape, gate);
    put_parts(rt, alloc, lanes, second, &reads[1..], shape, gate);
}

/// The storers of two readers.
fn store_in_turn<G: Gate>(
    rt: &impl Abort,
    lanes: &Lanes<Part>,
    mut seats: Vec<ReaderSeat<Part>>,
    gate: &G,
)
    requires { seats.items ≡ row_from
        (new_reader (identity lanes.now) lanes.now.shape) 0 2 }
{
    let second = seats.pop().expect(rt, "a reader");
    let first = seats.pop().expect(rt, "a reader");
    take_parts(lanes, first, gate);
    take_parts(lanes, second, gate);
}

/// Two splitters of one read each, and then two storers. The queue has room for eight parts of each writer.
pub(super) fn pass_in_turn<G: Gate>(
    rt: &impl Abort,
    alloc: Global,
    reads: &[Vec<u8>],
    shape: Shape,
    gate: &G,
) {
    let queue = QueueShape {
        writers: 2,
        per_writer: 8,
        readers: 2,
    };
    let (lanes, writers, readers) = Lanes::<Part>::new(alloc, queue).expect(rt, "memory");
    split_in_turn(rt, alloc, &lanes, writers, reads, shape, gate);
    store_in_turn(rt, &lanes, readers, gate);
}
