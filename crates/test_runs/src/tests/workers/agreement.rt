//! Any number of threads fills the bins as one thread does.
use super::one_thread::{Plain, assert_records, assert_sizes, assert_totals, by_one_thread};
use super::outcome::{Outcome, passed};
use super::reads_of;
use kmc_partcore::QueueShape;
use kmc_partqueue::NoGate;
use kmc_record::Shape;
use kmc_stage_one::Plan;
use std::alloc::{AllocError, Global};
use std::process::Abort;
use std::sync::Wait;
use std::thread::Threads;
use test_support::Dice;

/// What threads and what one thread make of the reads: the same totals, and bins of the same sizes.
fn both_ways<R: Abort + Threads + Wait + Sync>(
    rt: &R,
    alloc: Global,
    reads: &[Vec<u8>],
    plan: &Plan,
    queue: &QueueShape,
) -> (Outcome, Plain) {
    let made = passed(rt, alloc, reads, *plan, *queue, &NoGate);
    let plain = by_one_thread(rt, alloc, reads, *plan, *queue);
    assert_totals(rt, &made, &plain, *queue);
    assert_sizes(rt, &made.bins, &plain.bins);
    (made, plain)
}

/// Asserts that words of four symbols come to the same of so many bins by threads as by one thread.
fn assert_records_by<R: Abort + Threads + Wait + Sync>(
    rt: &R,
    alloc: Global,
    text: &str,
    n: usize,
    queue: Option<QueueShape>,
) {
    let reads = reads_of(alloc, text).expect(rt, "memory");
    let shape = Shape::new(4, 5, n).expect(rt, "a shape");
    let plan = Plan { shape, batch: 1 };
    let queue = queue.expect(rt, "a queue");
    let (made, plain) = both_ways(rt, alloc, &reads, &plan, &queue);
    assert_records(rt, alloc, &made.bins, &plain.bins);
}

#[test]
fn any_queue_gives_the_bins_of_one_thread(rt: HostRuntime) {
    let alloc = rt.alloc();
    for text in ["ACGTACGT", "ACGTNACGT", "ACGTACGT,ACGTNACGT"] {
        assert_records_by(&rt, alloc, text, 1, QueueShape::new(1, 1, 1));
        assert_records_by(&rt, alloc, text, 7, QueueShape::new(3, 1, 2));
        assert_records_by(&rt, alloc, text, 2000, QueueShape::new(16, 64, 8));
    }
}

/// A read of up to 40 symbols, of which some are no bases.
fn some_read(alloc: Global, dice: &mut Dice) -> Result<Vec<u8>, AllocError> {
    let letters = b"ACGTacgtAN";
    let mut read = Vec::new(alloc);
    for _ in 0..dice.roll(41) {
        read.push(letters[dice.roll(10)])?;
    }
    Ok(read)
}

/// So many reads of up to 40 symbols.
fn some_reads(alloc: Global, dice: &mut Dice, count: usize) -> Result<Vec<Vec<u8>>, AllocError> {
    let mut reads = Vec::new(alloc);
    for _ in 0..count {
        reads.push(some_read(alloc, dice)?)?;
    }
    Ok(reads)
}

#[test]
fn more_parts_than_slots_come_to_the_bins_of_one_thread(rt: HostRuntime) {
    let alloc = rt.alloc();
    let reads = some_reads(alloc, &mut Dice { state: 5 }, 300).expect(&rt, "memory");
    let shape = Shape::new(6, 5, 11).expect(&rt, "a shape");
    let queue = QueueShape::new(3, 1, 2).expect(&rt, "a queue");
    both_ways(&rt, alloc, &reads, &Plan { shape, batch: 1 }, &queue);
    both_ways(&rt, alloc, &reads, &Plan { shape, batch: 7 }, &queue);
}
