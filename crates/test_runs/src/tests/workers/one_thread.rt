//! What one thread makes of the reads, to compare with.
use super::outcome::Outcome;
use super::records::records_of;
use kmc_partcore::{MAX_WRITERS, QueueShape};
use kmc_reads::slices_of;
use kmc_record::{Part, parts_of_reads};
use kmc_stage_one::Plan;
use kmc_store::Bins;
use std::alloc::Global;
use std::process::Abort;

/// What one thread makes: how many parts are dealt to each writer, and the bins.
#[derive(Drop)]
pub(super) struct Plain {
    dealt: [u64; MAX_WRITERS],
    pub(super) bins: Bins,
}

/// Absorbs the part.
fn absorb(rt: &impl Abort, bins: &mut Bins, part: Part) {
    assert!(rt; part.shape() == bins.shape());
    assert!(rt; bins.absorb(part).is_ok());
}

/// Absorbs the parts of a chunk. The answer is their number.
fn absorb_chunk(
    rt: &impl Abort,
    alloc: Global,
    bins: &mut Bins,
    chunk: &[Vec<u8>],
    number: u64,
) -> u64 {
    let slices = slices_of(alloc, chunk).expect(rt, "memory");
    let parts = parts_of_reads(alloc, number, &slices, bins.shape()).expect(rt, "memory");
    let count = parts.len();
    for part in parts {
        absorb(rt, bins, part);
    }
    count as u64
}

/// Absorbs the parts of each chunk in turn.
pub(super) fn by_one_thread(
    rt: &impl Abort,
    alloc: Global,
    reads: &[Vec<u8>],
    plan: Plan,
    queue: QueueShape,
) -> Plain {
    let mut dealt = [0u64; MAX_WRITERS];
    let mut bins = Bins::new(alloc, plan.shape).expect(rt, "memory");
    for (number, chunk) in reads.chunks(plan.batch).enumerate() {
        let count = absorb_chunk(rt, alloc, &mut bins, chunk, number as u64);
        let writer = number % queue.writers;
        dealt[writer] = dealt[writer].saturating_add(count);
    }
    Plain { dealt, bins }
}

/// Asserts that each writer put the parts that are dealt to it.
pub(super) fn assert_totals(rt: &impl Abort, made: &Outcome, plain: &Plain, queue: QueueShape) {
    for writer in 0..queue.writers {
        assert_eq!(rt;
            made.totals.of(writer),
            Some(plain.dealt[writer]),
            "writer {writer}"
        );
    }
}

/// Asserts that a bin has the same words in both, and bodies of the same length.
fn assert_size(rt: &impl Abort, a: &Bins, b: &Bins, bin: usize) {
    assert!(rt; bin < a.shape().n() && bin < b.shape().n());
    let own = (a.words(bin), a.bin(bin).len());
    let other = (b.words(bin), b.bin(bin).len());
    assert_eq!(rt; own, other, "words and length of bin {bin}");
}

/// Asserts that the bins have the same words, and bodies of the same lengths.
pub(super) fn assert_sizes(rt: &impl Abort, a: &Bins, b: &Bins) {
    assert!(rt; a.shape() == b.shape());
    for bin in 0..a.shape().n() {
        assert_size(rt, a, b, bin);
    }
}

/// Asserts that the bodies have the same records, each of two bytes, in any order.
fn assert_same_records(rt: &impl Abort, alloc: Global, a: &[u8], b: &[u8]) {
    let own = records_of(rt, alloc, a).expect(rt, "memory");
    let other = records_of(rt, alloc, b).expect(rt, "memory");
    assert_eq!(rt; own.as_slice(), other.as_slice());
}

/// Asserts that the bins have the same records, each of two bytes, in any order.
pub(super) fn assert_records(rt: &impl Abort, alloc: Global, a: &Bins, b: &Bins) {
    let (own, other) = (a.bodies(), b.bodies());
    assert!(rt; own.len() == other.len());
    for bin in 0..own.len() {
        assert_same_records(rt, alloc, &own[bin], &other[bin]);
    }
}
