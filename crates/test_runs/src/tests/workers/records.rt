//! The records of a bin, in an order that does not depend on which part came first.
use super::outcome::Outcome;
use kmc_store::Bins;
use std::alloc::{AllocError, Global};
use std::process::Abort;

/// The records of a body in which each has two bytes, as numbers, in rising order.
pub(super) fn records_of(
    rt: &impl Abort,
    alloc: Global,
    body: &[u8],
) -> Result<Vec<u16>, AllocError> {
    let mut records = Vec::new(alloc);
    for pair in body.chunks(2) {
        assert!(rt; pair.len() == 2);
        records.push(u16::from(pair[0]) * 256 + u16::from(pair[1]))?;
    }
    records.sort()?;
    Ok(records)
}

/// Asserts that the bin has these records, in any order, of so many words.
pub(super) fn assert_bin(
    rt: &impl Abort,
    alloc: Global,
    bins: &Bins,
    bin: usize,
    records: &[u16],
    words: u64,
) -> Result<(), AllocError> {
    assert!(rt; bin < bins.shape().n());
    let found = records_of(rt, alloc, bins.bin(bin))?;
    assert_eq!(rt; (found.as_slice(), bins.words(bin)), (records, words));
    Ok(())
}

/// Asserts that two writers put three parts each, and that the bins hold the records of `TWICE`.
pub(super) fn assert_twice(
    rt: &impl Abort,
    alloc: Global,
    outcome: &Outcome,
) -> Result<(), AllocError> {
    let totals = &outcome.totals;
    assert_eq!(rt;
        [totals.of(0), totals.of(1), totals.of(2)],
        [Some(3), Some(3), None]
    );
    assert_twice_in(rt, alloc, &outcome.bins)
}

/// Asserts that the bins hold the records of `TWICE`.
pub fn assert_twice_in(rt: &impl Abort, alloc: Global, bins: &Bins) -> Result<(), AllocError> {
    assert_eq!(rt; bins.shape().n(), 7);
    for bin in [0, 1, 4, 5] {
        assert_bin(rt, alloc, bins, bin, &[], 0)?;
    }
    assert_bin(rt, alloc, bins, 2, &[0x00B1, 0x00B1], 2)?;
    assert_bin(rt, alloc, bins, 3, &[0x006C, 0x006C, 0x00C6, 0x00C6], 4)?;
    assert_bin(rt, alloc, bins, 6, &[0x001B, 0x001B, 0x001B, 0x001B], 4)
}
