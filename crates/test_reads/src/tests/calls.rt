//! Calls of a feeder, each made once more where memory was refused.
use kmc_reads::{Feeder, Reads, ReadsError};
use std::alloc::{AllocError, Global};

pub(crate) fn feed(feeder: &mut Feeder, block: &[u8]) -> Result<(), ReadsError> {
    match feeder.feed(block) {
        Err(ReadsError::Memory) => feeder.feed(block),
        answer => answer,
    }
}

pub(crate) fn take(alloc: Global, feeder: &mut Feeder) -> Result<Reads, AllocError> {
    match feeder.take(alloc) {
        Err(_) => feeder.take(alloc),
        answer => answer,
    }
}

pub(crate) fn finish(feeder: Feeder) -> Result<Reads, (ReadsError, Feeder)> {
    match feeder.finish() {
        Err((ReadsError::Memory, feeder)) => feeder.finish(),
        answer => answer,
    }
}

pub(crate) fn take_open(
    alloc: Global,
    feeder: &mut Feeder,
    overlap: usize,
) -> Result<Reads, AllocError> {
    match feeder.take_open(overlap, Reads::new(alloc)) {
        Err(_) => feeder.take_open(overlap, Reads::new(alloc)),
        answer => answer,
    }
}
