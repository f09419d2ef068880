//! Bins filled part by part in any order, and what stage two makes of them, against the direct count of the same reads.
mod any_threads;
mod random_reads;
mod random_texts;
mod refused;
mod small_texts;

use kmc_device::Counted;
use kmc_dump::write_bins;
use kmc_options::Params;
use kmc_partqueue::NoGate;
use kmc_reads::slices_of;
use kmc_record::{Chunk, Part, Shape, parts_of};
use kmc_store::Bins;
use kmc_tool::{stage_one, stage_two};
use std::alloc::{AllocError, Global};
use std::process::Abort;
use std::sync::Wait;
use std::thread::Threads;
use test_support::Dice;

/// Appends a copy of the read to the chunk.
fn push_read(alloc: Global, chunk: &mut Chunk, read: &[u8]) -> Result<(), AllocError> {
    chunk.reads.push(read.to_vec(alloc)?)?;
    Ok(())
}

/// Appends the parts of the chunk, and begins the next chunk.
fn push_parts(
    alloc: Global,
    parts: &mut Vec<Part>,
    chunk: &mut Chunk,
    shape: Shape,
) -> Result<(), AllocError> {
    parts.append(&mut parts_of(alloc, chunk, shape)?)?;
    chunk.reads.clear();
    chunk.number = chunk.number.wrapping_add(1);
    Ok(())
}

/// The parts of the reads, cut into chunks of so many.
fn parts_by(
    rt: &impl Abort,
    alloc: Global,
    reads: &[Vec<u8>],
    batch: usize,
    shape: Shape,
) -> Vec<Part> {
    let mut parts = Vec::new(alloc);
    let mut chunk = Chunk {
        number: 0,
        reads: Vec::new(alloc),
    };
    for read in reads {
        push_read(alloc, &mut chunk, read).expect(rt, "memory");
        if chunk.reads.len() == batch {
            push_parts(alloc, &mut parts, &mut chunk, shape).expect(rt, "memory");
        }
    }
    push_parts(alloc, &mut parts, &mut chunk, shape).expect(rt, "memory");
    parts
}

/// Absorbs the part, for which memory may be refused once.
fn absorb(rt: &impl Abort, bins: &mut Bins, part: Part) {
    assert!(rt; part.shape() == bins.shape());
    match bins.absorb(part) {
        Ok(()) => {}
        Err(part) => {
            assert!(rt; part.shape() == bins.shape());
            assert!(rt; bins.absorb(part).is_ok());
        }
    }
}

/// Bins that have absorbed the parts in an order that the dice give.
fn absorb_in_any_order(
    rt: &impl Abort,
    alloc: Global,
    dice: &mut Dice,
    mut parts: Vec<Part>,
    shape: Shape,
) -> Result<Bins, AllocError> {
    let mut bins = Bins::new(alloc, shape)?;
    for _ in 0..parts.len() {
        if parts.is_empty() {
            return Ok(bins);
        }
        let part = parts.swap_remove(dice.roll(parts.len()));
        absorb(rt, &mut bins, part);
    }
    Ok(bins)
}

/// Bins of the reads, cut into chunks of so many, whose parts came in an order that the dice give.
fn filled_in_any_order(
    rt: &impl Abort,
    alloc: Global,
    dice: &mut Dice,
    reads: &[Vec<u8>],
    batch: usize,
    shape: Shape,
) -> Bins {
    let parts = parts_by(rt, alloc, reads, batch, shape);
    absorb_in_any_order(rt, alloc, dice, parts, shape).expect(rt, "memory")
}

/// The bins that stage one fills.
fn filled<R: Abort + Threads + Wait + Sync>(
    rt: &R,
    alloc: Global,
    reads: &[Vec<u8>],
    params: &Params,
) -> Bins {
    let slices = slices_of(alloc, reads).expect(rt, "memory");
    stage_one(rt, alloc, &slices, params, &NoGate).expect(rt, "memory")
}

/// The dump of what stage two makes of the bins, which must be of the settings' shape.
fn counted<R: Abort + Threads + Wait + Sync>(
    rt: &R,
    alloc: Global,
    bins: Bins,
    params: &Params,
) -> Vec<u8> {
    assert!(rt; bins.shape() == params.shape());
    let lists = stage_two(rt, alloc, bins, params).expect(rt, "memory");
    let mut writer = Counted::new(Vec::new(alloc));
    write_bins(rt, alloc, &mut writer, &lists, params.k, params.counters).expect(rt, "written");
    writer.into_inner()
}
