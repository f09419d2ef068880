//! Reads, the lists that both stages make of them, and their plain dump.
ghost use Rattle.std.specs.Prelude.{IfSome};
ghost use Rattle.kmc_lists.specs.Lists.{lists_of};
ghost use Rattle.kmc_lists.specs.Ordered.{CanBeMerged};

use kmc_count::{Limits, count_direct};
use kmc_device::Counted;
use kmc_dump::{write_bins, write_dump};
use kmc_lists::BinLists;
use kmc_options::Params;
use kmc_partqueue::NoGate;
use kmc_reads::{Format, slices_of};
use kmc_tool::{stage_one, stage_two};
use std::alloc::{AllocError, Global};
use std::process::Abort;
use std::sync::Wait;
use std::test::Fail;
use std::thread::Threads;
use test_support::Dice;

/// Appends so many random symbols.
pub fn push_thrown(read: &mut Vec<u8>, dice: &mut Dice, count: usize) -> Result<(), AllocError> {
    let letters = b"ACGT";
    for _ in 0..count {
        read.push(letters[dice.roll(4)])?;
    }
    Ok(())
}

/// A read of so many symbols.
pub fn thrown(alloc: Global, dice: &mut Dice, len: usize) -> Result<Vec<u8>, AllocError> {
    let mut read = Vec::with_capacity(alloc, len)?;
    push_thrown(&mut read, dice, len)?;
    Ok(read)
}

/// One read.
pub fn alone(alloc: Global, read: Vec<u8>) -> Result<Vec<Vec<u8>>, AllocError> {
    let mut reads = Vec::with_capacity(alloc, 1)?;
    reads.push(read)?;
    Ok(reads)
}

/// One read of so many symbols.
pub fn thrown_alone(
    alloc: Global,
    dice: &mut Dice,
    len: usize,
) -> Result<Vec<Vec<u8>>, AllocError> {
    alone(alloc, thrown(alloc, dice, len)?)
}

/// Limits that list each count, and show it up to cs.
pub fn limits_up_to(cs: u64) -> Result<Limits, Fail> {
    Ok(Limits::new(1, 1 << 63, cs).ok_or("limits in range")?)
}

/// Settings for words of k symbols whose counts are listed from one on and shown up to cs, with so many threads.
pub fn settings(k: usize, cs: u64, threads: usize) -> Result<Params, Fail> {
    let limits = limits_up_to(cs)?;
    Ok(Params::new(Format::Fastq, k, 9, 50, 1, threads, limits).ok_or("settings in range")?)
}

/// The lists of the bins that hold the reads, where no memory is refused.
pub fn listed<R: Abort + Threads + Wait + Sync>(
    rt: &R,
    alloc: Global,
    reads: &[Vec<u8>],
    params: &Params,
) -> Option<BinLists>
    ensures { IfSome result (λ lists. CanBeMerged params.now.k (lists_of lists)) }
{
    let Ok(slices) = slices_of(alloc, reads) else {
        return None;
    };
    let bins = match stage_one(rt, alloc, &slices, params, &NoGate) {
        Ok(bins) => bins,
        Err(_) => return None,
    };
    match stage_two(rt, alloc, bins, params) {
        Ok(lists) => Some(lists),
        Err(_) => None,
    }
}

/// The dump of the reads by ranges, and what the call says of its lines.
pub fn by_ranges<R: Abort + Threads + Wait + Sync>(
    rt: &R,
    alloc: Global,
    reads: &[Vec<u8>],
    params: &Params,
) -> Result<(Vec<u8>, u64), Fail> {
    let Some(lists) = listed(rt, alloc, reads, params) else {
        return Err(Fail::from("out of memory"));
    };
    let mut writer = Counted::new(Vec::new(alloc));
    match write_bins(rt, alloc, &mut writer, &lists, params.k, params.counters) {
        Ok(lines) => Ok((writer.into_inner(), lines)),
        Err(_) => Err(Fail::from("not written")),
    }
}

/// The dump of the direct count of the reads, and its number of lines.
pub fn plain(alloc: Global, reads: &[Vec<u8>], params: &Params) -> Result<(Vec<u8>, u64), Fail> {
    let pairs = count_direct(alloc, reads, params.k, params.strands, &params.limits)?;
    let mut writer = Counted::new(Vec::new(alloc));
    match write_dump(&mut writer, &pairs) {
        Ok(_) => Ok((writer.into_inner(), pairs.len() as u64)),
        Err(_) => Err(Fail::from("not written")),
    }
}
