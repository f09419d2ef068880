//! Dumps by ranges against what they should be.
use crate::tests::listed::{by_ranges, plain};
use kmc_options::Params;
use std::alloc::Global;
use std::process::Abort;
use std::sync::Wait;
use std::test::Fail;
use std::thread::Threads;

/// Asserts that this is the dump of the reads by ranges, and that it has so many lines.
pub fn assert_dump<R: Abort + Threads + Wait + Sync>(
    rt: &R,
    alloc: Global,
    reads: &[Vec<u8>],
    params: &Params,
    want: &[u8],
    wanted: u64,
) -> Result<(), Fail> {
    let (text, lines) = by_ranges(rt, alloc, reads, params)?;
    assert!(rt;
        text.as_slice() == want && lines == wanted,
        "k {}, up to {}, {} threads",
        params.k,
        params.limits.cs,
        params.counters
    );
    Ok(())
}

/// Asserts that the dump of the reads by ranges is that of their direct count, and hands back its number of lines.
pub fn assert_direct<R: Abort + Threads + Wait + Sync>(
    rt: &R,
    alloc: Global,
    reads: &[Vec<u8>],
    params: &Params,
) -> Result<u64, Fail> {
    let (direct, wanted) = plain(alloc, reads, params)?;
    assert_dump(rt, alloc, reads, params, &direct, wanted)?;
    Ok(wanted)
}
