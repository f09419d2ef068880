//! Refused memory before and in stage two.
use super::*;
use crate::tests::settings::sized;
use kmc_count::Limits;
use kmc_dump::DumpError;

/// The parts of one read, where no growth is refused.
fn parts_of_one(alloc: Global, read: &[u8], shape: Shape) -> Result<Vec<Part>, AllocError> {
    let mut chunk = Chunk {
        number: 0,
        reads: Vec::new(alloc),
    };
    push_read(alloc, &mut chunk, read)?;
    parts_of(alloc, &chunk, shape)
}

/// Bins of one read, where no growth is refused.
fn bins_of_one(rt: &impl Abort, alloc: Global, shape: Shape) -> Result<Bins, AllocError> {
    let parts = parts_of_one(alloc, b"ACGTACGT", shape)?;
    absorb_in_any_order(rt, alloc, &mut Dice { state: 5 }, parts, shape)
}

/// Asserts that the dump was written, or else that memory was refused before the first byte.
fn assert_written_or_refused(rt: &impl Abort, written: Result<u64, DumpError>, wrote: &[u8]) {
    let whole = written == Ok(3) && wrote == b"ACGT\t2\nCGTA\t2\nGTAC\t1\n".as_slice();
    let refused = written == Err(DumpError::Memory) && wrote.is_empty();
    assert!(rt; whole || refused);
}

/// Asserts that the bins are counted and written to the room, or that memory was refused.
fn assert_counted_or_refused<R: Abort + Threads + Wait + Sync>(
    rt: &R,
    alloc: Global,
    bins: Bins,
    room: Vec<u8>,
    params: &Params,
) {
    assert!(rt; bins.shape() == params.shape());
    let mut writer = Counted::new(room);
    if let Ok(lists) = stage_two(rt, alloc, bins, params) {
        let written = write_bins(rt, alloc, &mut writer, &lists, params.k, params.counters);
        assert_written_or_refused(rt, written, &writer.into_inner());
    }
}

/// Passes whichever one allocation is refused: before stage two it ends, and stage two answers want of memory, or what it
/// answers without a refusal.
#[test]
fn refused_memory_is_answered(rt: HostRuntime) {
    let alloc = rt.alloc();
    let params = sized(&rt, 4, 9, 7, 1, 1, Limits::new(1, 1000, 255));
    let Ok(room) = Vec::with_capacity(alloc, 64) else {
        return;
    };
    if let Ok(bins) = bins_of_one(&rt, alloc, params.shape()) {
        assert_counted_or_refused(&rt, alloc, bins, room, &params);
    }
}
