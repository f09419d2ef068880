//! The same dump by any number of threads.
use super::random_reads::some_reads;
use super::*;
use crate::tests::settings::sized;
use crate::tests::texts::direct_dump;
use kmc_count::Limits;

/// Settings for words of k symbols, counted by so many threads.
fn by_threads(rt: &impl Abort, k: usize, threads: usize) -> Params {
    sized(rt, k, 9, 97, 2, threads, Limits::new(1, 1000, 1000))
}

/// Asserts that bins filled in an order that the dice give are counted as this dump.
fn assert_counted<R: Abort + Threads + Wait + Sync>(
    rt: &R,
    alloc: Global,
    dice: &mut Dice,
    reads: &[Vec<u8>],
    params: &Params,
    dump: &[u8],
) {
    let bins = filled_in_any_order(rt, alloc, dice, reads, 7, params.shape());
    let by_bins = counted(rt, alloc, bins, params);
    assert!(rt; by_bins.as_slice() == dump);
}

/// Asserts that any number of threads gives the dump of the direct count. The answer is its number of lines.
fn lines_by_any_threads<R: Abort + Threads + Wait + Sync>(
    rt: &R,
    alloc: Global,
    dice: &mut Dice,
    reads: &[Vec<u8>],
    k: usize,
) -> usize {
    let (direct, lines) = direct_dump(rt, alloc, reads, &by_threads(rt, k, 1));
    for threads in [1, 2, 16] {
        assert_counted(rt, alloc, dice, reads, &by_threads(rt, k, threads), &direct);
    }
    lines
}

#[test]
fn any_number_of_threads_gives_one_list(rt: HostRuntime) {
    let alloc = rt.alloc();
    let mut dice = Dice { state: 12 };
    let reads = some_reads(alloc, &mut dice, 1500, 100).expect(&rt, "memory");
    let mut longest: usize = 0;
    for k in [4, 25, 33] {
        longest = longest.max(lines_by_any_threads(&rt, alloc, &mut dice, &reads, k));
    }
    // long enough for several threads
    assert!(rt; longest > 8192);
}
