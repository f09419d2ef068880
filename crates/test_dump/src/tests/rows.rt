//! Dumps by ranges against dumps worked by hand and against the direct count.
use crate::tests::compared::{assert_direct, assert_dump};
use crate::tests::letters::{equal, push_line};
use crate::tests::listed::{alone, settings, thrown, thrown_alone};
use std::alloc::{AllocError, Global};
use std::process::Abort;
use std::sync::Wait;
use std::test::Fail;
use std::thread::Threads;
use test_support::Dice;

/// The numbers of threads that are tried.
const THREADS: [usize; 4] = [1, 2, 3, 16];

/// Asserts that the count of a word of k letters A, which alone the reads have, is shown so up to cs.
fn assert_count<R: Abort + Threads + Wait + Sync>(
    rt: &R,
    alloc: Global,
    reads: &[Vec<u8>],
    k: usize,
    cs: u64,
    count: &str,
) -> Result<(), Fail> {
    let mut want = Vec::new(alloc);
    push_line(&mut want, b'A', k, count)?;
    for threads in THREADS {
        assert_dump(rt, alloc, reads, &settings(k, cs, threads)?, &want, 1)?;
    }
    Ok(())
}

/// How 300 places are shown up to each cs.
const SHOWN: [(u64, &str); 7] = [
    (1, "1"),
    (255, "255"),
    (256, "256"),
    (299, "299"),
    ((1 << 32) - 1, "300"),
    (1 << 32, "300"),
    (1 << 63, "300"),
];

/// Asserts how the count of a word of k letters A is shown that stands at 300 places.
fn assert_counts<R: Abort + Threads + Wait + Sync>(
    rt: &R,
    alloc: Global,
    k: usize,
) -> Result<(), Fail> {
    let reads = alone(alloc, equal(alloc, b'A', k.saturating_add(299))?)?;
    for (cs, count) in SHOWN {
        assert_count(rt, alloc, &reads, k, cs, count)?;
    }
    Ok(())
}

#[test]
fn counts_are_shown_up_to_cs(rt: HostRuntime) -> Result<(), Fail> {
    for k in [1, 31, 32, 33, 64] {
        assert_counts(&rt, rt.alloc(), k)?;
    }
    Ok(())
}

/// Asserts that reads without a word of k symbols have a dump without a line.
fn assert_no_text<R: Abort + Threads + Wait + Sync>(
    rt: &R,
    alloc: Global,
    reads: &[Vec<u8>],
    k: usize,
) -> Result<(), Fail> {
    for threads in THREADS {
        assert_dump(rt, alloc, reads, &settings(k, 255, threads)?, b"", 0)?;
    }
    Ok(())
}

#[test]
fn no_pairs_have_no_text(rt: HostRuntime) -> Result<(), Fail> {
    let alloc = rt.alloc();
    let short = alone(alloc, b"N".to_vec(alloc)?)?;
    for k in [1, 32, 33, 64] {
        assert_no_text(&rt, alloc, &[], k)?;
        assert_no_text(&rt, alloc, &short, k)?;
    }
    Ok(())
}

#[test]
fn words_of_every_prefix_are_in_order(rt: HostRuntime) -> Result<(), Fail> {
    let alloc = rt.alloc();
    // AACC is the reverse complement of GGTT, and ACCG of CGGT.
    let reads = alone(alloc, b"AACCGGTTAA".to_vec(alloc)?)?;
    let want = b"AACC\t2\nACCG\t2\nCCGG\t1\nGTTA\t1\nTTAA\t1\n";
    for threads in THREADS {
        assert_dump(&rt, alloc, &reads, &settings(4, 255, threads)?, want, 5)?;
    }
    Ok(())
}

/// Six random reads.
fn thrown_reads(alloc: Global, dice: &mut Dice) -> Result<Vec<Vec<u8>>, AllocError> {
    let mut reads = Vec::new(alloc);
    for len in [5, 80, 700, 63, 64, 65] {
        reads.push(thrown(alloc, dice, len)?)?;
    }
    Ok(reads)
}

/// Asserts that the dumps of the reads are those of their direct count.
fn assert_dumps<R: Abort + Threads + Wait + Sync>(
    rt: &R,
    alloc: Global,
    reads: &[Vec<u8>],
    k: usize,
) -> Result<(), Fail> {
    for cs in [1, 255, 256, 1 << 32] {
        for threads in THREADS {
            assert_direct(rt, alloc, reads, &settings(k, cs, threads)?)?;
        }
    }
    Ok(())
}

#[test]
fn random_reads_have_the_dump_of_their_direct_count(rt: HostRuntime) -> Result<(), Fail> {
    let mut dice = Dice { state: 31 };
    for k in [1, 2, 6, 7, 11, 31, 32, 33, 64] {
        let reads = thrown_reads(rt.alloc(), &mut dice)?;
        assert_dumps(&rt, rt.alloc(), &reads, k)?;
    }
    Ok(())
}

#[test]
fn several_waves_have_the_dump_of_their_direct_count(rt: HostRuntime) -> Result<(), Fail> {
    let alloc = rt.alloc();
    // three ranges of 128 Ki pairs, the last one short
    let reads = thrown_alone(alloc, &mut Dice { state: 37 }, 280_000)?;
    for (k, threads) in [(14, 1), (14, 2), (40, 2)] {
        let lines = assert_direct(&rt, alloc, &reads, &settings(k, 255, threads)?)?;
        assert!(rt; lines > 2 * 131_072);
    }
    Ok(())
}
