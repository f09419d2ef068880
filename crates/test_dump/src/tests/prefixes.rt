//! Words that share a prefix: the first one, the last one, and one with more pairs than a range should have.
use crate::tests::compared::{assert_direct, assert_dump};
use crate::tests::letters::{equal, push_line};
use crate::tests::listed::{alone, push_thrown, settings};
use kmc_base::Strands;
use kmc_options::Params;
use std::alloc::{AllocError, Global};
use std::process::Abort;
use std::sync::Wait;
use std::test::Fail;
use std::thread::Threads;
use test_support::Dice;

/// The line of the last word of all, which as read stands at two places.
fn push_last_line(text: &mut Vec<u8>, k: usize) -> Result<(), AllocError> {
    push_line(text, b'T', k, "2")
}

/// Asserts that the last word of all, k letters T, is listed where it is the only one.
fn assert_last_alone<R: Abort + Threads + Wait + Sync>(
    rt: &R,
    alloc: Global,
    params: &Params,
) -> Result<(), Fail> {
    let reads = alone(alloc, equal(alloc, b'T', params.k.saturating_add(1))?)?;
    let mut want = Vec::new(alloc);
    push_last_line(&mut want, params.k)?;
    assert_dump(rt, alloc, &reads, params, &want, 1)
}

/// Reads of k + 1 letters T and of k + 2 letters A.
fn reads_of_both(alloc: Global, k: usize) -> Result<Vec<Vec<u8>>, AllocError> {
    let mut reads = alone(alloc, equal(alloc, b'T', k.saturating_add(1))?)?;
    reads.push(equal(alloc, b'A', k.saturating_add(2))?)?;
    Ok(reads)
}

/// Asserts that the first word of all, k letters A, which as read stands at three places, is listed ahead of the last one.
fn assert_both<R: Abort + Threads + Wait + Sync>(
    rt: &R,
    alloc: Global,
    params: &Params,
) -> Result<(), Fail> {
    let reads = reads_of_both(alloc, params.k)?;
    let mut want = Vec::new(alloc);
    push_line(&mut want, b'A', params.k, "3")?;
    push_last_line(&mut want, params.k)?;
    assert_dump(rt, alloc, &reads, params, &want, 2)
}

#[test]
fn the_first_and_the_last_word_are_listed(rt: HostRuntime) -> Result<(), Fail> {
    for k in [1, 2, 6, 7, 31, 32, 33, 64] {
        for threads in [1, 2, 3, 16] {
            let params = settings(k, 255, threads)?.with_strands(Strands::Apart);
            assert_last_alone(&rt, rt.alloc(), &params)?;
            assert_both(&rt, rt.alloc(), &params)?;
        }
    }
    Ok(())
}

/// So many reads that begin with so many letters T, each a word with ten symbols more.
fn crowded(alloc: Global, letters: usize, count: usize) -> Result<Vec<Vec<u8>>, AllocError> {
    let mut dice = Dice { state: 4711 };
    let mut reads = Vec::new(alloc);
    for _ in 0..count {
        let mut read = equal(alloc, b'T', letters)?;
        push_thrown(&mut read, &mut dice, 10)?;
        reads.push(read)?;
    }
    Ok(reads)
}

/// No prefix of up to ten symbols parts these words, and together they are more than a range should have.
#[test]
fn a_crowded_prefix_is_one_range(rt: HostRuntime) -> Result<(), Fail> {
    let reads = crowded(rt.alloc(), 10, 160_000)?;
    let params = settings(20, 255, 2)?.with_strands(Strands::Apart);
    let lines = assert_direct(&rt, rt.alloc(), &reads, &params)?;
    assert!(rt; lines > 131_072);
    Ok(())
}

/// Words that share so many letters T, more than twice as many as a range should have.
fn assert_very_crowded<R: Abort + Threads + Wait + Sync>(
    rt: &R,
    alloc: Global,
    letters: usize,
    threads: usize,
) -> Result<(), Fail> {
    let reads = crowded(alloc, letters, 310_000)?;
    let params = settings(letters.saturating_add(10), 255, threads)?;
    let lines = assert_direct(rt, alloc, &reads, &params.with_strands(Strands::Apart))?;
    assert!(rt; lines > 262_144, "{letters} letters, {threads} threads");
    Ok(())
}

#[test]
fn a_very_crowded_prefix_is_parted(rt: HostRuntime) -> Result<(), Fail> {
    assert_very_crowded(&rt, rt.alloc(), 10, 1)?;
    assert_very_crowded(&rt, rt.alloc(), 11, 3)
}

#[test]
fn a_very_crowded_long_prefix_is_parted(rt: HostRuntime) -> Result<(), Fail> {
    assert_very_crowded(&rt, rt.alloc(), 30, 2)?;
    assert_very_crowded(&rt, rt.alloc(), 54, 2)
}
