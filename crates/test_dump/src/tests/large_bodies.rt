//! Bodies so large that several threads count them together: their packed lists against their plain counts, and their faults.

use crate::tests::bodies::{are_plain, push_record};
use kmc_base::{Kmer, Strands};
use kmc_count::{Limits, count_bin};
use kmc_record::{BodyError, RecordFault};
use kmc_stage_two::list_bins;
use std::alloc::{AllocError, Global};
use std::process::Abort;
use std::sync::Wait;
use std::test::Fail;
use std::thread::Threads;
use test_support::Dice;

pub(crate) const LIMITS: Limits = Limits {
    ci: 1,
    cx: 1 << 63,
    cs: 1 << 63,
};

/// The bytes of a body that threads count together.
pub(crate) const SHARED: usize = 1 << 20;

/// And of one whose words of 12 symbols one thread adds up in a table.
const ADDED_UP: usize = 1 << 21;

/// Records that look random, most of them of one word, again and again: so many bytes or a few more.
pub(crate) fn thrown_body(alloc: Global, k: usize, bytes: usize) -> Result<Vec<u8>, AllocError> {
    let mut dice = Dice { state: 4711 };
    let mut block = Vec::new(alloc);
    for record in 0..3000 {
        let above = if record % 30 == 0 { 15 } else { 0 };
        push_record(&mut block, &mut dice, k, above)?;
    }
    let mut body = Vec::new(alloc);
    for _ in 0..bytes {
        if body.len() >= bytes {
            break;
        }
        body.extend_from_slice(&block)?;
    }
    Ok(body)
}

/// A body between an empty one and a small one.
pub(crate) fn between_others(
    alloc: Global,
    body: &[u8],
    k: usize,
) -> Result<Vec<Vec<u8>>, AllocError> {
    let mut bodies = Vec::new(alloc);
    bodies.push(Vec::new(alloc))?;
    let mut large = Vec::new(alloc);
    large.extend_from_slice(body)?;
    bodies.push(large)?;
    bodies.push(thrown_body(alloc, k, 100)?)?;
    Ok(bodies)
}

/// Asserts that the packed lists of a large body and its neighbours are their plain counts with each number of threads.
fn assert_plain<R: Abort + Threads + Wait + Sync>(
    rt: &R,
    alloc: Global,
    k: usize,
    bytes: usize,
    strands: Strands,
) -> Result<(), Fail> {
    assert!(rt; 1 <= k && k <= 64);
    let body = thrown_body(alloc, k, bytes)?;
    let mut plain: Vec<Vec<(Kmer, u64)>> = Vec::new(alloc);
    for one in &between_others(alloc, &body, k)? {
        let pairs = count_bin(alloc, one, k, strands, &LIMITS);
        plain.push(pairs.ok().ok_or("records")?)?;
    }
    for threads in [1, 2, 3, 4, 7] {
        let bodies = between_others(alloc, &body, k)?;
        let lists = list_bins(rt, alloc, bodies, k, strands, &LIMITS, threads);
        let lists = lists.ok().ok_or("records")?;
        let joined = strands == Strands::Joined;
        assert!(rt;
            are_plain(&lists, &plain),
            "k {k}, joined {joined}, {threads} threads"
        );
    }
    Ok(())
}

#[test]
fn a_large_body_is_counted_as_one_thread_counts_it(rt: HostRuntime) -> Result<(), Fail> {
    for k in [1, 5, 9] {
        assert_plain(&rt, rt.alloc(), k, SHARED, Strands::Joined)?;
        assert_plain(&rt, rt.alloc(), k, SHARED, Strands::Apart)?;
    }
    Ok(())
}

#[test]
fn a_large_body_of_the_longest_short_words(rt: HostRuntime) -> Result<(), Fail> {
    assert_plain(&rt, rt.alloc(), 12, ADDED_UP, Strands::Joined)?;
    assert_plain(&rt, rt.alloc(), 12, ADDED_UP, Strands::Apart)
}

#[test]
fn a_large_body_of_long_words(rt: HostRuntime) -> Result<(), Fail> {
    // beside words of 13 to 22 symbols a weight has 20 bits, beside those of 31 two, and beside those of 32 and 64 none
    for k in [13, 25, 31, 32, 33, 55, 64] {
        assert_plain(&rt, rt.alloc(), k, SHARED, Strands::Joined)?;
    }
    for k in [25, 31, 64] {
        assert_plain(&rt, rt.alloc(), k, SHARED, Strands::Apart)?;
    }
    Ok(())
}

#[test]
fn two_large_bodies_of_a_group(rt: HostRuntime) -> Result<(), Fail> {
    let alloc = rt.alloc();
    let mut plain: Vec<Vec<(Kmer, u64)>> = Vec::new(alloc);
    for bytes in [SHARED, 100, 2 * SHARED] {
        let body = thrown_body(alloc, 21, bytes)?;
        let pairs = count_bin(alloc, &body, 21, Strands::Joined, &LIMITS);
        plain.push(pairs.ok().ok_or("records")?)?;
    }
    for threads in [2, 5] {
        let mut bodies = Vec::new(alloc);
        for bytes in [SHARED, 100, 2 * SHARED] {
            bodies.push(thrown_body(alloc, 21, bytes)?)?;
        }
        let lists = list_bins(&rt, alloc, bodies, 21, Strands::Joined, &LIMITS, threads);
        let lists = lists.ok().ok_or("records")?;
        assert!(rt; are_plain(&lists, &plain), "{threads} threads");
    }
    Ok(())
}

/// Asserts that a damaged body is told so with each number of threads.
fn assert_damaged<R: Abort + Threads + Wait + Sync>(
    rt: &R,
    alloc: Global,
    body: &[u8],
    want: BodyError,
) -> Result<(), Fail> {
    for threads in [0, 1, 2, 3, 4, 7] {
        let bodies = between_others(alloc, body, 5)?;
        let lists = list_bins(rt, alloc, bodies, 5, Strands::Joined, &LIMITS, threads);
        assert!(rt; lists.err() == Some(want), "{want:?}, {threads} threads");
    }
    Ok(())
}

#[test]
fn the_first_fault_of_a_large_body_is_told(rt: HostRuntime) -> Result<(), Fail> {
    let alloc = rt.alloc();
    let front = thrown_body(alloc, 5, SHARED / 3)?;
    let rest = thrown_body(alloc, 5, SHARED)?;
    let mut body = Vec::new(alloc);
    body.extend_from_slice(&front)?;
    // a record of five symbols whose last byte has more than the fifth
    body.extend_from_slice(&[0x00, 0x1b, 0xff])?;
    body.extend_from_slice(&rest)?;
    // and a record at the end that is cut off
    body.extend_from_slice(&[0xff, 0x1b])?;
    let padded = BodyError::Damaged(RecordFault::Padding, front.len());
    assert_damaged(&rt, alloc, &body, padded)?;
    let short = BodyError::Damaged(RecordFault::Short, rest.len());
    let mut body = rest;
    body.extend_from_slice(&[0xff, 0x1b])?;
    assert_damaged(&rt, alloc, &body, short)
}
