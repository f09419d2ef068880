//! Packed lists of random bodies against the plain counts of the same bodies.
ghost use Rattle.std.specs.Prelude.{◌≤◌};

use crate::tests::listed::limits_up_to;
use kmc_base::{Kmer, PackedKmer, Strands};
use kmc_count::{Limits, count_bin};
use kmc_lists::{BinLists, CountWidth, KmerList, SizedLists};
use kmc_stage_two::list_bins;
use std::alloc::{AllocError, Global};
use std::process::Abort;
use std::sync::Wait;
use std::test::Fail;
use std::thread::Threads;
use test_support::Dice;

/// A byte of four symbols, of which only the first so many are no zeros.
fn thrown_byte(dice: &mut Dice, left: usize) -> u8 {
    let mut byte = 0u8;
    for place in 0..4 {
        // two letters alone, so that words come again
        let code = if place < left { dice.roll(2) } else { 0 };
        byte = byte << 2 | code as u8;
    }
    byte
}

/// Appends a record of so many symbols above k, with zeros behind the last.
pub(crate) fn push_record(
    body: &mut Vec<u8>,
    dice: &mut Dice,
    k: usize,
    above: u8,
) -> Result<(), AllocError> {
    body.push(above)?;
    let mut left = k.saturating_add(usize::from(above));
    for _ in 0..left.div_ceil(4) {
        body.push(thrown_byte(dice, left))?;
        left = left.saturating_sub(4);
    }
    Ok(())
}

/// Seven bodies of up to 40 records, two of them empty.
fn thrown_bodies(alloc: Global, dice: &mut Dice, k: usize) -> Result<Vec<Vec<u8>>, AllocError> {
    let mut bodies = Vec::new(alloc);
    for records in [5, 0, 40, 1, 17, 0, 3] {
        let mut body = Vec::new(alloc);
        for _ in 0..records {
            let above = dice.roll(4) as u8 * 5;
            push_record(&mut body, dice, k, above)?;
        }
        bodies.push(body)?;
    }
    Ok(bodies)
}

/// The number that packs the codes of a word, the first highest.
fn packed(word: &Kmer) -> u128 {
    let mut number = 0u128;
    for i in 0..word.k() {
        number = number << 2 | u128::from(word.code_at(i));
    }
    number
}

/// Whether the pairs of a list are these.
pub(crate) fn has_pairs<W: PackedKmer + Drop, C: CountWidth + Drop>(
    list: &KmerList<W, C>,
    pairs: &[(Kmer, u64)],
) -> bool {
    if list.len() != pairs.len() {
        return false;
    }
    for (i, (word, count)) in pairs.iter().enumerate() {
        if i >= list.len() {
            return false;
        }
        let pair = list.get(i);
        if pair.0.to_u128() != packed(word) || pair.1.to_u64() != *count {
            return false;
        }
    }
    true
}

/// Whether the lists are these, pair by pair.
pub(crate) fn are_same<W: PackedKmer + Drop, C: CountWidth + Drop>(
    lists: &[KmerList<W, C>],
    plain: &[Vec<(Kmer, u64)>],
) -> bool {
    if lists.len() != plain.len() {
        return false;
    }
    for (list, pairs) in lists.iter().zip(plain) {
        if !has_pairs(list, pairs) {
            return false;
        }
    }
    true
}

/// The same of lists of any width.
pub(crate) fn are_plain(lists: &BinLists, plain: &[Vec<(Kmer, u64)>]) -> bool {
    match lists {
        BinLists::Narrow(SizedLists::U8(lists)) => are_same(lists, plain),
        BinLists::Narrow(SizedLists::U32(lists)) => are_same(lists, plain),
        BinLists::Narrow(SizedLists::U64(lists)) => are_same(lists, plain),
        BinLists::Wide(SizedLists::U8(lists)) => are_same(lists, plain),
        BinLists::Wide(SizedLists::U32(lists)) => are_same(lists, plain),
        BinLists::Wide(SizedLists::U64(lists)) => are_same(lists, plain),
    }
}

/// The plain counts of the bodies.
fn plain_lists(
    alloc: Global,
    bodies: &[Vec<u8>],
    k: usize,
    limits: &Limits,
) -> Result<Vec<Vec<(Kmer, u64)>>, Fail>
    requires { (1 ≤ k) × (k ≤ 64) }
{
    let mut plain = Vec::new(alloc);
    for body in bodies {
        let pairs = count_bin(alloc, body, k, Strands::Joined, limits);
        plain.push(pairs.ok().ok_or("records")?)?;
    }
    Ok(plain)
}

/// The packed lists of the bodies.
fn packed_lists<R: Threads + Wait + Sync>(
    rt: &R,
    alloc: Global,
    bodies: Vec<Vec<u8>>,
    k: usize,
    limits: &Limits,
    threads: usize,
) -> Result<BinLists, Fail>
    requires { (1 ≤ k) × (k ≤ 64) }
{
    let lists = list_bins(rt, alloc, bodies, k, Strands::Joined, limits, threads);
    Ok(lists.ok().ok_or("records")?)
}

/// Asserts that the packed lists of random bodies are their plain counts.
fn assert_lists<R: Abort + Threads + Wait + Sync>(
    rt: &R,
    alloc: Global,
    k: usize,
    limits: &Limits,
    threads: usize,
) -> Result<(), Fail> {
    assert!(rt; 1 <= k && k <= 64);
    let bodies = thrown_bodies(alloc, &mut Dice { state: 1234567 }, k)?;
    let plain = plain_lists(alloc, &bodies, k, limits)?;
    let lists = packed_lists(rt, alloc, bodies, k, limits, threads)?;
    assert!(rt;
        are_plain(&lists, &plain),
        "k {k}, up to {}, {threads} threads",
        limits.cs
    );
    Ok(())
}

/// Asserts that packed lists are the plain counts with each number of threads.
fn assert_all_lists<R: Abort + Threads + Wait + Sync>(
    rt: &R,
    alloc: Global,
    k: usize,
    cs: u64,
) -> Result<(), Fail> {
    let limits = limits_up_to(cs)?;
    for threads in [0, 1, 2, 3, 16] {
        assert_lists(rt, alloc, k, &limits, threads)?;
    }
    Ok(())
}

#[test]
fn lists_are_the_plain_counts_of_their_bodies(rt: HostRuntime) -> Result<(), Fail> {
    for k in [1, 3, 8, 31, 32, 33, 64] {
        for cs in [1, 2, 255, 256, 1 << 32, 1 << 63] {
            assert_all_lists(&rt, rt.alloc(), k, cs)?;
        }
    }
    Ok(())
}
