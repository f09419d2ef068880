//! Bodies with equal records: their packed lists against their plain counts, which unpack each record by itself.

use crate::tests::bodies::{are_plain, has_pairs};
use kmc_base::{Kmer, Strands};
use kmc_count::{Limits, count_bin};
use kmc_lists::{BinLists, SizedLists};
use kmc_stage_two::list_bins;
use std::alloc::{AllocError, Global};
use std::process::Abort;
use std::sync::Wait;
use std::test::Fail;
use std::thread::Threads;
use test_support::Dice;

const LIMITS: Limits = Limits {
    ci: 1,
    cx: 1 << 63,
    cs: 1 << 63,
};

/// Codes that look random.
fn thrown_codes(alloc: Global, dice: &mut Dice, symbols: usize) -> Result<Vec<u8>, AllocError> {
    let mut codes = Vec::with_capacity(alloc, symbols)?;
    for _ in 0..symbols {
        codes.push(dice.roll(4) as u8)?;
    }
    Ok(codes)
}

/// The reverse complement.
fn turned(alloc: Global, codes: &[u8]) -> Result<Vec<u8>, AllocError> {
    let mut other = Vec::with_capacity(alloc, codes.len())?;
    for code in codes.iter().rev() {
        other.push(3u8.saturating_sub(*code))?;
    }
    Ok(other)
}

/// Codes and their reverse complement behind them: a record that is its own reverse complement.
fn palindrome(alloc: Global, dice: &mut Dice, half: usize) -> Result<Vec<u8>, AllocError> {
    let mut codes = thrown_codes(alloc, dice, half)?;
    let other = turned(alloc, &codes)?;
    codes.extend_from_slice(&other)?;
    Ok(codes)
}

/// The record of k to k + 255 codes.
fn record_of(alloc: Global, codes: &[u8], k: usize) -> Result<Vec<u8>, AllocError> {
    let mut record = Vec::new(alloc);
    record.push((codes.len().saturating_sub(k) % 256) as u8)?;
    let mut byte = 0u8;
    for (i, code) in codes.iter().enumerate() {
        byte = byte << 2 | *code;
        if i % 4 == 3 {
            record.push(byte)?;
            byte = 0;
        }
    }
    let left = codes.len() % 4;
    if left > 0 {
        record.push(byte << (8 - 2 * left))?;
    }
    Ok(record)
}

/// Appends so many copies of a record, each third one turned to the other strand.
fn push_copies(
    alloc: Global,
    body: &mut Vec<u8>,
    codes: &[u8],
    k: usize,
    copies: usize,
) -> Result<(), AllocError> {
    let record = record_of(alloc, codes, k)?;
    let other = record_of(alloc, &turned(alloc, codes)?, k)?;
    for copy in 0..copies {
        if copy % 3 == 2 {
            body.extend_from_slice(&other)?;
        } else {
            body.extend_from_slice(&record)?;
        }
    }
    Ok(())
}

/// Records of many lengths, each in several copies: short ones, some that are their own reverse complement, and those that no
/// number of 128 bits holds.
fn repeated_records(alloc: Global, k: usize) -> Result<Vec<u8>, AllocError> {
    let mut dice = Dice { state: 31 };
    let mut body = Vec::new(alloc);
    let most = k.saturating_add(255);
    for copies in [1, 2, 255, 256] {
        for symbols in [k, k.saturating_add(1)] {
            let codes = thrown_codes(alloc, &mut dice, symbols)?;
            push_copies(alloc, &mut body, &codes, k, copies)?;
        }
    }
    for symbols in [60, 61, 62, most] {
        let codes = thrown_codes(alloc, &mut dice, symbols.max(k).min(most))?;
        push_copies(alloc, &mut body, &codes, k, 7)?;
    }
    for half in [k.div_ceil(2), 30, 31] {
        let codes = palindrome(alloc, &mut dice, half.max(k.div_ceil(2)))?;
        push_copies(alloc, &mut body, &codes, k, 4)?;
    }
    Ok(body)
}

/// Asserts that the packed list of a body is its plain count.
fn assert_plain<R: Abort + Threads + Wait + Sync>(
    rt: &R,
    alloc: Global,
    body: Vec<u8>,
    k: usize,
    strands: Strands,
) -> Result<(), Fail> {
    assert!(rt; 1 <= k && k <= 64);
    let pairs = count_bin(alloc, &body, k, strands, &LIMITS);
    let mut plain = Vec::new(alloc);
    plain.push(pairs.ok().ok_or("records")?)?;
    let mut bodies = Vec::new(alloc);
    bodies.push(body)?;
    let lists = list_bins(rt, alloc, bodies, k, strands, &LIMITS, 1);
    let lists = lists.ok().ok_or("records")?;
    let joined = strands == Strands::Joined;
    assert!(rt; are_plain(&lists, &plain), "k {k}, joined {joined}");
    Ok(())
}

/// Asserts the counts of repeated records for words of many lengths.
fn assert_all_plain<R: Abort + Threads + Wait + Sync>(
    rt: &R,
    alloc: Global,
    strands: Strands,
) -> Result<(), Fail> {
    for k in [1, 2, 5, 9, 25, 28, 29, 31, 32, 33, 34, 35, 36, 63, 64] {
        let body = repeated_records(alloc, k)?;
        assert_plain(rt, alloc, body, k, strands)?;
    }
    Ok(())
}

#[test]
fn equal_records_count_as_often_as_they_stand(rt: HostRuntime) -> Result<(), Fail> {
    assert_all_plain(&rt, rt.alloc(), Strands::Joined)
}

#[test]
fn equal_records_of_one_strand_count_as_often_as_they_stand(rt: HostRuntime) -> Result<(), Fail> {
    assert_all_plain(&rt, rt.alloc(), Strands::Apart)
}

/// Asserts the count of a body of so many copies of one record of two words.
fn assert_copies<R: Abort + Threads + Wait + Sync>(
    rt: &R,
    alloc: Global,
    k: usize,
    copies: usize,
) -> Result<(), Fail> {
    let codes = thrown_codes(alloc, &mut Dice { state: 5 }, k.saturating_add(1))?;
    let mut body = Vec::new(alloc);
    push_copies(alloc, &mut body, &codes, k, copies)?;
    assert_plain(rt, alloc, body, k, Strands::Joined)
}

#[test]
fn rows_longer_than_a_weight_are_counted_whole(rt: HostRuntime) -> Result<(), Fail> {
    // the most that the bits beside a word of k symbols hold
    for (k, most) in [
        (25, 1 << 14),
        (28, 256),
        (29, 64),
        (31, 4),
        (32, 1),
        (58, 1 << 12),
        (63, 4),
        (64, 1),
    ] {
        for copies in [most, most + 1, 2 * most + 1] {
            assert_copies(&rt, rt.alloc(), k, copies)?;
        }
    }
    Ok(())
}

/// Appends the fronts of a stretch of 61 codes that have a word, each in up to nine copies and some with another last code: records that
/// begin alike, of all lengths that a number has.
fn push_fronts(
    alloc: Global,
    body: &mut Vec<u8>,
    dice: &mut Dice,
    k: usize,
) -> Result<(), AllocError> {
    let stretch = thrown_codes(alloc, dice, 61)?;
    for symbols in k..62 {
        if let Some(front) = stretch.get(..symbols) {
            let copies = dice.roll(10) as usize;
            push_copies(alloc, body, front, k, copies)?;
            let mut other = Vec::new(alloc);
            other.extend_from_slice(front)?;
            if let Some(last) = other.last_mut() {
                *last = (*last).saturating_add(1) % 4;
            }
            push_copies(alloc, body, &other, k, copies / 3)?;
        }
    }
    Ok(())
}

/// Asserts the counts of records that begin alike.
fn assert_fronts<R: Abort + Threads + Wait + Sync>(
    rt: &R,
    alloc: Global,
    strands: Strands,
) -> Result<(), Fail> {
    let mut dice = Dice { state: 61 };
    for k in [1, 4, 13, 21, 25, 29, 30, 31, 32, 33, 47, 60, 61] {
        let mut body = Vec::new(alloc);
        for _ in 0..3 {
            push_fronts(alloc, &mut body, &mut dice, k)?;
        }
        assert_plain(rt, alloc, body, k, strands)?;
    }
    Ok(())
}

#[test]
fn records_that_begin_alike_are_counted_whole(rt: HostRuntime) -> Result<(), Fail> {
    assert_fronts(&rt, rt.alloc(), Strands::Apart)?;
    assert_fronts(&rt, rt.alloc(), Strands::Joined)
}

#[test]
fn rows_of_bundles_are_counted_whole(rt: HostRuntime) -> Result<(), Fail> {
    // at k 31 an item counts 4 times and a bundle 8, at k 30 16 and 32, at k 32 once and 8
    for k in [30, 31, 32, 64] {
        for copies in 1..70 {
            assert_copies(&rt, rt.alloc(), k, copies)?;
        }
    }
    Ok(())
}

/// The pairs of the words of codes, each with this count, in the order of the words.
fn counted_words(
    alloc: Global,
    codes: &[u8],
    k: usize,
    count: u64,
) -> Result<Vec<(Kmer, u64)>, Fail> {
    let body = record_of(alloc, codes, k)?;
    let mut pairs = Vec::new(alloc);
    for (word, _) in plain_pairs(alloc, &body, k)? {
        pairs.push((word, count))?;
    }
    Ok(pairs)
}

/// The plain count of a body.
fn plain_pairs(alloc: Global, body: &[u8], k: usize) -> Result<Vec<(Kmer, u64)>, Fail> {
    if k < 1 || k > 64 {
        return Err("k out of range".into());
    }
    let pairs = count_bin(alloc, body, k, Strands::Joined, &LIMITS);
    Ok(pairs.ok().ok_or("records")?)
}

/// Asserts the counts of the words of one record that stands so many times.
fn assert_repeated<R: Abort + Threads + Wait + Sync>(
    rt: &R,
    alloc: Global,
    k: usize,
    words: usize,
    copies: usize,
) -> Result<(), Fail> {
    assert!(rt; 1 <= k && k <= 32);
    let symbols = k.saturating_add(words.saturating_sub(1));
    let codes = thrown_codes(alloc, &mut Dice { state: 77 }, symbols)?;
    let mut body = Vec::new(alloc);
    push_copies(alloc, &mut body, &codes, k, copies)?;
    let want = counted_words(alloc, &codes, k, copies as u64)?;
    assert_eq!(rt; want.len(), words);
    let mut bodies = Vec::new(alloc);
    bodies.push(body)?;
    let lists = list_bins(rt, alloc, bodies, k, Strands::Joined, &LIMITS, 1);
    match lists.ok().ok_or("records")? {
        BinLists::Narrow(SizedLists::U64(lists)) => {
            assert_eq!(rt; lists.len(), 1);
            for list in &lists {
                assert!(rt; has_pairs(list, &want));
            }
        }
        _ => return Err("wider or narrower than it should be".into()),
    }
    Ok(())
}

#[test]
fn one_record_a_million_times(rt: HostRuntime) -> Result<(), Fail> {
    assert_repeated(&rt, rt.alloc(), 25, 10, 1_000_000)
}

#[test]
fn a_row_longer_than_the_greatest_weight(rt: HostRuntime) -> Result<(), Fail> {
    assert_repeated(&rt, rt.alloc(), 22, 10, (1 << 20) + 1)
}

#[test]
fn a_full_counter_of_a_short_word_begins_anew(rt: HostRuntime) -> Result<(), Fail> {
    assert_repeated(&rt, rt.alloc(), 9, 1, (1 << 20) + 1)
}

/// Asserts the counts of a body with more words than wait to be added up.
fn assert_many_plain<R: Abort + Threads + Wait + Sync>(
    rt: &R,
    alloc: Global,
    strands: Strands,
) -> Result<(), Fail> {
    for k in [1_usize, 4, 5, 7] {
        let mut dice = Dice { state: 71 };
        let mut body = Vec::new(alloc);
        for _ in 0..700 {
            let codes = thrown_codes(alloc, &mut dice, k.saturating_add(99))?;
            push_copies(alloc, &mut body, &codes, k, 1)?;
        }
        assert_plain(rt, alloc, body, k, strands)?;
    }
    Ok(())
}

#[test]
fn many_short_words_are_added_up_as_they_come(rt: HostRuntime) -> Result<(), Fail> {
    assert_many_plain(&rt, rt.alloc(), Strands::Joined)?;
    assert_many_plain(&rt, rt.alloc(), Strands::Apart)
}

/// Records that are all different.
fn single_records(alloc: Global, dice: &mut Dice, k: usize) -> Result<Vec<u8>, AllocError> {
    let mut body = Vec::new(alloc);
    for _ in 0..40 {
        let codes = thrown_codes(alloc, dice, k.saturating_add(10))?;
        push_copies(alloc, &mut body, &codes, k, 1)?;
    }
    Ok(body)
}

/// Asserts that the lists of bins in a row are their plain counts: behind one of single records equal ones are not looked for.
fn assert_rows_plain<R: Abort + Threads + Wait + Sync>(
    rt: &R,
    alloc: Global,
    k: usize,
) -> Result<(), Fail> {
    assert!(rt; 1 <= k && k <= 64);
    let mut dice = Dice { state: 7 };
    let mut bodies = Vec::new(alloc);
    let mut plain = Vec::new(alloc);
    for bin in 0..18 {
        let body = if bin % 17 == 0 {
            single_records(alloc, &mut dice, k)?
        } else {
            repeated_records(alloc, k)?
        };
        let pairs = count_bin(alloc, &body, k, Strands::Joined, &LIMITS);
        plain.push(pairs.ok().ok_or("records")?)?;
        bodies.push(body)?;
    }
    let lists = list_bins(rt, alloc, bodies, k, Strands::Joined, &LIMITS, 1);
    let lists = lists.ok().ok_or("records")?;
    assert!(rt; are_plain(&lists, &plain), "k {k}");
    Ok(())
}

#[test]
fn bins_behind_one_of_single_records(rt: HostRuntime) -> Result<(), Fail> {
    for k in [9, 25, 33] {
        assert_rows_plain(&rt, rt.alloc(), k)?;
    }
    Ok(())
}
