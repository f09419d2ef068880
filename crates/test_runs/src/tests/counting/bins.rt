//! Bodies written by hand, symbol by symbol, and the pairs that they hold.
ghost use Rattle.std.specs.Prelude.{◌≡◌, ◌≤◌, [], ◌∷◌, map, IfOk};

use crate::tests::texts::{assert_bytes, line_of_a, text_of, vectors_of};
use kmc_base::{Kmer, Strands};
use kmc_count::{Limits, count_bin, merge_bins};
use kmc_lists::{BinLists, KmerList, SizedLists};
use kmc_record::{BodyError, RecordFault};
use kmc_stage_two::list_bins;
use std::alloc::{AllocError, Global};
use std::process::Abort;
use std::sync::Wait;
use std::test::Fail;
use std::thread::Threads;

const LIMITS: Limits = Limits {
    ci: 1,
    cx: 9,
    cs: 9,
};

/// Asserts that the body, counted by words of four symbols, gives this dump.
fn assert_counted(
    rt: &impl Abort,
    alloc: Global,
    body: &[u8],
    strands: Strands,
    limits: &Limits,
    dump: &[u8],
) {
    let pairs = count_bin(alloc, body, 4, strands, limits).expect(rt, "counted");
    assert_bytes(rt, &text_of(rt, alloc, &pairs), dump);
}

#[test]
fn counts_the_words_of_two_records(rt: HostRuntime) {
    let alloc = rt.alloc();
    // CGTA, and TACG behind it.
    let body = [0x00, 0x6c, 0x00, 0xc6];
    assert_counted(&rt, alloc, &body, Strands::Joined, &LIMITS, b"CGTA\t2\n");
    let apart = b"CGTA\t1\nTACG\t1\n";
    assert_counted(&rt, alloc, &body, Strands::Apart, &LIMITS, apart);
}

#[test]
fn tests_the_limits_of_each_word(rt: HostRuntime) {
    // AAAAA has AAAA twice; CCCC stands once, in a record of its own.
    let body = [0x01, 0x00, 0x00, 0x00, 0x55];
    let twice = Limits::new(2, 2, 1).expect(&rt, "in range");
    assert_counted(
        &rt,
        rt.alloc(),
        &body,
        Strands::Joined,
        &twice,
        b"AAAA\t1\n",
    );
}

/// Asserts that the body is damaged so at this place.
fn assert_damaged(
    rt: &impl Abort,
    alloc: Global,
    body: &[u8],
    k: usize,
    fault: RecordFault,
    place: usize,
)
    requires some { 1 ≤ k }
    requires most { k ≤ 64 }
{
    let counted = count_bin(alloc, body, k, Strands::Joined, &LIMITS);
    assert_eq!(rt; counted.err(), Some(BodyError::Damaged(fault, place)));
}

#[test]
fn names_the_first_damaged_record(rt: HostRuntime) {
    let alloc = rt.alloc();
    let short = [0x00, 0x1b, 0x00];
    assert_damaged(&rt, alloc, &short, 4, RecordFault::Short, 2);
    assert_damaged(&rt, alloc, &short, 3, RecordFault::Padding, 0);
    let padded = [0x00, 0x18, 0x00, 0x19];
    assert_damaged(&rt, alloc, &padded, 3, RecordFault::Padding, 2);
}

/// A record of so many bytes behind its first, of one A more than k.
fn record_of_a(alloc: Global, size: usize) -> Result<Vec<u8>, AllocError> {
    let mut body = Vec::new(alloc);
    body.push(0x01)?;
    body.resize(size.saturating_add(1), 0x00)?;
    Ok(body)
}

/// Asserts that the word of k letters A stands at two places of a record of so many bytes behind its first.
fn assert_twice_a(rt: &impl Abort, alloc: Global, k: usize, size: usize)
    requires some { 1 ≤ k }
    requires most { k ≤ 64 }
{
    let body = record_of_a(alloc, size).expect(rt, "memory");
    let pairs = count_bin(alloc, &body, k, Strands::Joined, &LIMITS).expect(rt, "counted");
    let want = line_of_a(rt, alloc, k, 2);
    assert_bytes(rt, &text_of(rt, alloc, &pairs), want.as_bytes());
}

#[test]
fn counts_long_words(rt: HostRuntime) {
    for (k, size) in [(31, 8), (32, 9), (33, 9), (63, 16), (64, 17)] {
        assert_twice_a(&rt, rt.alloc(), k, size);
    }
}

#[test]
fn counts_no_long_word_in_an_empty_body(rt: HostRuntime) {
    let none = count_bin(rt.alloc(), &[], 33, Strands::Joined, &LIMITS);
    assert!(rt; none.expect(&rt, "counted").is_empty());
}

/// The lists of bodies by words of four symbols, and by so many threads.
fn lists_of<R: Abort + Threads + Wait + Sync + Alloc<A = Global>>(
    rt: &R,
    bodies: &[&[u8]],
    threads: usize,
) -> Result<BinLists, BodyError> {
    let alloc = rt.alloc();
    let bodies = vectors_of(alloc, bodies).expect(rt, "memory");
    list_bins(rt, alloc, bodies, 4, Strands::Joined, &LIMITS, threads)
}

/// The lists of words in 64 bits with counts in a byte.
fn narrowest(lists: BinLists) -> Option<Vec<KmerList<u64, u8>>> {
    match lists {
        BinLists::Narrow(SizedLists::U8(lists)) => Some(lists),
        _ => None,
    }
}

/// Asserts that the list has these pairs.
fn assert_pairs(rt: &impl Abort, list: &KmerList<u64, u8>, pairs: &[(u64, u8)]) {
    assert_eq!(rt; list.len(), pairs.len());
    for i in 0..list.len() {
        assert!(rt; Some(&list.get(i)) == pairs.get(i));
    }
}

/// Asserts that the lists are narrow and have these pairs.
fn assert_lists(rt: &impl Abort, lists: BinLists, want: &[&[(u64, u8)]]) {
    let lists = narrowest(lists).expect(rt, "no wider than it should be");
    assert_eq!(rt; lists.len(), want.len());
    for bin in 0..want.len() {
        assert_pairs(rt, &lists[bin], want[bin]);
    }
}

#[test]
fn counts_bins_over_any_number_of_threads(rt: HostRuntime) {
    // CGTA twice; nothing; ACGT; AAAA twice; CCCC
    let bodies: [&[u8]; 5] = [
        &[0x00, 0x6c, 0x00, 0xc6],
        &[],
        &[0x00, 0x1b],
        &[0x01, 0x00, 0x00],
        &[0x00, 0x55],
    ];
    let want: [&[(u64, u8)]; 5] = [&[(0x6c, 2)], &[], &[(0x1b, 1)], &[(0x00, 2)], &[(0x55, 1)]];
    for threads in [0, 1, 2, 16] {
        let lists = lists_of(&rt, &bodies, threads).expect(&rt, "counted");
        assert_lists(&rt, lists, &want);
    }
}

/// Asserts that the first damaged one of four bodies is named, by so many threads.
fn assert_damaged_bin<R: Abort + Threads + Wait + Sync + Alloc<A = Global>>(
    rt: &R,
    threads: usize,
) {
    let bodies: [&[u8]; 4] = [&[0x00, 0x1b], &[0x00, 0x1b, 0x00], &[0x05], &[0x00, 0x1b]];
    let error = lists_of(rt, &bodies, threads).err();
    assert_eq!(rt; error, Some(BodyError::Damaged(RecordFault::Short, 2)));
}

#[test]
fn names_the_first_damaged_bin(rt: HostRuntime) {
    assert_damaged_bin(&rt, 0);
    assert_damaged_bin(&rt, 1);
    assert_damaged_bin(&rt, 2);
    assert_damaged_bin(&rt, 16);
}

/// The lists of three bins: G; none; A and T.
fn lists_of_bins(alloc: Global) -> Result<Vec<Vec<(Kmer, u64)>>, AllocError>
    ensures { IfOk result (λ lists. map (λ l. l.items) lists.items
        ≡ ((2 ∷ [], 3) ∷ []) ∷ [] ∷ ((0 ∷ [], 2) ∷ (3 ∷ [], 1) ∷ []) ∷ []) }
{
    let mut first = Vec::new(alloc);
    first.push((Kmer::of_packed(2, 1), 3))?;
    let mut last = Vec::new(alloc);
    last.push((Kmer::of_packed(0, 1), 2))?;
    last.push((Kmer::of_packed(3, 1), 1))?;
    let mut lists = Vec::new(alloc);
    lists.push(first)?;
    lists.push(Vec::new(alloc))?;
    lists.push(last)?;
    Ok(lists)
}

#[test]
fn merges_the_lists_of_bins(rt: HostRuntime) -> Result<(), Fail> {
    let alloc = rt.alloc();
    let lists = lists_of_bins(alloc)?;
    let pairs = merge_bins(alloc, lists)?;
    assert_bytes(&rt, &text_of(&rt, alloc, &pairs), b"A\t2\nG\t3\nT\t1\n");
    Ok(())
}

#[test]
fn merges_no_lists(rt: HostRuntime) {
    let none = merge_bins(rt.alloc(), Vec::new(rt.alloc()));
    assert!(rt; none.expect(&rt, "memory").is_empty());
}
