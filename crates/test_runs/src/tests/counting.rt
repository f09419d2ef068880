mod bins;

ghost use Rattle.std.specs.Prelude.{◌≤◌};

use crate::tests::texts::{assert_bytes, text_of, vectors_of};
use kmc_base::{Kmer, Strands};
use kmc_count::{Limits, count_direct};
use std::alloc::Global;
use std::process::Abort;

const MOST: u64 = 1 << 63;

const ALL: Limits = Limits {
    ci: 0,
    cx: MOST,
    cs: MOST,
};

#[test]
fn limits_at_their_edges_are_taken(rt: HostRuntime) {
    assert!(rt; Limits::new(0, 0, 1).is_some());
    assert!(rt; Limits::new(MOST, MOST, MOST).is_some());
    assert!(rt; Limits::new(3, 2, 255).is_some());
}

#[test]
fn limits_past_their_edges_are_refused(rt: HostRuntime) {
    assert!(rt; Limits::new(MOST + 1, 0, 1).is_none());
    assert!(rt; Limits::new(0, MOST + 1, 1).is_none());
    assert!(rt; Limits::new(0, 0, 0).is_none());
    assert!(rt; Limits::new(0, 0, MOST + 1).is_none());
}

#[test]
fn tests_the_limits_before_the_cap(rt: HostRuntime) {
    let limits = Limits::new(2, 200, 100).expect(&rt, "in range");
    let kept = [
        limits.keep(1),
        limits.keep(2),
        limits.keep(100),
        limits.keep(200),
        limits.keep(201),
    ];
    assert_eq!(rt; kept, [None, Some(2), Some(100), Some(100), None]);
}

#[test]
fn counts_two_equal_reads_directly(rt: HostRuntime) {
    let alloc = rt.alloc();
    let read: &[u8] = b"GATTACAGATTACAGATTACACCGGT";
    let reads = vectors_of(alloc, &[read, read]).expect(&rt, "memory");
    let limits = Limits::new(2, 1_000_000_000, 255).expect(&rt, "in range");
    let pairs = count_direct(alloc, &reads, 25, Strands::Joined, &limits).expect(&rt, "memory");
    let dump = b"ACCGGTGTAATCTGTAATCTGTAAT\t2\nCCGGTGTAATCTGTAATCTGTAATC\t2\n";
    assert_bytes(&rt, &text_of(&rt, alloc, &pairs), dump);
}

/// Whether the word has k symbols, all of this code.
fn repeats(word: &Kmer, k: usize, code: u8) -> bool {
    word.k() == k && (0..word.k()).all(|i| word.code_at(i) == code)
}

/// Asserts that the one word of the reads, of k symbols, is counted once and has this code everywhere.
fn assert_one_word(
    rt: &impl Abort,
    alloc: Global,
    reads: &[Vec<u8>],
    k: usize,
    strands: Strands,
    code: u8,
)
    requires some { 1 ≤ k }
    requires most { k ≤ 64 }
{
    let pairs = count_direct(alloc, reads, k, strands, &ALL).expect(rt, "memory");
    assert_eq!(rt; pairs.len(), 1);
    let (word, count) = &pairs[0];
    assert!(rt; *count == 1 && repeats(word, k, code));
}

#[test]
fn counts_one_word_at_each_width(rt: HostRuntime) {
    let alloc = rt.alloc();
    let letters = [b'T'; 64];
    for k in [1, 2, 31, 32, 33, 63, 64] {
        let reads = vectors_of(alloc, &[&letters[..k]]).expect(&rt, "memory");
        assert_one_word(&rt, alloc, &reads, k, Strands::Joined, 0);
        assert_one_word(&rt, alloc, &reads, k, Strands::Apart, 3);
    }
}
