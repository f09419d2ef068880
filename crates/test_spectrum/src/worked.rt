//! Texts worked by hand.
use crate::devices::{SOUND, assert_made};
use crate::texts::{FASTA, FASTQ, text_of_a};
use std::alloc::Global;
use std::process::Abort;
use std::sync::Wait;
use std::thread::Threads;

fn gives<T: Abort + Threads + Wait + Sync + Alloc<A = Global>>(
    rt: &T,
    words: &str,
    text: &[u8],
    rows: &str,
) {
    assert_made(rt, words, text, SOUND, Ok(()), rows);
}

#[test]
fn k_mers_are_told_by_their_counts(rt: HostRuntime) {
    for (words, rows) in [
        ("-k4 -ci1", "1\t1\n2\t2\n"),
        ("-k4", "2\t2\n"),
        ("-k4 -ci3", ""),
        ("-k4 -ci1 -cx1", "1\t1\n"),
        ("-k4 -ci1 -cx2", "1\t1\n2\t2\n"),
        ("-k4 -ci1 -cs1", "1\t3\n"),
        ("-k4 -ci2 -cs1", "1\t2\n"),
        ("-k4 -ci1 -b", "1\t3\n2\t1\n"),
        ("-k1 -ci1", "4\t2\n"),
        ("-k1 -ci1 -b", "2\t4\n"),
        ("-k8 -ci1", "1\t1\n"),
        ("-k9 -ci1", ""),
    ] {
        gives(&rt, words, FASTQ, rows);
    }
    gives(&rt, "-fa -k4 -ci1", FASTA, "1\t1\n2\t2\n");
    gives(&rt, "-k4", b"", "");
}

#[test]
fn great_counts_and_long_words_are_told(rt: HostRuntime) {
    let text = text_of_a(rt.alloc(), 1500).expect(&rt, "memory");
    for (words, rows) in [
        ("-fa -k1 -cs9000", "3\t1\n1500\t1\n"),
        ("-fa -k1 -cs1024", "3\t1\n1024\t1\n"),
        ("-fa -k1", "3\t1\n255\t1\n"),
        ("-fa -k31 -ci1 -cs9000", "1\t3\n1470\t1\n"),
        ("-fa -k64 -ci1 -cs9000", "1\t3\n1437\t1\n"),
        ("-fa -k64 -ci1 -cs9000 -b", "1\t3\n1437\t1\n"),
    ] {
        gives(&rt, words, text.as_slice(), rows);
    }
}
