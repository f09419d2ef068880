//! The cut of stretches about as long as the rows that vector code goes through at a time, against each word's own signature.
use crate::tests::given::{assert_number, one_segment};
use kmc_base::{Kmer, MAX_K};
use kmc_split::{MAX_M, Run, Scratch, cut, signature};
use std::alloc::{AllocError, Global};
use std::process::Abort;
use std::test::Fail;

/// A random base, an A in half of all cases, so that many m-mers are forbidden.
fn letter_of(state: u64) -> u8 {
    match state >> 61 {
        4 => b'C',
        5 => b'G',
        6 | 7 => b'T',
        _ => b'A',
    }
}

/// So many random bases.
fn letters_of(alloc: Global, length: usize) -> Result<Vec<u8>, AllocError> {
    let mut letters = Vec::new(alloc);
    let mut state = length as u64;
    for _i in 0..length {
        state = state
            .wrapping_mul(6364136223846793005)
            .wrapping_add(1442695040888963407);
        letters.push(letter_of(state))?;
    }
    Ok(letters)
}

/// Asserts that the word has this signature by itself.
fn assert_signature(rt: &impl Abort, codes: &[u8], m: usize, want: u32) {
    let word = Kmer::new(codes).expect(rt, "a word");
    assert!(rt; 1 <= m && m <= MAX_M && m <= word.k());
    assert!(rt; signature(&word, m).value() == want, "{m}");
}

/// Asserts that the words of the run have its signature by themselves.
fn assert_run(rt: &impl Abort, codes: &[u8], k: usize, m: usize, run: &Run) {
    for i in 0..run.words {
        let place = run.start.saturating_add(i);
        assert!(rt; place <= codes.len() && k <= codes.len() - place);
        assert_signature(rt, &codes[place..place + k], m, run.signature.value());
    }
}

/// Asserts that the runs follow one another over all words, and that each word has its signature by itself.
fn assert_runs_of_words(rt: &impl Abort, codes: &[u8], k: usize, m: usize, runs: &[Run]) {
    let mut place = 0usize;
    for run in runs {
        assert_number(rt, run.start, place);
        assert_run(rt, codes, k, m, run);
        place = place.saturating_add(run.words);
    }
    assert_number(rt, place.saturating_add(k), codes.len().saturating_add(1));
}

/// Asserts that the runs of a cut are those of its words, where the codes have a word.
fn assert_cut(
    rt: &impl Abort,
    alloc: Global,
    letters: &[u8],
    k: usize,
    m: usize,
    scratch: &mut Scratch,
) -> Result<(), AllocError> {
    let segment = one_segment(rt, alloc, letters)?;
    if 1 <= m && m <= MAX_M && m <= k && k <= segment.codes.len() {
        let mut runs = Vec::new(alloc);
        cut(&segment.codes, k, m, scratch, &mut runs)?;
        assert_runs_of_words(rt, &segment.codes, k, m, &runs);
    }
    Ok(())
}

/// Asserts that the cuts by m-mers of each size are right.
fn assert_cuts(
    rt: &impl Abort,
    alloc: Global,
    letters: &[u8],
    k: usize,
    scratch: &mut Scratch,
) -> Result<(), AllocError> {
    for m in 1..MAX_M + 1 {
        assert_cut(rt, alloc, letters, k, m, scratch)?;
    }
    Ok(())
}

/// Asserts that the cuts of so many random bases into words of each size are right.
fn assert_cuts_of_length(
    rt: &impl Abort,
    alloc: Global,
    length: usize,
    scratch: &mut Scratch,
) -> Result<(), AllocError> {
    let letters = letters_of(alloc, length)?;
    for k in 1..MAX_K + 1 {
        assert_cuts(rt, alloc, &letters, k, scratch)?;
    }
    Ok(())
}

#[test]
fn cuts_stretches_of_about_16_and_32_symbols(rt: HostRuntime) -> Result<(), Fail> {
    let mut scratch = Scratch::new(rt.alloc());
    for length in [1, 4, 15, 16, 17, 18, 31, 32, 33, 34, 35] {
        assert_cuts_of_length(&rt, rt.alloc(), length, &mut scratch)?;
    }
    Ok(())
}

#[test]
fn cuts_stretches_of_about_a_multiple_of_16_symbols(rt: HostRuntime) -> Result<(), Fail> {
    let mut scratch = Scratch::new(rt.alloc());
    for length in [129, 128, 127, 97, 96, 81, 80, 79, 65, 64, 63, 49, 48, 47] {
        assert_cuts_of_length(&rt, rt.alloc(), length, &mut scratch)?;
    }
    Ok(())
}
