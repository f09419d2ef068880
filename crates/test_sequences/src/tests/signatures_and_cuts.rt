//! Signatures and the cut: worked rows, refusals, and a table from an independent program.
mod lengths;
mod rows;

use crate::tests::given::{
    assert_bytes, assert_number, assert_text, field, number, one_segment, same_bytes,
    super_kmer_of, word_of,
};
use kmc_base::MAX_K;
use kmc_split::{MAX_M, Run, Scratch, SuperKmer, allowed, cut, laws, signature, super_kmers};
use rows::rows;
use std::alloc::{AllocError, Global};
use std::process::Abort;
use std::test::Fail;

/// The super-k-mers of the letters.
fn super_kmers_of(
    rt: &impl Abort,
    alloc: Global,
    letters: &[u8],
    k: usize,
    m: usize,
) -> Result<Vec<SuperKmer>, AllocError> {
    let segment = one_segment(rt, alloc, letters)?;
    assert!(rt; 1 <= m && m <= MAX_M && m <= k && k <= MAX_K && k <= segment.codes.len());
    super_kmers(alloc, &segment, k, m)
}

/// The signature of the first word of a super-k-mer.
fn first_signature(rt: &impl Abort, super_kmer: &SuperKmer, m: usize) -> u32 {
    assert!(rt; super_kmer.k() <= super_kmer.codes().len());
    let first = super_kmer.word_at(0);
    assert!(rt; 1 <= m && m <= MAX_M && m <= first.k());
    signature(&first, m).value()
}

/// Writes a number of words and their signature, behind a space where something stands before.
fn push_run(text: &mut String, alloc: Global, words: usize, signature: u32) -> Result<(), Fail> {
    if !text.is_empty() {
        text.push(' ')?;
    }
    text.push_str(format!(in alloc; "{words}:{signature}")?.as_str())?;
    Ok(())
}

/// The super-k-mers of the letters, as the number of words and the signature of the first word of each.
fn super_kmers_text(
    rt: &impl Abort,
    alloc: Global,
    letters: &str,
    k: usize,
    m: usize,
) -> Result<String, Fail> {
    let mut text = String::new(alloc);
    for super_kmer in &super_kmers_of(rt, alloc, letters.as_bytes(), k, m)? {
        let signature = first_signature(rt, super_kmer, m);
        push_run(&mut text, alloc, super_kmer.words(), signature)?;
    }
    Ok(text)
}

/// Asserts that the super-k-mers of the letters are these.
fn assert_super_kmers(
    rt: &impl Abort,
    alloc: Global,
    letters: &str,
    k: usize,
    m: usize,
    want: &str,
) -> Result<(), Fail> {
    assert_text(
        rt,
        super_kmers_text(rt, alloc, letters, k, m)?.as_str(),
        want,
    );
    Ok(())
}

/// The runs of the letters.
fn runs_of(
    rt: &impl Abort,
    alloc: Global,
    letters: &str,
    k: usize,
    m: usize,
    scratch: &mut Scratch,
) -> Result<Vec<Run>, AllocError> {
    let segment = one_segment(rt, alloc, letters.as_bytes())?;
    assert!(rt; 1 <= m && m <= MAX_M && m <= k && k <= segment.codes.len());
    let mut runs = Vec::new(alloc);
    cut(&segment.codes, k, m, scratch, &mut runs)?;
    Ok(runs)
}

/// The runs, each of which begins where the one before ends, as the number of words and the signature of each.
fn runs_text(rt: &impl Abort, alloc: Global, runs: &[Run]) -> Result<String, Fail> {
    let mut text = String::new(alloc);
    let mut place = 0;
    for run in runs {
        assert_number(rt, run.start, place);
        place = place.saturating_add(run.words);
        push_run(&mut text, alloc, run.words, run.signature.value())?;
    }
    Ok(text)
}

/// Asserts that an m-mer may be a signature, or that it may not.
fn assert_allowed(
    rt: &impl Abort,
    alloc: Global,
    letters: &str,
    want: bool,
) -> Result<(), AllocError> {
    let word = word_of(rt, alloc, letters.as_bytes())?;
    assert!(rt; word.k() <= MAX_M);
    assert!(rt; allowed(&word) == want, "{letters}");
    Ok(())
}

#[test]
fn judges_mmers_by_their_canonical_form(rt: HostRuntime) -> Result<(), Fail> {
    for (letters, want) in [
        ("AACCG", true),
        ("CGGTT", true),
        ("AAACC", false),
        ("ACAGG", false),
        ("CAACG", false),
        ("A", true),
        ("C", true),
        ("AA", true),
        ("CG", true),
        ("AAC", true),
        ("AAA", false),
        ("TTT", false),
        ("ACA", false),
        ("CAA", false),
        ("TTA", false),
        ("AACCGTACCGT", true),
        ("AACCGTAACGT", false),
    ] {
        assert_allowed(&rt, rt.alloc(), letters, want)?;
    }
    Ok(())
}

#[test]
fn cuts_where_the_signature_changes(rt: HostRuntime) -> Result<(), Fail> {
    let alloc = rt.alloc();
    assert_super_kmers(&rt, alloc, "AACCGTTAC", 7, 5, "1:22 2:26")?;
    let want = "1:27 1:108 1:177 1:108 1:27";
    assert_super_kmers(&rt, alloc, "ACGTACGT", 4, 4, want)
}

/// Asserts that a super-k-mer has words of k symbols and these codes.
fn assert_super_kmer(rt: &impl Abort, super_kmer: &SuperKmer, k: usize, codes: &[u8]) {
    assert_number(rt, super_kmer.k(), k);
    assert_bytes(rt, super_kmer.codes(), codes);
}

#[test]
fn super_kmers_hold_the_codes_of_their_words(rt: HostRuntime) -> Result<(), Fail> {
    let super_kmers = super_kmers_of(&rt, rt.alloc(), b"AACCGTTAC", 7, 5)?;
    assert!(rt; super_kmers.len() == 2);
    assert_super_kmer(&rt, &super_kmers[0], 7, &[0, 0, 1, 1, 2, 3, 3]);
    assert_super_kmer(&rt, &super_kmers[1], 7, &[0, 1, 1, 2, 3, 3, 0, 1]);
    Ok(())
}

/// How many symbols each super-k-mer has.
fn lengths_of(alloc: Global, super_kmers: &[SuperKmer]) -> Result<Vec<usize>, AllocError> {
    let mut lengths = Vec::new(alloc);
    for super_kmer in super_kmers {
        lengths.push(super_kmer.codes().len())?;
    }
    Ok(lengths)
}

/// Asserts that the super-k-mers of a run of one base have so many symbols.
fn assert_lengths(
    rt: &impl Abort,
    alloc: Global,
    symbols: usize,
    want: &[usize],
) -> Result<(), Fail> {
    let letters = same_bytes(alloc, b'A', symbols)?;
    let super_kmers = super_kmers_of(rt, alloc, &letters, 25, 8)?;
    let lengths = lengths_of(alloc, &super_kmers)?;
    assert!(rt; lengths.as_slice() == want, "{symbols}");
    Ok(())
}

#[test]
fn cuts_after_256_words(rt: HostRuntime) -> Result<(), Fail> {
    let alloc = rt.alloc();
    assert_lengths(&rt, alloc, 280, &[280])?;
    assert_lengths(&rt, alloc, 281, &[280, 25])?;
    assert_lengths(&rt, alloc, 300, &[280, 44])?;
    assert_lengths(&rt, alloc, 536, &[280, 280])?;
    assert_lengths(&rt, alloc, 537, &[280, 280, 25])
}

#[test]
fn cuts_300_equal_symbols_into_256_and_20_words(rt: HostRuntime) -> Result<(), Fail> {
    let letters = String::from_utf8(same_bytes(rt.alloc(), b'A', 300)?);
    let letters = letters.ok().ok_or("letters")?;
    assert_super_kmers(
        &rt,
        rt.alloc(),
        letters.as_str(),
        25,
        9,
        "256:262144 20:262144",
    )
}

#[test]
fn without_symbols_all_words_have_the_signature_0(rt: HostRuntime) -> Result<(), Fail> {
    let segment = one_segment(&rt, rt.alloc(), b"AACCGTTAC")?;
    assert!(rt; 7 <= segment.codes.len());
    let mut scratch = Scratch::new(rt.alloc());
    let mut runs = Vec::new(rt.alloc());
    cut(&segment.codes, 7, 0, &mut scratch, &mut runs)?;
    assert_text(&rt, runs_text(&rt, rt.alloc(), &runs)?.as_str(), "3:0");
    Ok(())
}

#[test]
fn a_word_without_allowed_mmers_has_the_greatest_signature(rt: HostRuntime) -> Result<(), Fail> {
    let word = word_of(&rt, rt.alloc(), b"AAAAAAAAAAAAAAAAAAAAAAAAA")?;
    assert!(rt; word.k() >= 11);
    assert!(rt; signature(&word, 8).value() == 65536);
    assert!(rt; signature(&word, 9).value() == 262144);
    assert!(rt; signature(&word, 9).bin(512) == 0);
    assert!(rt; signature(&word, 11).value() == 4194304);
    Ok(())
}

/// The bin of a word of four symbols, of 7 bins.
fn bin_of_word(rt: &impl Abort, alloc: Global, letters: &[u8]) -> Result<usize, AllocError> {
    let word = word_of(rt, alloc, letters)?;
    assert!(rt; word.k() == 4);
    Ok(signature(&word, 4).bin(7))
}

#[test]
fn bins_are_the_remainders_of_signatures(rt: HostRuntime) -> Result<(), Fail> {
    let alloc = rt.alloc();
    assert_number(&rt, bin_of_word(&rt, alloc, b"ACGT")?, 6);
    assert_number(&rt, bin_of_word(&rt, alloc, b"CGTA")?, 3);
    assert_number(&rt, bin_of_word(&rt, alloc, b"GTAC")?, 2);
    Ok(())
}

#[test]
fn both_strands_have_one_signature(rt: HostRuntime) -> Result<(), Fail> {
    let word = word_of(&rt, rt.alloc(), b"GATTACAGATTACAGATTACACCGGT")?;
    let other = word.rev_comp();
    assert!(rt; word.k() >= 8 && other.k() >= 8);
    assert!(rt; signature(&word, 8).value() == signature(&other, 8).value());
    Ok(())
}

/// Asserts that the runs of the letters are these.
fn assert_runs(
    rt: &impl Abort,
    alloc: Global,
    letters: &str,
    k: usize,
    m: usize,
    scratch: &mut Scratch,
    want: &str,
) -> Result<(), Fail> {
    let runs = runs_of(rt, alloc, letters, k, m, scratch)?;
    assert_text(rt, runs_text(rt, alloc, &runs)?.as_str(), want);
    Ok(())
}

/// Asserts that the letters of a row have its runs, as runs and as super-k-mers.
fn assert_row(
    rt: &impl Abort,
    alloc: Global,
    row: &str,
    scratch: &mut Scratch,
) -> Result<(), Fail> {
    let (k, m) = (number(row, 0)?, number(row, 1)?);
    let (letters, want) = (field(row, 2)?, field(row, 3)?);
    assert_runs(rt, alloc, letters, k, m, scratch, want)?;
    assert_super_kmers(rt, alloc, letters, k, m, want)
}

#[test]
fn agrees_with_the_model(rt: HostRuntime) -> Result<(), Fail> {
    let mut scratch = Scratch::new(rt.alloc());
    assert_number(&rt, rows().lines().count(), 52);
    for row in rows().lines() {
        assert_row(&rt, rt.alloc(), row, &mut scratch)?;
    }
    Ok(())
}

/// Asserts that so many equal codes are a super-k-mer, or that they are not.
fn assert_is_super_kmer(
    rt: &impl Abort,
    alloc: Global,
    (code, length): (u8, usize),
    k: usize,
    want: bool,
) -> Result<(), AllocError> {
    let codes = same_bytes(alloc, code, length)?;
    assert!(rt;
        SuperKmer::new(codes, k).is_some() == want,
        "{length} codes at {k}"
    );
    Ok(())
}

#[test]
fn super_kmers_have_k_to_k_and_255_symbols(rt: HostRuntime) -> Result<(), Fail> {
    for (codes, k, want) in [
        ((3, 64), 64, true),
        ((3, 319), 64, true),
        ((3, 320), 64, false),
        ((3, 63), 64, false),
        ((3, 65), 65, false),
        ((0, 256), 1, true),
        ((0, 257), 1, false),
        ((0, 5), 0, false),
        ((4, 10), 7, false),
    ] {
        assert_is_super_kmer(&rt, rt.alloc(), codes, k, want)?;
    }
    Ok(())
}

/// Whether the words of 7 of the letters are all in this bin of 7.
fn is_in_bin(
    rt: &impl Abort,
    alloc: Global,
    letters: &str,
    bin: usize,
) -> Result<bool, AllocError> {
    let super_kmer = super_kmer_of(rt, alloc, letters.as_bytes(), 7)?;
    assert!(rt; super_kmer.k() == 7);
    Ok(super_kmer.in_bin(5, 7, bin))
}

#[test]
fn asks_for_bins_of_signatures_of_no_symbols_and_of_nine(rt: HostRuntime) -> Result<(), Fail> {
    let super_kmer = super_kmer_of(&rt, rt.alloc(), b"AAAAAAAAAAAAAAAAAAAAAAAAAA", 25)?;
    assert!(rt; super_kmer.k() == 25);
    for (m, bin, want) in [
        (0, 0, true),
        (0, 1, false),
        (8, 0, true),
        (8, 511, false),
        (9, 0, true),
        (9, 511, false),
    ] {
        let all = super_kmer.in_bin(m, 512, bin);
        assert!(rt; all == want, "{m} in {bin}");
    }
    Ok(())
}

#[test]
fn asks_each_word_for_its_bin(rt: HostRuntime) -> Result<(), Fail> {
    // signatures 22, 26 and 26, in the bins 1, 5 and 5 of 7
    for (letters, bin, want) in [
        ("AACCGTT", 1, true),
        ("ACCGTTAC", 5, true),
        ("ACCGTTAC", 1, false),
        ("AACCGTTAC", 1, false),
        ("AACCGTTAC", 5, false),
    ] {
        let all = is_in_bin(&rt, rt.alloc(), letters, bin)?;
        assert!(rt; all == want, "{letters} in {bin}");
    }
    Ok(())
}

#[test]
fn laws_can_be_called() {
    laws::signature_fits();
    laws::strands_share_signature();
    laws::canonical_fixes_signature();
    laws::cut_exists();
    laws::cut_is_unique();
    laws::cut_keeps_words();
    laws::cut_has_runs();
}
