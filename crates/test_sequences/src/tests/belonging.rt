//! Whether all words of a super-k-mer belong to a bin, against the signatures of one word after the other.
use kmc_split::{MAX_M, SuperKmer, signature};
use std::alloc::{AllocError, Global};
use std::process::Abort;
use std::test::Fail;

/// How many bins there are: few, so that words with different signatures often share one.
const BINS: usize = 3;

/// How many places a stretch begins at, so that the least m-mer stands at each place of a word.
const STARTS: usize = 12;

/// So many codes: of one letter, of two in turn, of two at random, of four at random.
fn codes_of(alloc: Global, kind: usize, symbols: usize) -> Result<Vec<u8>, AllocError> {
    let mut codes = Vec::new(alloc);
    let mut state: u64 = 7;
    for i in 0..symbols {
        state = state
            .wrapping_mul(6364136223846793005)
            .wrapping_add(1442695040888963407);
        let random = (state >> 62) as u8;
        codes.push(match kind {
            0 => 0,
            1 => (i % 2) as u8,
            2 => random % 2,
            _ => random,
        })?;
    }
    Ok(codes)
}

/// The bin of each word, by its signature.
fn bins_of_words(
    rt: &impl Abort,
    alloc: Global,
    super_kmer: &SuperKmer,
    m: usize,
) -> Result<Vec<usize>, AllocError> {
    let mut bins = Vec::new(alloc);
    for i in 0..super_kmer.words() {
        assert!(rt; i + super_kmer.k() <= super_kmer.codes().len());
        let word = super_kmer.word_at(i);
        assert!(rt; 1 <= m && m <= MAX_M && m <= word.k());
        bins.push(signature(&word, m).bin(BINS))?;
    }
    Ok(bins)
}

/// Asserts that all words are told to be of a bin where each of them is.
fn assert_judged(
    rt: &impl Abort,
    alloc: Global,
    super_kmer: &SuperKmer,
    m: usize,
) -> Result<(), AllocError> {
    let bins = bins_of_words(rt, alloc, super_kmer, m)?;
    assert!(rt; m <= MAX_M && m <= super_kmer.k());
    for bin in 0..BINS {
        let want = bins.iter().all(|found| *found == bin);
        let made = super_kmer.in_bin(m, BINS, bin);
        assert!(rt;
            made == want,
            "{m} of {}, {} words, in {bin}",
            super_kmer.k(),
            bins.len()
        );
    }
    Ok(())
}

/// The same of each so many words of the codes that stand in a row.
fn assert_stretches(
    rt: &impl Abort,
    alloc: Global,
    codes: &[u8],
    k: usize,
    m: usize,
    words: usize,
) -> Result<(), AllocError> {
    assert!(rt; 1 <= words && words <= 256 && k <= 64);
    let symbols = k + words - 1;
    for start in 0..(codes.len() + 1).saturating_sub(symbols) {
        let stretch = codes[start..start + symbols].to_vec(alloc)?;
        let super_kmer = SuperKmer::new(stretch, k).expect(rt, "a super-k-mer");
        assert_judged(rt, alloc, &super_kmer, m)?;
    }
    Ok(())
}

/// The same of m-mers of words of k, with codes of each kind: of one word, of two, of as many as share places, and of more.
fn assert_lengths(rt: &impl Abort, alloc: Global, k: usize, m: usize) -> Result<(), AllocError> {
    assert!(rt; 1 <= m && m <= k && k <= 64);
    let width = k + 1 - m;
    for kind in 0..4 {
        for words in [1, 2, width, width + 1, 2 * width] {
            let codes = codes_of(alloc, kind, k + words + STARTS)?;
            assert_stretches(rt, alloc, &codes, k, m, words)?;
        }
    }
    Ok(())
}

#[test]
fn judges_as_the_signature_of_each_word(rt: HostRuntime) -> Result<(), Fail> {
    for (k, m) in [
        (1, 1),
        (4, 4),
        (12, 2),
        (12, 3),
        (14, 4),
        (12, 5),
        (15, 6),
        (16, 7),
    ] {
        assert_lengths(&rt, rt.alloc(), k, m)?;
    }
    for (k, m) in [(25, 8), (31, 8), (64, 8), (20, 9), (20, 10), (20, 11)] {
        assert_lengths(&rt, rt.alloc(), k, m)?;
    }
    Ok(())
}

#[test]
fn judges_256_words_of_64_symbols(rt: HostRuntime) -> Result<(), Fail> {
    for kind in 0..4 {
        let codes = codes_of(rt.alloc(), kind, 319)?;
        assert_stretches(&rt, rt.alloc(), &codes, 64, 8, 256)?;
    }
    Ok(())
}
