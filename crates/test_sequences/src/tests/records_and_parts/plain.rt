//! The parts of reads by a plain body.
use crate::tests::given::{chunk_of, push_bin};
use kmc_base::{Segment, segments};
use kmc_record::{Shape, encode};
use kmc_split::{SuperKmer, signature, super_kmers};
use std::alloc::{AllocError, Global};
use std::process::Abort;
use std::test::Fail;

/// The records of a bin and the number of their words.
#[derive(Drop)]
struct Gathered {
    body: Vec<u8>,
    words: u64,
}

/// So many bins without a record.
fn empty_bins(alloc: Global, n: usize) -> Result<Vec<Gathered>, AllocError> {
    let mut bins = Vec::new(alloc);
    for _ in 0..n {
        bins.push(Gathered {
            body: Vec::new(alloc),
            words: 0,
        })?;
    }
    Ok(bins)
}

/// Writes a super-k-mer behind the records of a bin.
fn gather(bin: &mut Gathered, super_kmer: &SuperKmer) -> Result<(), AllocError> {
    encode(super_kmer, &mut bin.body)?;
    bin.words = bin.words.saturating_add(super_kmer.words() as u64);
    Ok(())
}

/// The bin of the first word of a super-k-mer.
fn bin_of_first_word(rt: &impl Abort, super_kmer: &SuperKmer, shape: Shape) -> usize {
    assert!(rt; super_kmer.words() > 0);
    let first = super_kmer.word_at(0);
    let m = shape.m();
    assert!(rt; 1 <= m && m <= first.k());
    signature(&first, m).bin(shape.n())
}

/// Writes the super-k-mers of a segment behind the records of their bins.
fn gather_segment(
    rt: &impl Abort,
    alloc: Global,
    bins: &mut Vec<Gathered>,
    segment: &Segment,
    shape: Shape,
) -> Result<(), AllocError> {
    let m = shape.m();
    assert!(rt; segment.codes.len() >= shape.k() && 1 <= m);
    for super_kmer in &super_kmers(alloc, segment, shape.k(), m)? {
        let bin = bin_of_first_word(rt, super_kmer, shape);
        assert!(rt; bin < bins.len());
        gather(&mut bins[bin], super_kmer)?;
    }
    Ok(())
}

/// The segments of the reads.
fn segments_of(alloc: Global, reads: &[Vec<u8>], shape: Shape) -> Result<Vec<Segment>, AllocError> {
    let mut found = Vec::new(alloc);
    for read in reads {
        for segment in segments(alloc, read, shape.k())? {
            found.push(segment)?;
        }
    }
    Ok(found)
}

/// The bins that are not empty, each as its number, its number of words and its records.
fn bins_text(alloc: Global, bins: &[Gathered]) -> Result<String, Fail> {
    let mut text = String::new(alloc);
    for (number, bin) in bins.iter().enumerate() {
        if bin.words > 0 {
            push_bin(&mut text, alloc, number, bin.words, &bin.body)?;
        }
    }
    Ok(text)
}

/// The parts of the reads, super-k-mer by super-k-mer, each by the signature of its first word.
pub(super) fn plain_text(
    rt: &impl Abort,
    alloc: Global,
    reads: &str,
    shape: Shape,
) -> Result<String, Fail> {
    let chunk = chunk_of(alloc, 3, reads)?;
    let mut bins = empty_bins(alloc, shape.n())?;
    for segment in &segments_of(alloc, &chunk.reads, shape)? {
        gather_segment(rt, alloc, &mut bins, segment, shape)?;
    }
    bins_text(alloc, &bins)
}
