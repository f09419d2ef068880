//! What the tests are given: segments, words, records and chunks of reads, written as texts; and what they compare.
use kmc_base::{Kmer, Segment, segments};
use kmc_record::{Chunk, Shape, encode};
use kmc_split::SuperKmer;
use std::alloc::{AllocError, Global};
use std::process::Abort;
use std::test::Fail;

/// The whole text, all of bases, as one segment.
pub(crate) fn one_segment(
    rt: &impl Abort,
    alloc: Global,
    letters: &[u8],
) -> Result<Segment, AllocError> {
    let mut found = segments(alloc, letters, 1)?;
    let segment = found.pop();
    Ok(segment.expect(rt, "letters of bases"))
}

/// The whole text as one word.
pub(crate) fn word_of(rt: &impl Abort, alloc: Global, letters: &[u8]) -> Result<Kmer, AllocError> {
    let segment = one_segment(rt, alloc, letters)?;
    Ok(Kmer::new(&segment.codes).expect(rt, "a word"))
}

/// The letters as one super-k-mer.
pub(crate) fn super_kmer_of(
    rt: &impl Abort,
    alloc: Global,
    letters: &[u8],
    k: usize,
) -> Result<SuperKmer, AllocError> {
    let segment = one_segment(rt, alloc, letters)?;
    Ok(SuperKmer::new(segment.codes, k).expect(rt, "a super-k-mer"))
}

/// Writes the record of the letters behind what is there.
pub(crate) fn append_record(
    rt: &impl Abort,
    alloc: Global,
    bytes: &mut Vec<u8>,
    letters: &[u8],
    k: usize,
) -> Result<(), AllocError> {
    let s = super_kmer_of(rt, alloc, letters, k)?;
    encode(&s, bytes)
}

/// The record of the letters.
pub(crate) fn record_of(
    rt: &impl Abort,
    alloc: Global,
    letters: &[u8],
    k: usize,
) -> Result<Vec<u8>, AllocError> {
    let s = super_kmer_of(rt, alloc, letters, k)?;
    let mut record = Vec::new(alloc);
    encode(&s, &mut record)?;
    Ok(record)
}

/// So many equal bytes.
pub(crate) fn same_bytes(alloc: Global, byte: u8, length: usize) -> Result<Vec<u8>, AllocError> {
    let mut bytes = Vec::new(alloc);
    bytes.resize(length, byte)?;
    Ok(bytes)
}

/// A read of so many bases, without a long run of one of them.
pub(crate) fn long_read(alloc: Global, symbols: usize) -> Result<String, AllocError> {
    let mut read = String::new(alloc);
    for i in 0..symbols {
        let turn = i.wrapping_mul(i).wrapping_add(i / 3) / 7;
        read.push(['A', 'C', 'G', 'T'][turn % 4])?;
    }
    Ok(read)
}

/// The letter of a state of the random numbers: a base, and here and there a letter that is none.
fn letter_of_state(state: u64) -> char {
    if (state >> 40) % 61 == 0 {
        'N'
    } else {
        ['A', 'C', 'g', 'T'][(state >> 62) as usize % 4]
    }
}

/// Writes so many letters at random behind the reads, and gives the state behind the last.
fn push_random(reads: &mut String, length: usize, before: u64) -> Result<u64, AllocError> {
    let mut state = before;
    for _symbol in 0..length {
        state = state
            .wrapping_mul(6364136223846793005)
            .wrapping_add(1442695040888963407);
        reads.push(letter_of_state(state))?;
    }
    Ok(state)
}

/// Reads at random, between which stand commas: empty, short and long ones, with a byte that is no base here and there.
pub(crate) fn mixed_reads(alloc: Global) -> Result<String, AllocError> {
    let mut reads = String::new(alloc);
    let mut state: u64 = 7;
    for length in [0usize, 1, 3, 8, 24, 25, 33, 64, 65, 300] {
        state = push_random(&mut reads, length, state)?;
        reads.push(',')?;
    }
    reads.push('N')?;
    Ok(reads)
}

/// The shape of k, p and n.
pub(crate) fn shape_of(rt: &impl Abort, k: usize, p: usize, n: usize) -> Shape {
    Shape::new(k, p, n).expect(rt, "a shape")
}

/// These reads, between which stand commas.
fn reads_of(alloc: Global, text: &str) -> Result<Vec<Vec<u8>>, AllocError> {
    let mut reads = Vec::new(alloc);
    for read in text.split(',') {
        reads.push(read.as_bytes().to_vec(alloc)?)?;
    }
    Ok(reads)
}

/// The chunk of these reads, between which stand commas.
pub(crate) fn chunk_of(alloc: Global, number: u64, reads: &str) -> Result<Chunk, AllocError> {
    let reads = reads_of(alloc, reads)?;
    Ok(Chunk { number, reads })
}

/// Writes bytes by two digits each.
fn push_hex(text: &mut String, alloc: Global, bytes: &[u8]) -> Result<(), Fail> {
    for byte in bytes {
        text.push_str(format!(in alloc; "{:02x}", *byte)?.as_str())?;
    }
    Ok(())
}

/// Writes a bin as its number, its number of words and its records.
pub(crate) fn push_bin(
    text: &mut String,
    alloc: Global,
    bin: usize,
    words: u64,
    body: &[u8],
) -> Result<(), Fail> {
    text.push_str(format!(in alloc; "{bin} {words} ")?.as_str())?;
    push_hex(text, alloc, body)?;
    text.push(';')?;
    Ok(())
}

/// The field at a place of a row, between whose fields stand bars.
pub(crate) fn field(row: &str, place: usize) -> Result<&str, Fail> {
    Ok(row.split('|').nth(place).ok_or("a field")?)
}

/// The number that the field at a place of a row writes.
pub(crate) fn number(row: &str, place: usize) -> Result<usize, Fail> {
    let text = field(row, place)?;
    Ok(text.parse::<usize>().ok().ok_or("a number")?)
}

/// Asserts that a number is the one that was worked out.
pub(crate) fn assert_number(rt: &impl Abort, made: usize, want: usize) {
    assert_eq!(rt; made, want);
}

/// Asserts that bytes are those that were worked out.
pub(crate) fn assert_bytes(rt: &impl Abort, made: &[u8], want: &[u8]) {
    assert_eq!(rt; made, want);
}

/// Asserts that a text is the one that was worked out.
pub(crate) fn assert_text(rt: &impl Abort, made: &str, want: &str) {
    assert_eq!(rt; made, want);
}
