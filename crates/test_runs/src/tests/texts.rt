//! Words, reads, and the lines of dumps to compare with.
use kmc_base::Kmer;
use kmc_count::count_direct;
use kmc_device::Counted;
use kmc_dump::write_dump;
use kmc_options::Params;
use std::alloc::{AllocError, Global};
use std::process::Abort;

/// The words of a line of arguments.
pub fn words_of(alloc: Global, line: &str) -> Result<Vec<String>, AllocError> {
    let mut words = Vec::new(alloc);
    for word in line.split_whitespace() {
        words.push(String::from_str(alloc, word)?)?;
    }
    Ok(words)
}

/// The slices, each in a vector of its own.
pub fn vectors_of(alloc: Global, slices: &[&[u8]]) -> Result<Vec<Vec<u8>>, AllocError> {
    let mut vectors = Vec::new(alloc);
    for slice in slices {
        vectors.push(slice.to_vec(alloc)?)?;
    }
    Ok(vectors)
}

/// Appends so many letters A.
fn push_letters(word: &mut String, count: usize) -> Result<(), AllocError> {
    for _ in 0..count {
        word.push('A')?;
    }
    Ok(())
}

/// The line of the word of k letters A.
pub fn line_of_a(rt: &impl Abort, alloc: Global, k: usize, count: u64) -> String {
    let mut word = String::new(alloc);
    push_letters(&mut word, k).expect(rt, "memory");
    format!(in alloc; "{word}\t{count}\n").expect(rt, "memory")
}

/// The lines of the pairs.
pub fn text_of(rt: &impl Abort, alloc: Global, pairs: &[(Kmer, u64)]) -> Vec<u8> {
    let mut writer = Counted::new(Vec::new(alloc));
    write_dump(&mut writer, pairs).expect(rt, "written");
    writer.into_inner()
}

/// The dump of the direct count of the reads, and how many lines it has.
pub fn direct_dump(
    rt: &impl Abort,
    alloc: Global,
    reads: &[Vec<u8>],
    params: &Params,
) -> (Vec<u8>, usize) {
    let pairs = count_direct(alloc, reads, params.k, params.strands, &params.limits).expect(
        rt, "memory",
    );
    (text_of(rt, alloc, &pairs), pairs.len())
}

/// Asserts that these are the bytes that are wanted.
pub fn assert_bytes(rt: &impl Abort, found: &[u8], wanted: &[u8]) {
    assert_eq!(rt; found, wanted);
}
