//! Words of a command line, and texts of reads.
use std::alloc::{AllocError, Global};

/// Two occurrences of ACGT and one each of CGTA, GTAC and TACG, of which CGTA and TACG are one word on both strands.
pub const FASTQ: &[u8] = b"@r\nACGTACGT\n+\nIIIIIIII\n";

/// The same read as FASTA, in two lines.
pub const FASTA: &[u8] = b">r\nACGTA\nCGT\n";

/// The words of a line of arguments.
pub fn words_of(alloc: Global, line: &str) -> Result<Vec<String>, AllocError> {
    let mut words = Vec::new(alloc);
    for word in line.split_whitespace() {
        words.push(String::from_str(alloc, word)?)?;
    }
    Ok(words)
}

/// A FASTA text of one read of so many letters A and three letters C.
pub fn text_of_a(alloc: Global, count: usize) -> Result<Vec<u8>, AllocError> {
    let mut text = b">r\n".to_vec(alloc)?;
    text.resize(text.len().saturating_add(count), b'A')?;
    text.extend_from_slice(b"CCC\n")?;
    Ok(text)
}
