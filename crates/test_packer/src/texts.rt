//! Words of a command line, and texts of reads.
use std::alloc::{AllocError, Global};
use test_support::Dice;

/// Two occurrences of ACGT and one each of CGTA, GTAC and TACG, of which CGTA and TACG are one word on both strands.
pub const FASTQ: &[u8] = b"@r\nACGTACGT\n+\nIIIIIIII\n";

/// The words of a line of arguments.
pub fn words_of(alloc: Global, line: &str) -> Result<Vec<String>, AllocError> {
    let mut words = Vec::new(alloc);
    for word in line.split_whitespace() {
        words.push(String::from_str(alloc, word)?)?;
    }
    Ok(words)
}

/// A FASTA text of reads, each as often as is told.
pub fn text_of(alloc: Global, reads: &[(&str, usize)]) -> Result<Vec<u8>, AllocError> {
    let mut text = Vec::new(alloc);
    for (read, times) in reads {
        for _time in 0..*times {
            text.extend_from_slice(b">r\n")?;
            text.extend_from_slice(read.as_bytes())?;
            text.push(b'\n')?;
        }
    }
    Ok(text)
}

/// A FASTA text of so many reads of 90 symbols: each is a stretch of one of five sequences, and one symbol in forty is N.
pub fn text_of_stretches(alloc: Global, reads: usize) -> Result<Vec<u8>, AllocError> {
    let mut dice = Dice { state: 11 };
    let letters = b"ACGT";
    let mut text = Vec::new(alloc);
    for _read in 0..reads {
        let mut sequence = Dice {
            state: dice.roll(5) as u64,
        };
        for _place in 0..dice.roll(30) {
            let _ = sequence.roll(4);
        }
        text.extend_from_slice(b">r\n")?;
        for _place in 0..90 {
            let symbol = letters[sequence.roll(4)];
            text.push(if dice.roll(40) == 0 { b'N' } else { symbol })?;
        }
        text.push(b'\n')?;
    }
    Ok(text)
}
