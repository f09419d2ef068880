//! Input formats.

/// The format of an input text.
#[derive(Clone, Copy)]
pub enum Format {
    /// A header line beginning with `>`, then the lines of its sequence up to the next header.
    Fasta,
    /// Records of four lines: header (`@`), sequence, plus line (`+`), quality.
    Fastq,
}
