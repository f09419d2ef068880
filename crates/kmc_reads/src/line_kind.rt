//! What the open line of a text may be.
ghost use Rattle.std.specs.Prelude.{◌≡◌};
ghost use Rattle.kmc_reads.specs.Stages.{first_stage};

use crate::format::Format;

/// What the open line is, by the lines before it and, in FASTA, by its first byte.
#[derive(Clone, Copy, PartialEq, Eq)]
pub enum LineKind {
    /// FASTQ: the header of a record, or a blank line.
    Header,
    /// FASTQ: the sequence.
    Sequence,
    /// FASTQ: the plus line.
    Plus,
    /// FASTQ: the quality line.
    Quality,
    /// FASTA: the first header, or a blank line before it.
    FirstHeader,
    /// FASTA: symbols of the open read, or a header that has no byte yet.
    Body,
    /// FASTA: a header after the first, whose first byte has come.
    Name,
    /// FASTA: the rest of a line of symbols, whose first ones were handed out.
    Rest,
}

impl LineKind {
    /// What the first line of a text in this format is.
    pub fn first(format: Format) -> LineKind
        ensures { result ≡ first_stage format }
    {
        match format {
            Format::Fasta => LineKind::FirstHeader,
            Format::Fastq => LineKind::Header,
        }
    }
}
