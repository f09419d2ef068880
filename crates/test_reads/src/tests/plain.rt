//! A plain reader of a whole text, line by line.
use kmc_reads::{Format, ReadsError};
use std::alloc::{AllocError, Global};

/// The reads of a text, or its refusal.
pub(crate) type Reading = Result<Vec<Vec<u8>>, ReadsError>;

/// A line without one carriage return at its end.
fn without_return(line: &[u8]) -> &[u8] {
    match line {
        [front @ .., b'\r'] => front,
        _ => line,
    }
}

/// The lines of a text, each without one carriage return at its end.
fn lines_of(alloc: Global, text: &[u8]) -> Result<Vec<&[u8]>, AllocError> {
    let mut lines = Vec::new(alloc);
    for line in text.split(|b| *b == b'\n') {
        lines.push(without_return(line))?;
    }
    // behind the last line feed stands a line only where it has a byte
    if text.is_empty() || text.last() == Some(&b'\n') {
        lines.pop();
    }
    Ok(lines)
}

/// The symbols of the last read.
fn last_symbols(reads: &[Vec<u8>]) -> usize {
    match reads.last() {
        Some(read) => read.len(),
        None => 0,
    }
}

/// The refusal of a line, by its place in a record, from 0 to 3, whose sequence has so many symbols.
fn refusal(place: usize, line: &[u8], number: u64, symbols: usize) -> Option<ReadsError> {
    let first = line.first();
    if place == 0 && first.is_some() && first != Some(&b'@') {
        Some(ReadsError::BadHeader(number))
    } else if place == 2 && first != Some(&b'+') {
        Some(ReadsError::BadPlus(number))
    } else if place == 3 && line.len() != symbols {
        Some(ReadsError::QualityLength(number))
    } else {
        None
    }
}

/// The place of the line that follows: an empty line may stand before a record.
fn place_after(place: usize, line: &[u8]) -> usize {
    if place == 0 && line.is_empty() {
        0
    } else if place < 3 {
        place + 1
    } else {
        0
    }
}

/// The reads of a FASTQ text, or its refusal.
fn fastq(alloc: Global, text: &[u8]) -> Result<Reading, AllocError> {
    let mut reads: Vec<Vec<u8>> = Vec::new(alloc);
    let mut place = 0usize;
    let mut number = 0u64;
    for line in &lines_of(alloc, text)? {
        number = number.saturating_add(1);
        if place == 1 {
            reads.push(Vec::from_slice(alloc, line)?)?;
        }
        if let Some(e) = refusal(place, line, number, last_symbols(&reads)) {
            return Ok(Err(e));
        }
        place = place_after(place, line);
    }
    if place != 0 {
        return Ok(Err(ReadsError::Truncated(number.saturating_add(1))));
    }
    Ok(Ok(reads))
}

/// Adds a line of a FASTA text to its reads, unless it has symbols before the first header.
fn add_line(alloc: Global, reads: &mut Vec<Vec<u8>>, line: &[u8]) -> Result<bool, AllocError> {
    if line.first() == Some(&b'>') {
        reads.push(Vec::new(alloc))?;
    } else if let Some(read) = reads.last_mut() {
        read.extend_from_slice(line)?;
    } else {
        return Ok(line.is_empty());
    }
    Ok(true)
}

/// The reads of a FASTA text, or its refusal.
fn fasta(alloc: Global, text: &[u8]) -> Result<Reading, AllocError> {
    let mut reads: Vec<Vec<u8>> = Vec::new(alloc);
    let mut number = 0u64;
    for line in &lines_of(alloc, text)? {
        number = number.saturating_add(1);
        if !add_line(alloc, &mut reads, line)? {
            return Ok(Err(ReadsError::BadHeader(number)));
        }
    }
    Ok(Ok(reads))
}

/// The reads of a text, or its refusal.
pub(crate) fn plain_reads(
    alloc: Global,
    text: &[u8],
    format: Format,
) -> Result<Reading, AllocError> {
    match format {
        Format::Fasta => fasta(alloc, text),
        Format::Fastq => fastq(alloc, text),
    }
}
