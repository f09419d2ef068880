//! Random reads, their text, and settings.
use kmc_base::Strands;
use kmc_count::Limits;
use kmc_options::Params;
use kmc_reads::Format;
use std::alloc::{AllocError, Global};
use std::process::Abort;
use test_support::Dice;

const LETTERS: [u8; 4] = *b"ACGT";

/// Settings over FASTA for words of k symbols, signatures that fit them, n bins, rounds of 2 reads for each of two splitters.
pub(crate) fn settings(rt: &impl Abort, k: usize, n: usize, strands: Strands, ci: u64) -> Params {
    let limits = Limits::new(ci, 1_000_000_000, 1_000_000).expect(rt, "limits");
    let params = Params::new(Format::Fasta, k, 9, n, 2, 2, limits).expect(rt, "settings");
    let params = params.with_queue(1, 8, 2).expect(rt, "a queue");
    params.with_fitting_signatures().with_strands(strands)
}

/// So many letters.
pub(crate) fn sequence(
    alloc: Global,
    dice: &mut Dice,
    length: usize,
) -> Result<Vec<u8>, AllocError> {
    let mut out = Vec::new(alloc);
    for _ in 0..length {
        out.push(LETTERS[dice.roll(4)])?;
    }
    Ok(out)
}

fn complement(letter: u8) -> u8 {
    match letter {
        b'A' => b'T',
        b'C' => b'G',
        b'G' => b'C',
        _ => b'A',
    }
}

/// The reverse complement.
fn turned(alloc: Global, read: &[u8]) -> Result<Vec<u8>, AllocError> {
    let mut out = Vec::new(alloc);
    for letter in read.iter().rev() {
        out.push(complement(*letter))?;
    }
    Ok(out)
}

/// A read of the genome in either direction; one symbol of some reads is unknown.
fn read_of(alloc: Global, dice: &mut Dice, genome: &[u8]) -> Result<Vec<u8>, AllocError> {
    let from = dice.roll(100);
    let length = dice.roll(140);
    let mut read = Vec::new(alloc);
    for letter in genome.iter().skip(from).take(length) {
        read.push(*letter)?;
    }
    if dice.roll(5) == 0 {
        read.push(b'N')?;
        read.push(b'G')?;
    }
    if dice.roll(2) == 0 {
        turned(alloc, &read)
    } else {
        Ok(read)
    }
}

/// So many reads of a genome of 240 symbols.
pub(crate) fn reads_of(
    alloc: Global,
    dice: &mut Dice,
    many: usize,
) -> Result<Vec<Vec<u8>>, AllocError> {
    let genome = sequence(alloc, dice, 240)?;
    let mut reads = Vec::new(alloc);
    for _ in 0..many {
        reads.push(read_of(alloc, dice, &genome)?)?;
    }
    Ok(reads)
}

/// Appends the FASTA record of a read, in lines of 50 symbols.
fn push_record(text: &mut Vec<u8>, read: &[u8]) -> Result<(), AllocError> {
    text.extend_from_slice(b">r")?;
    for (i, letter) in read.iter().enumerate() {
        if i % 50 == 0 {
            text.push(b'\n')?;
        }
        text.push(*letter)?;
    }
    text.extend_from_slice(b"\n")
}

/// The FASTA text of the reads whose number leaves this rest.
pub(crate) fn fasta(
    alloc: Global,
    reads: &[Vec<u8>],
    parts: usize,
    part: usize,
) -> Result<Vec<u8>, AllocError> {
    let mut text = Vec::new(alloc);
    for (i, read) in reads.iter().enumerate() {
        if i.checked_rem(parts) == Some(part) {
            push_record(&mut text, read)?;
        }
    }
    Ok(text)
}
