//! A text that comes in blocks: `feed`, `take` and `finish`.
use crate::growths::tell;
use kmc_reads::{Feeder, Format, Reads, ReadsError};
use std::alloc::{AllocError, Global};

const TEXT: &[u8] =
    b"@a\nACGTACGTTTGACGTACGTTTG\n+\nIIIIIIIIIIIIIIIIIIIIII\n@b\n\n+\n\n@c\nGATTACAGATTACAGATTACAGATTACAGATTACA\n+\nIIIIIIIIIIIIIIIIIIIIIIIIIIIIIIIIIII\n@d\nNACG\n+\nIIII\n@e\nCCCCC\n+\nIIIII\n@f\nTTTTT\n+\nIIIII";

const BLOCK: usize = 7;

/// Feeds a block. A fault of the text, which has none, is passed over.
fn feed(rt: &impl Eprint, feeder: &mut Feeder, block: &[u8]) -> Result<(), AllocError> {
    if let Err(ReadsError::Memory) = feeder.feed(block) {
        tell(rt, "feed");
        if let Err(ReadsError::Memory) = feeder.feed(block) {
            return Err(AllocError);
        }
    }
    Ok(())
}

/// Feeds a text in blocks.
fn feed_all(rt: &impl Eprint, feeder: &mut Feeder, text: &[u8]) -> Result<(), AllocError> {
    for block in text.chunks(BLOCK) {
        feed(rt, feeder, block)?;
    }
    Ok(())
}

/// The reads that have ended.
fn take(rt: &impl Eprint, alloc: Global, feeder: &mut Feeder) -> Result<Reads, AllocError> {
    match feeder.take(alloc) {
        Ok(reads) => Ok(reads),
        Err(AllocError) => {
            tell(rt, "take");
            feeder.take(alloc)
        }
    }
}

/// The reads that are left.
fn finish(rt: &impl Eprint, feeder: Feeder) -> Result<Reads, AllocError> {
    match feeder.finish() {
        Ok(reads) => Ok(reads),
        Err((_, feeder)) => {
            tell(rt, "finish");
            match feeder.finish() {
                Ok(reads) => Ok(reads),
                Err(_) => Err(AllocError),
            }
        }
    }
}

/// Prints the reads, each in a line.
fn print_reads(rt: &impl Print, name: &str, reads: &Reads) {
    for i in 0..reads.len() {
        let _ = print!(rt; "{name}: ");
        let _ = rt.write_all(reads.get(i));
        let _ = rt.println("");
    }
}

/// Reads the text in blocks. The reads that ended in its first half are taken, and later the others.
pub fn read_in_blocks(rt: &(impl Print + Eprint), alloc: Global) -> Result<(), AllocError> {
    let (first, second) = TEXT.split_at(TEXT.len() / 2);
    let mut feeder = Feeder::new(alloc, Format::Fastq);
    feed_all(rt, &mut feeder, first)?;
    let taken = take(rt, alloc, &mut feeder)?;
    feed_all(rt, &mut feeder, second)?;
    let left = finish(rt, feeder)?;
    print_reads(rt, "taken", &taken);
    print_reads(rt, "left", &left);
    Ok(())
}
