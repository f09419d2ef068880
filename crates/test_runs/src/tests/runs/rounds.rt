//! A run of several rounds by the program's own settings.
use super::*;
use crate::tests::texts::words_of;
use kmc_options::{Program, settings};

/// More reads than two rounds of two splitters take, 65,536 each.
const READS: usize = 140_000;

/// FASTQ of one read, so many times.
fn repeated(alloc: Global, sequence: &[u8], times: usize) -> Result<Vec<u8>, AllocError> {
    let mut text = Vec::new(alloc);
    for _ in 0..times {
        push_record(&mut text, sequence)?;
    }
    Ok(text)
}

#[test]
fn a_run_of_three_rounds_counts_each_read(rt: HostRuntime) {
    let alloc = rt.alloc();
    let text = repeated(alloc, b"ACGTA", READS).expect(&rt, "memory");
    let words = words_of(alloc, "-k5 -ci1 -cs1000000").expect(&rt, "memory");
    let params = settings(alloc, Program::Kmc, words).expect(&rt, "settings");
    let reader = BlockReader::new(&text, 65_536, 0);
    let writer = NarrowWriter::new(Vec::new(alloc), 1000, 1000, Full::Fails, true);
    let made = run_between(&rt, alloc, reader, writer, &params);
    assert_whole(&rt, &made, b"ACGTA\t140000\n");
}
