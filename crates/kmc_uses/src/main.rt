//! A caller's example: counts reads that it holds in memory, looks a k-mer up, and writes the dump. It needs neither files nor
//! threads. A program with much to count calls `run` (kmc_tool) with a reader and a writer of its own in place of
//! `count_direct` and `write_dump`.
#![tactic(auto)]

mod look_up;

use kmc_base::{Kmer, Strands, code};
use kmc_count::{GREATEST_COUNT, Limits, count_direct};
use kmc_device::Counted;
use kmc_dump::write_dump;
use look_up::shown_of;
use std::alloc::{AllocError, Global};
use std::io;
use std::process::ExitCode;

/// Some reads; a symbol that is no base is part of no k-mer.
const READS: [&str; 3] = ["ACGTACGTTGCA", "ttgcaacgtacg", "ACGTNACGT"];

const K: usize = 4;

/// The k-mer that a text of letters A, C, G and T spells, in its canonical form.
fn kmer_of(alloc: Global, letters: &str) -> Result<Option<Kmer>, AllocError> {
    let mut codes = Vec::new(alloc);
    for letter in letters.as_bytes() {
        match code(*letter) {
            Some(c) => codes.push(c)?,
            None => return Ok(None),
        }
    }
    Ok(Kmer::new(&codes).map(|word| word.key(Strands::Joined)))
}

/// All k-mers of the reads with their counts, each with its reverse complement, in the order of the letters.
fn counted(alloc: Global, reads: &[&str]) -> Result<Vec<(Kmer, u64)>, AllocError> {
    let mut symbols = Vec::new(alloc);
    for read in reads {
        symbols.push(read.as_bytes().to_vec(alloc)?)?;
    }
    let all = Limits {
        ci: 1,
        cx: GREATEST_COUNT,
        cs: GREATEST_COUNT,
    };
    count_direct(alloc, &symbols, K, Strands::Joined, &all)
}

fn main(rt: HostRuntime) -> ExitCode {
    let alloc = rt.alloc();
    let (Ok(pairs), Ok(Some(word))) = (counted(alloc, &READS), kmer_of(alloc, "CGTA")) else {
        return ExitCode::from(1);
    };
    if let Some(count) = shown_of(&pairs, &word) {
        let _ = println!(rt; "CGTA or TACG: {count}");
    }
    let mut writer = Counted::new(io::writer(&rt));
    match write_dump(&mut writer, &pairs) {
        Ok(_) => ExitCode::from(0),
        Err(_) => ExitCode::from(1),
    }
}
