//! Runs from text to dump, over devices in memory.
mod failing;
mod pieces;
mod queues;
mod random_rows;
mod random_texts;
mod rounds;
mod rows;

use super::settings::{BILLION, settings};
use super::texts::assert_bytes;
use kmc_device::Counted;
use kmc_options::{Params, RunError};
use kmc_tool::run;
use std::alloc::{AllocError, Global};
use std::process::Abort;
use std::sync::Wait;
use std::thread::Threads;
use test_support::{BlockReader, Full, NarrowWriter};

/// What a run answered, what it wrote, and how many calls of its devices failed.
#[derive(Drop)]
struct Outcome {
    answer: Result<u64, RunError>,
    written: Vec<u8>,
    read_failures: u64,
    write_failures: u64,
}

/// Appends a FASTQ record of this sequence.
fn push_record(text: &mut Vec<u8>, sequence: &[u8]) -> Result<(), AllocError> {
    text.extend_from_slice(b"@r\n")?;
    text.extend_from_slice(sequence)?;
    text.extend_from_slice(b"\n+\n")?;
    text.resize(text.len().saturating_add(sequence.len()), b'I')?;
    text.extend_from_slice(b"\n")
}

/// A FASTQ text of these sequences.
fn fastq(rt: &impl Abort, alloc: Global, sequences: &[&[u8]]) -> Vec<u8> {
    let mut text = Vec::new(alloc);
    for sequence in sequences {
        push_record(&mut text, sequence).expect(rt, "memory");
    }
    text
}

fn run_between<R: Threads + Wait + Sync>(
    rt: &R,
    alloc: Global,
    reader: BlockReader,
    writer: NarrowWriter,
    params: &Params,
) -> Outcome {
    let mut reader = Counted::new(reader);
    let mut writer = Counted::new(writer);
    let answer = run(rt, alloc, &mut reader, &mut writer, params);
    let read_failures = reader.failures();
    let write_failures = writer.failures();
    Outcome {
        answer,
        written: writer.into_inner().into_bytes(),
        read_failures,
        write_failures,
    }
}

/// A run over devices that never fail.
fn dump_of<R: Threads + Wait + Sync>(
    rt: &R,
    alloc: Global,
    text: &[u8],
    params: &Params,
) -> Outcome {
    let reader = BlockReader::new(text, 1000, 0);
    let writer = NarrowWriter::new(Vec::new(alloc), 100_000, 100_000, Full::Fails, true);
    run_between(rt, alloc, reader, writer, params)
}

/// Asserts what a run answered and wrote, and how many calls of its reader and of its writer failed.
fn assert_outcome(
    rt: &impl Abort,
    made: &Outcome,
    answer: Result<u64, RunError>,
    written: &[u8],
    failures: (u64, u64),
) {
    assert_eq!(rt; made.answer, answer);
    assert_bytes(rt, &made.written, written);
    assert_eq!(rt; (made.read_failures, made.write_failures), failures);
}

/// How many lines the dump has.
fn lines_of(dump: &[u8]) -> u64 {
    dump.iter().filter(|byte| **byte == b'\n').count() as u64
}

/// Asserts that a run wrote this dump, that it answered its number of lines, and that no call of its devices failed.
fn assert_whole(rt: &impl Abort, made: &Outcome, dump: &[u8]) {
    assert_outcome(rt, made, Ok(lines_of(dump)), dump, (0, 0));
}
