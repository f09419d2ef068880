//! Inputs in rounds.
ghost use Rattle.std.specs.Prelude.{None};

use crate::given::settings;
use kmc_device::Counted;
use kmc_options::Params;
use kmc_partqueue::NoGate;
use kmc_reads::{Format, InputError, ReadsError, read_all, slices_of};
use kmc_stage_one::{PIECE_SYMBOLS, bins_of_input};
use kmc_store::Bins;
use kmc_tool::{round_settings, stage_one};
use std::alloc::Global;
use std::io;
use std::io::Read;
use std::process::Abort;
use std::sync::Wait;
use std::test::Fail;
use std::thread::Threads;
use test_support::BlockReader;

const FASTQ: &[u8] =
    b"@a\nACGTACGTAC\n+\nIIIIIIIIII\n@b\r\nGATTACANNGATTACA\r\n+\r\nIIIIIIIIIIIIIIII\r\n\n@c\n\n+\n\n@d\nTTTTTTTTTTTTTTTTTTTT\n+\nIIIIIIIIIIIIIIIIIIII";

const FASTA: &[u8] = b">a\nACGTAC\nGTAC\n>b\nGATTACANNGATTACA\n>c\n>d\nTTTTTTTTTTT\nTTTTTTTTT\n";

/// The bins of a reader that gives so many bytes a read and fails in one of its reads, if it is not read 0.
fn bins_of<R: Abort + Threads + Wait + Sync>(
    rt: &R,
    alloc: Global,
    text: &[u8],
    block: usize,
    failing: u64,
    params: &Params,
    max_reads: u64,
) -> (Result<Bins, InputError>, u64, u64) {
    assert!(rt; 1 <= block && max_reads <= 1 << 32);
    let mut reader = Counted::new(BlockReader::new(text, block, failing));
    let answer = bins_of_input(
        rt,
        alloc,
        &mut reader,
        &round_settings(params),
        &NoGate,
        max_reads,
        PIECE_SYMBOLS,
    );
    (answer, reader.failures(), reader.reads())
}

/// Whether the bins are as long as the others.
fn are_as_long(bins: &Bins, others: &Bins) -> bool {
    if bins.bodies().len() != others.bodies().len() {
        return false;
    }
    for (one, other) in bins.bodies().iter().zip(others.bodies()) {
        if one.len() != other.len() {
            return false;
        }
    }
    true
}

/// Asserts that rounds of a reader that gives so many bytes a read fill bins as long as these.
fn assert_filled<R: Abort + Threads + Wait + Sync>(
    rt: &R,
    alloc: Global,
    text: &[u8],
    block: usize,
    params: &Params,
    whole: &Bins,
) -> Result<(), Fail> {
    let (answer, failures, _) = bins_of(rt, alloc, text, block, 0, params, 1 << 32);
    assert_eq!(rt; failures, 0);
    assert!(rt;
        are_as_long(&answer?, whole),
        "{block}, {} splitters, rounds of {}",
        params.splitters,
        params.batch
    );
    Ok(())
}

/// Asserts that rounds fill bins as long as those that one stage fills.
fn assert_rounds<R: Abort + Threads + Wait + Sync>(
    rt: &R,
    alloc: Global,
    text: &[u8],
    reads: &[Vec<u8>],
    params: &Params,
) -> Result<(), Fail> {
    let whole = stage_one(rt, alloc, &slices_of(alloc, reads)?, params, &NoGate)?;
    for block in [1, 7, 1000] {
        assert_filled(rt, alloc, text, block, params, &whole)?;
    }
    Ok(())
}

#[test]
fn rounds_fill_the_bins_that_one_stage_fills(rt: HostRuntime) -> Result<(), Fail> {
    for (format, text) in [(Format::Fastq, FASTQ), (Format::Fasta, FASTA)] {
        let reads = read_all(rt.alloc(), text, format)?;
        assert_eq!(rt; reads.len(), 4);
        for (sp, batch) in [(1, 1), (3, 2), (2, 1000)] {
            let params = settings(&rt, format, 4, sp, batch);
            assert_rounds(&rt, rt.alloc(), text, &reads, &params)?;
        }
    }
    Ok(())
}

#[test]
fn an_empty_input_fills_no_bin(rt: HostRuntime) -> Result<(), Fail> {
    let params = settings(&rt, Format::Fastq, 4, 2, 1);
    let (answer, _, reads) = bins_of(&rt, rt.alloc(), b"", 7, 0, &params, 1);
    for body in answer?.bodies() {
        assert!(rt; body.is_empty());
    }
    assert_eq!(rt; reads, 0);
    Ok(())
}

/// Asserts that this read of the text, which fails, is the last one.
fn assert_failed<R: Abort + Threads + Wait + Sync>(
    rt: &R,
    alloc: Global,
    params: &Params,
    failing: u64,
) {
    let (answer, failures, reads) = bins_of(rt, alloc, FASTQ, 7, failing, params, 1 << 32);
    assert_eq!(rt;
        (answer.err(), failures, reads.saturating_add(1)),
        (Some(InputError::Read), 1, failing)
    );
}

#[test]
fn a_failed_read_ends_the_rounds(rt: HostRuntime) {
    let params = settings(&rt, Format::Fastq, 4, 1, 1);
    for failing in [1, 2, 9, 15] {
        assert_failed(&rt, rt.alloc(), &params, failing);
    }
}

/// Asserts the refusal, if any, of the text byte by byte, where so many reads are the most, and how many were made.
fn assert_reads<R: Abort + Threads + Wait + Sync>(
    rt: &R,
    alloc: Global,
    params: &Params,
    most: u64,
    refusal: Option<InputError>,
    made: u64,
) {
    let (answer, _, reads) = bins_of(rt, alloc, FASTQ, 1, 0, params, most);
    assert_eq!(rt; (answer.err(), reads), (refusal, made));
}

#[test]
fn too_many_reads_are_too_long(rt: HostRuntime) {
    let params = settings(&rt, Format::Fastq, 4, 1, 1);
    let all = FASTQ.len() as u64;
    for most in [1, 20, all] {
        assert_reads(
            &rt,
            rt.alloc(),
            &params,
            most,
            Some(InputError::TooLong),
            most,
        );
    }
    // the read that gives nothing is one too
    assert_reads(&rt, rt.alloc(), &params, all + 1, None, all);
}

/// Asserts that the text is refused so, however many bytes a read gives.
fn assert_refused<R: Abort + Threads + Wait + Sync>(
    rt: &R,
    alloc: Global,
    params: &Params,
    text: &[u8],
    fault: ReadsError,
) {
    for block in [1, 7, 1000] {
        let (answer, failures, _) = bins_of(rt, alloc, text, block, 0, params, 1 << 32);
        assert_eq!(rt;
            (answer.err(), failures),
            (Some(InputError::Faulty(fault)), 0)
        );
    }
}

#[test]
fn a_faulty_text_is_refused_where_its_line_ends(rt: HostRuntime) {
    let params = settings(&rt, Format::Fastq, 4, 2, 1);
    for (text, fault) in [
        (
            "@a\nACGTA\n+\nIIIII\n@b\nAC\nx\nII\n@c\nA\n+\nI\n",
            ReadsError::BadPlus(7),
        ),
        ("@a\nACGTA\n+\nIIII", ReadsError::QualityLength(4)),
        ("@a\nACGTA\n", ReadsError::Truncated(3)),
        ("ACGT\n", ReadsError::BadHeader(1)),
    ] {
        assert_refused(&rt, rt.alloc(), &params, text.as_bytes(), fault);
    }
}

/// A reader of which each read gives a line feed, without an end.
#[derive(Drop)]
struct Endless;

impl Read for Endless {
    ghost remaining = { λ _. None };

    fn read(&mut self, buf: &mut [u8]) -> io::Result<usize> {
        match buf.first_mut() {
            Some(byte) => {
                *byte = b'\n';
                Ok(1)
            }
            None => Ok(0),
        }
    }
}

#[test]
fn an_endless_input_is_too_long(rt: HostRuntime) {
    let settings = round_settings(&settings(&rt, Format::Fastq, 4, 1, 1));
    let mut reader = Counted::new(Endless);
    let answer = bins_of_input(
        &rt,
        rt.alloc(),
        &mut reader,
        &settings,
        &NoGate,
        10,
        PIECE_SYMBOLS,
    );
    assert_eq!(rt;
        (answer.err(), reader.reads()),
        (Some(InputError::TooLong), 10)
    );
}

#[test]
fn the_last_read_of_so_many_gives_nothing(rt: HostRuntime) {
    let text = b"@r\nACGTACGT\n+\nIIIIIIII\n";
    let params = settings(&rt, Format::Fastq, 4, 1, 1);
    for (most, refusal) in [(24, None), (23, Some(InputError::TooLong))] {
        let (answer, _, reads) = bins_of(&rt, rt.alloc(), text, 1, 0, &params, most);
        assert_eq!(rt; (answer.err(), reads), (refusal, 23));
    }
}
