//! Inputs that are refused, and devices that fail.
use super::*;
use kmc_reads::ReadsError;
use test_support::FlushCounter;

const TEXT: &[u8] = b"@r\nACGTACGT\n+\nIIIIIIII\n";

const DUMP: &[u8] = b"ACGT\t2\nCGTA\t2\nGTAC\t1\n";

/// A run that counts words of 4 symbols.
fn run_at_4<R: Abort + Threads + Wait + Sync + Alloc<A = Global>>(
    rt: &R,
    reader: BlockReader,
    writer: NarrowWriter,
) -> Outcome {
    let params = settings(rt, 4, 1, BILLION, 255);
    run_between(rt, rt.alloc(), reader, writer, &params)
}

/// Asserts that a run over the text is refused for this fault, before it writes.
fn assert_refused<R: Abort + Threads + Wait + Sync + Alloc<A = Global>>(
    rt: &R,
    text: &[u8],
    e: ReadsError,
) {
    let made = dump_of(rt, rt.alloc(), text, &Params::default());
    assert_outcome(rt, &made, Err(RunError::Input(e)), b"", (0, 0));
}

#[test]
fn refuses_faulty_texts_with_their_lines(rt: HostRuntime) {
    assert_refused(&rt, b"@r\nACGT\n+\nIII\n", ReadsError::QualityLength(4));
    assert_refused(&rt, b"@r\nACGT\n+\n", ReadsError::Truncated(4));
    assert_refused(&rt, b"r\nACGT\n+\nIIII\n", ReadsError::BadHeader(1));
    assert_refused(&rt, b"\n@r\nACGT\nx\nIIII\n", ReadsError::BadPlus(4));
}

/// Asserts that a run by blocks of so many bytes writes the dump, so many bytes at a time.
fn assert_in_blocks<R: Abort + Threads + Wait + Sync + Alloc<A = Global>>(
    rt: &R,
    block: usize,
    width: usize,
) {
    assert!(rt; 1 <= block);
    let reader = BlockReader::new(TEXT, block, 0);
    let writer = NarrowWriter::new(Vec::new(rt.alloc()), width, 1000, Full::Fails, true);
    let made = run_at_4(rt, reader, writer);
    assert_whole(rt, &made, DUMP);
}

#[test]
fn gives_the_same_dump_in_any_blocks(rt: HostRuntime) {
    for block in [1, 2, 7, 22, 100] {
        for width in [1, 3, 100] {
            assert_in_blocks(&rt, block, width);
        }
    }
}

#[test]
fn writes_nothing_after_a_failed_read(rt: HostRuntime) {
    for failing in 1..=24 {
        let reader = BlockReader::new(TEXT, 1, failing);
        let writer = NarrowWriter::new(Vec::new(rt.alloc()), 100, 1000, Full::Fails, true);
        let made = run_at_4(&rt, reader, writer);
        assert_outcome(&rt, &made, Err(RunError::Read), b"", (1, 0));
    }
}

/// Asserts that a run writes the front of the dump for which there is room, and then answers that a write failed.
fn assert_front<R: Abort + Threads + Wait + Sync + Alloc<A = Global>>(
    rt: &R,
    room: usize,
    full: Full,
) {
    assert!(rt; room <= DUMP.len());
    let reader = BlockReader::new(TEXT, 100, 0);
    let writer = NarrowWriter::new(Vec::new(rt.alloc()), 4, room, full, true);
    let made = run_at_4(rt, reader, writer);
    assert_outcome(rt, &made, Err(RunError::Write), &DUMP[..room], (0, 1));
}

#[test]
fn writes_a_front_of_the_dump_before_a_failed_write(rt: HostRuntime) {
    for room in 0..DUMP.len() {
        assert_front(&rt, room, Full::Fails);
        assert_front(&rt, room, Full::Takes0);
    }
}

/// Asserts that a run over the text writes the dump, and answers that a write failed where the flush does.
fn assert_failed_flush<R: Abort + Threads + Wait + Sync + Alloc<A = Global>>(
    rt: &R,
    text: &[u8],
    dump: &[u8],
) {
    let reader = BlockReader::new(text, 100, 0);
    let writer = NarrowWriter::new(Vec::new(rt.alloc()), 100, 1000, Full::Fails, false);
    let made = run_at_4(rt, reader, writer);
    assert_outcome(rt, &made, Err(RunError::Write), dump, (0, 1));
}

#[test]
fn a_failed_flush_fails_the_run(rt: HostRuntime) {
    assert_failed_flush(&rt, TEXT, DUMP);
    assert_failed_flush(&rt, b"", b"");
}

/// What a run answered, how many of its reads gave bytes, how many calls of its writer failed, and its device.
#[derive(Drop)]
struct Flushed {
    answer: Result<u64, RunError>,
    reads: u64,
    failures: u64,
    device: FlushCounter,
}

/// A run over a text that comes in blocks of so many bytes, to a device of which one flush may fail.
fn run_flushing<R: Abort + Threads + Wait + Sync + Alloc<A = Global>>(
    rt: &R,
    text: &[u8],
    block: usize,
    failing: u64,
    params: &Params,
) -> Flushed {
    assert!(rt; 1 <= block);
    let mut reader = Counted::new(BlockReader::new(text, block, 0));
    let mut writer = Counted::new(FlushCounter::new(Vec::new(rt.alloc()), failing));
    let answer = run(rt, rt.alloc(), &mut reader, &mut writer, params);
    Flushed {
        answer,
        reads: reader.reads(),
        failures: writer.failures(),
        device: writer.into_inner(),
    }
}

/// Asserts what a run answers where one of its flushes may fail.
fn assert_flushed_once<R: Abort + Threads + Wait + Sync + Alloc<A = Global>>(
    rt: &R,
    failing: u64,
    answer: Result<u64, RunError>,
) {
    let made = run_flushing(rt, TEXT, 100, failing, &settings(rt, 4, 1, BILLION, 255));
    let flushes = made.device.flushes();
    let failures = u64::from(failing == 1);
    assert_eq!(rt;
        (made.answer, made.failures, flushes),
        (answer, failures, 1)
    );
    assert_bytes(rt, made.device.bytes(), DUMP);
}

/// The device is told to flush once, behind the last byte, and a flush that fails is told and not tried again.
#[test]
fn a_dump_is_flushed_once(rt: HostRuntime) {
    assert_flushed_once(&rt, 0, Ok(3));
    assert_flushed_once(&rt, 1, Err(RunError::Write));
    assert_flushed_once(&rt, 2, Ok(3));
}

/// A reader that gives as much as it is asked for is asked for large blocks.
#[test]
fn a_long_text_is_read_in_few_blocks(rt: HostRuntime) {
    let text = fastq(&rt, rt.alloc(), &[[b'A'; 1000].as_slice(); 100]);
    assert!(rt; text.len() > 200_000);
    let made = run_flushing(
        &rt,
        &text,
        1_000_000,
        0,
        &settings(&rt, 25, 2, BILLION, 255),
    );
    assert_eq!(rt; made.answer, Ok(1));
    assert!(rt; made.reads <= 5);
    assert_bytes(
        &rt,
        made.device.bytes(),
        b"AAAAAAAAAAAAAAAAAAAAAAAAA\t255\n",
    );
}
