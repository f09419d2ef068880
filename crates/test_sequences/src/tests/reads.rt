//! FASTQ and FASTA texts with their reads, or with the refusal of their first faulty line.
use crate::tests::given::{assert_bytes, assert_number, assert_text};
use kmc_reads::{Format, ReadsError, read_all};
use std::alloc::Global;
use std::process::Abort;
use std::test::Fail;

/// The answer, asked for once more where memory was refused: so the tests also pass where one
/// growth is refused, whichever it is (`rt try --test --fail-alloc N`).
fn answer(alloc: Global, format: Format, text: &str) -> Result<Vec<Vec<u8>>, ReadsError> {
    match read_all(alloc, text.as_bytes(), format) {
        Err(ReadsError::Memory) => read_all(alloc, text.as_bytes(), format),
        answer => answer,
    }
}

/// Asserts that the reads are these.
fn assert_reads(rt: &impl Abort, reads: &[Vec<u8>], want: &[&str]) {
    assert_number(rt, reads.len(), want.len());
    for (read, want) in reads.iter().zip(want) {
        assert_bytes(rt, read, want.as_bytes());
    }
}

/// Asserts that the text has just these reads.
fn gives(rt: &impl Abort, alloc: Global, format: Format, text: &str, want: &[&str]) {
    let reads = answer(alloc, format, text).expect(rt, text);
    assert_reads(rt, &reads, want);
}

/// Asserts that the text is refused so.
fn refuses(rt: &impl Abort, alloc: Global, format: Format, text: &str, want: ReadsError) {
    let refusal = answer(alloc, format, text).err();
    assert_eq!(rt; refusal, Some(want), "{text:?}");
}

#[test]
fn fastq_reads_are_the_sequence_lines(rt: HostRuntime) {
    let between = "\n@a\nAC\n+\nII\n\r\n\n@b\n\n+\n\n@c\nGGT\n+\nIII\n\n";
    for (text, reads) in [
        ("@r\nACGTACGT\n+\nIIIIIIII\n", ["ACGTACGT"].as_slice()),
        ("@r\r\nACGTACGT\r\n+\r\nIIIIIIII", ["ACGTACGT"].as_slice()),
        ("@r\nACGT\n+r again\nIIII", ["ACGT"].as_slice()),
        ("@\nacNt.\n+\n@@@@@\n", ["acNt."].as_slice()),
        // an empty read has an empty quality line
        ("@r\n\n+\n\n", [""].as_slice()),
        // one carriage return at the end of a line is not its content
        ("@r\n\n+\n\r", [""].as_slice()),
        ("@r\nACGT\n+\nIIII\r", ["ACGT"].as_slice()),
        // blank lines between records are passed over
        (between, ["AC", "", "GGT"].as_slice()),
    ] {
        gives(&rt, rt.alloc(), Format::Fastq, text, reads);
    }
}

#[test]
fn fasta_reads_are_all_lines_up_to_the_next_header(rt: HostRuntime) {
    let three = ["ACGT", "", "ACGT"];
    for (text, reads) in [
        (">a\r\nAC\r\nGT\r\n>b\n>c\nACGT", three.as_slice()),
        ("\n>a\nACGT\n\nACGT", ["ACGTACGT"].as_slice()),
        (">", [""].as_slice()),
        // neither a semicolon nor a header behind a space begins anything
        (">a\n;note\nAC\n >b\nGT\n", [";noteAC >bGT"].as_slice()),
    ] {
        gives(&rt, rt.alloc(), Format::Fasta, text, reads);
    }
}

#[test]
fn a_text_with_no_record_has_no_reads(rt: HostRuntime) {
    for text in ["", "\n", "\r", "\n\r\n"] {
        for format in [Format::Fastq, Format::Fasta] {
            gives(&rt, rt.alloc(), format, text, &[]);
        }
    }
}

#[test]
fn a_fastq_refusal_names_the_first_faulty_line(rt: HostRuntime) {
    for (text, refusal) in [
        ("r\nACGT\n+\nIIII\n", ReadsError::BadHeader(1)),
        ("@r\nACGT\n+\nIIII\nr", ReadsError::BadHeader(5)),
        ("\r\r\n", ReadsError::BadHeader(1)),
        ("\n@r\nACGT\nx\nIIII\n", ReadsError::BadPlus(4)),
        ("@r\nACGT\n\n+\nIIII\n", ReadsError::BadPlus(3)),
        ("@r\nACGT\n\n", ReadsError::BadPlus(3)),
        ("@r\nACGT\n\r", ReadsError::BadPlus(3)),
        ("@r\nACGT\n+\nIII\n", ReadsError::QualityLength(4)),
        ("@r\nACGT\n+\nIII", ReadsError::QualityLength(4)),
        ("@r\nACGT\n+\nIIIII\n", ReadsError::QualityLength(4)),
        ("@r\nACGT\n+\n\n", ReadsError::QualityLength(4)),
        ("@r", ReadsError::Truncated(2)),
        ("@r\nACGT\n", ReadsError::Truncated(3)),
        ("@r\n\r", ReadsError::Truncated(3)),
        ("@r\nACGT\n+\n", ReadsError::Truncated(4)),
        ("@r\n\n+\n", ReadsError::Truncated(4)),
        // a faulty line comes before a missing one
        ("x", ReadsError::BadHeader(1)),
        ("@r\nA\nx", ReadsError::BadPlus(3)),
    ] {
        refuses(&rt, rt.alloc(), Format::Fastq, text, refusal);
    }
}

#[test]
fn a_fasta_text_begins_with_a_header(rt: HostRuntime) {
    for (text, line) in [
        ("ACGT\n", 1),
        ("\n\r\n@r\n>a\nACGT\n", 3),
        ("\r\r\n", 1),
        (";note\n>a\nAC\n", 1),
    ] {
        refuses(
            &rt,
            rt.alloc(),
            Format::Fasta,
            text,
            ReadsError::BadHeader(line),
        );
    }
}

/// Asserts that a refusal is told so.
fn assert_told(
    rt: &impl Abort,
    alloc: Global,
    refusal: ReadsError,
    message: &str,
) -> Result<(), Fail> {
    let told = format!(in alloc; "{refusal}")?;
    assert_text(rt, told.as_str(), message);
    Ok(())
}

#[test]
fn a_refusal_is_told_with_its_line(rt: HostRuntime) -> Result<(), Fail> {
    for (refusal, message) in [
        (ReadsError::Memory, "out of memory"),
        (ReadsError::BadHeader(3), "line 3: bad header"),
        (ReadsError::BadPlus(4), "line 4: bad plus line"),
        (
            ReadsError::QualityLength(5),
            "line 5: quality length differs",
        ),
        (
            ReadsError::Truncated(18446744073709551615),
            "line 18446744073709551615: record cut short",
        ),
    ] {
        assert_told(&rt, rt.alloc(), refusal, message)?;
    }
    Ok(())
}
