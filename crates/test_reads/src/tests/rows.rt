//! Worked rows of a feeder.
use crate::tests::answers::{assert_end_refused, assert_fed};
use crate::tests::calls::{feed, finish, take};
use kmc_reads::{Feeder, Format, Reads, ReadsError};
use std::alloc::Global;
use std::process::Abort;

/// Asserts that the read of this number, where there is one, is this.
fn is_read(rt: &impl Abort, reads: &Reads, i: usize, want: &str, told: &str) {
    if i < reads.len() {
        assert_eq!(rt; reads.get(i), want.as_bytes(), "{told:?}");
    }
}

/// Asserts that these are the reads.
fn are(rt: &impl Abort, reads: &Reads, want: &[&str], told: &str) {
    assert_eq!(rt;
        (reads.len(), reads.is_empty()),
        (want.len(), want.is_empty()),
        "{told:?}"
    );
    for (i, want) in want.iter().enumerate() {
        is_read(rt, reads, i, want, told);
    }
}

/// The symbols of these reads.
fn symbols_of(reads: &[&str]) -> usize {
    let mut symbols = 0usize;
    for read in reads {
        symbols = symbols.saturating_add(read.len());
    }
    symbols
}

/// Asserts that so many reads with so many symbols wait.
fn wait(rt: &impl Abort, feeder: &Feeder, reads: usize, symbols: usize, told: &str) {
    assert_eq!(rt;
        (feeder.waiting(), feeder.waiting_symbols()),
        (reads, symbols),
        "{told:?}"
    );
}

/// Asserts that these reads are taken.
fn are_taken(rt: &impl Abort, alloc: Global, feeder: &mut Feeder, want: &[&str], told: &str) {
    let reads = take(alloc, feeder).expect(rt, told);
    are(rt, &reads, want, told);
}

/// Asserts that this block ends just these reads.
fn gives(rt: &impl Abort, alloc: Global, feeder: &mut Feeder, block: &str, want: &[&str]) {
    feed(feeder, block.as_bytes()).expect(rt, block);
    wait(rt, feeder, want.len(), symbols_of(want), block);
    are_taken(rt, alloc, feeder, want, block);
}

/// Asserts that none of these blocks ends a read.
fn give_none(rt: &impl Abort, alloc: Global, feeder: &mut Feeder, blocks: &[&str]) {
    for block in blocks {
        gives(rt, alloc, feeder, block, &[]);
    }
}

/// Asserts that this block is refused so.
fn refuses(rt: &impl Abort, feeder: &mut Feeder, block: &str, want: ReadsError) {
    assert_fed(rt, feeder, block.as_bytes(), Err(want));
}

/// Asserts that the end of the text leaves just these reads.
fn ends(rt: &impl Abort, feeder: Feeder, want: &[&str]) {
    let left = finish(feeder).ok().expect(rt, "the end");
    are(rt, &left, want, "the end");
}

#[test]
fn a_read_ends_with_the_line_feed_of_its_quality(rt: HostRuntime) {
    let alloc = rt.alloc();
    let mut feeder = Feeder::new(alloc, Format::Fastq);
    give_none(&rt, alloc, &mut feeder, &["@r\nAC", "", "GT\n+\nIIII"]);
    gives(&rt, alloc, &mut feeder, "\n", &["ACGT"]);
    ends(&rt, feeder, &[]);
}

#[test]
fn the_end_of_the_text_ends_the_last_line(rt: HostRuntime) {
    let alloc = rt.alloc();
    for format in [Format::Fastq, Format::Fasta] {
        ends(&rt, Feeder::new(alloc, format), &[]);
    }
    let mut feeder = Feeder::new(alloc, Format::Fastq);
    gives(&rt, alloc, &mut feeder, "@r\nACGT\n+\nIIII", &[]);
    ends(&rt, feeder, &["ACGT"]);
}

#[test]
fn a_fasta_read_ends_with_the_first_byte_of_the_next_header(rt: HostRuntime) {
    let alloc = rt.alloc();
    let mut feeder = Feeder::new(alloc, Format::Fasta);
    gives(&rt, alloc, &mut feeder, ">a\nAC\nGT", &[]);
    gives(&rt, alloc, &mut feeder, "\n>", &["ACGT"]);
    ends(&rt, feeder, &[""]);
    let mut feeder = Feeder::new(alloc, Format::Fasta);
    give_none(&rt, alloc, &mut feeder, &["\r\n", ">a\r", "\nAC\r"]);
    // a carriage return inside a line is a byte of it, and what follows is no header
    gives(&rt, alloc, &mut feeder, ">b\n>c\n>d", &["AC\r>b", ""]);
    ends(&rt, feeder, &[""]);
}

#[test]
fn a_carriage_return_at_the_end_of_a_block_waits(rt: HostRuntime) {
    let alloc = rt.alloc();
    let mut feeder = Feeder::new(alloc, Format::Fastq);
    give_none(&rt, alloc, &mut feeder, &["@r\r", "\nACGT\r"]);
    gives(&rt, alloc, &mut feeder, "\n+\r\nIIII\r\n", &["ACGT"]);
    // one that is followed by another is content
    give_none(&rt, alloc, &mut feeder, &["@s\nA\r", "\r"]);
    gives(&rt, alloc, &mut feeder, "\n+\nII\n", &["A\r"]);
    ends(&rt, feeder, &[]);
}

#[test]
fn a_line_is_judged_once_its_line_feed_has_come(rt: HostRuntime) {
    let alloc = rt.alloc();
    let mut feeder = Feeder::new(alloc, Format::Fastq);
    gives(&rt, alloc, &mut feeder, "@r\nACGT\nx", &[]);
    refuses(&rt, &mut feeder, "\n", ReadsError::BadPlus(3));
    refuses(&rt, &mut feeder, "y", ReadsError::BadPlus(3));
    are_taken(&rt, alloc, &mut feeder, &[], "after a refusal");
    refuses(&rt, &mut feeder, "", ReadsError::BadPlus(3));
    assert_end_refused(&rt, feeder, ReadsError::BadPlus(3));
}

#[test]
fn reads_that_ended_before_a_refused_block_are_taken_after_it(rt: HostRuntime) {
    let alloc = rt.alloc();
    let mut feeder = Feeder::new(alloc, Format::Fastq);
    feed(&mut feeder, b"@r\nACGT\n+\nIIII\n@s\nGG\n+\nII\n@t\nT").expect(
        &rt,
        "two reads and an open one",
    );
    // the read that is open ends in the block that has the faulty line
    refuses(&rt, &mut feeder, "\n+\nI\nx\n", ReadsError::BadHeader(13));
    wait(&rt, &feeder, 2, 6, "after a refusal");
    are_taken(&rt, alloc, &mut feeder, &["ACGT", "GG"], "after a refusal");
    are_taken(&rt, alloc, &mut feeder, &[], "a second time");
    refuses(&rt, &mut feeder, "", ReadsError::BadHeader(13));
}

/// Asserts that the end of this text, which ends no read, is refused so, and hands the feeder back.
fn end_of_text_refused(
    rt: &impl Abort,
    alloc: Global,
    format: Format,
    text: &str,
    want: ReadsError,
) -> Option<Feeder> {
    let mut feeder = Feeder::new(alloc, format);
    gives(rt, alloc, &mut feeder, text, &[]);
    assert_end_refused(rt, feeder, want)
}

#[test]
fn the_end_judges_the_last_line(rt: HostRuntime) {
    for (format, text, want) in [
        (Format::Fastq, "@r\nACGT\nx", ReadsError::BadPlus(3)),
        (Format::Fastq, "@r\nACGT\n", ReadsError::Truncated(3)),
        (Format::Fasta, "@r", ReadsError::BadHeader(1)),
    ] {
        end_of_text_refused(&rt, rt.alloc(), format, text, want);
    }
}

#[test]
fn an_end_that_was_refused_is_refused_again(rt: HostRuntime) {
    let want = ReadsError::QualityLength(4);
    let text = "@r\nACGT\n+\nIII";
    let refused = end_of_text_refused(&rt, rt.alloc(), Format::Fastq, text, want);
    let mut feeder = refused.expect(&rt, "the feeder");
    refuses(&rt, &mut feeder, "I\n", want);
    assert_end_refused(&rt, feeder, want);
}

#[test]
fn no_reads_are_none(rt: HostRuntime) {
    are(&rt, &Reads::new(rt.alloc()), &[], "no reads");
}
