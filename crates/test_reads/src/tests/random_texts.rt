//! Random texts, good and bad, in random blocks against a plain reader of whole lines.
use crate::tests::answers::{assert_end_refused, assert_fed};
use crate::tests::calls::{feed, finish, take};
use crate::tests::plain::{Reading, plain_reads};
use kmc_reads::{Feeder, Format, Reads, ReadsError, read_all, to_vecs};
use std::alloc::{AllocError, Global};
use std::process::Abort;
use test_support::Dice;

/// What a random text is made of.
const PARTS: [&str; 14] = [
    "@r\nACGT\n+\nIIII\n",
    "@s\r\nAC\r\n+s\r\nII\r\n",
    "@t\n\n+\n\n",
    "@u\nGATTACA\n+\n@@@@@@@",
    ">a\nACGT\nAC\n",
    ">b\r\n\r\nGT\r",
    ">\n",
    "\n",
    "\r\n",
    "\r",
    "AC",
    "+\n",
    "III",
    "@",
];

/// A text of up to seven parts, of which the first ones are mostly of one kind.
fn some_text(alloc: Global, dice: &mut Dice, format: Format) -> Result<Vec<u8>, AllocError> {
    let (first, kinds) = match format {
        Format::Fastq => (0, 4),
        Format::Fasta => (4, 6),
    };
    let mut text = Vec::new(alloc);
    for _ in 0..dice.roll(8) {
        let part = if dice.roll(6) == 0 {
            dice.roll(PARTS.len())
        } else {
            first + dice.roll(kinds)
        };
        text.extend_from_slice(PARTS[part].as_bytes())?;
    }
    Ok(text)
}

/// Adds copies of these reads.
fn push_reads(alloc: Global, given: &mut Vec<Vec<u8>>, reads: &Reads) -> Result<(), AllocError> {
    for read in &to_vecs(alloc, reads)? {
        given.push(Vec::from_slice(alloc, read)?)?;
    }
    Ok(())
}

/// Asserts that a feeder that refused the text refuses whatever follows, and its end.
fn refuses_for_good(rt: &impl Abort, feeder: Feeder, want: ReadsError) {
    let mut feeder = feeder;
    assert_fed(rt, &mut feeder, b"", Err(want));
    assert_fed(rt, &mut feeder, b"@r\nA\n+\nI\n", Err(want));
    assert_end_refused(rt, feeder, want);
}

/// Feeds a text in random blocks, and adds the reads that are taken now and then; or the refusal of a block.
fn feed_blocks(
    alloc: Global,
    dice: &mut Dice,
    feeder: &mut Feeder,
    text: &[u8],
    given: &mut Vec<Vec<u8>>,
) -> Result<Result<(), ReadsError>, AllocError> {
    let mut rest = text;
    for _ in 0..text.len() + 1 {
        let (block, after) = rest.split_at(dice.roll(6).min(rest.len()));
        rest = after;
        if let Err(e) = feed(feeder, block) {
            return Ok(Err(e));
        }
        if dice.roll(3) == 0 {
            push_reads(alloc, given, &take(alloc, feeder)?)?;
        }
    }
    Ok(feed(feeder, rest))
}

/// The reads that are left at the end of the text are added to those that were given, or the end is refused, and with it
/// whatever follows.
fn reads_to_the_end(
    rt: &impl Abort,
    alloc: Global,
    feeder: Feeder,
    mut given: Vec<Vec<u8>>,
) -> Result<Reading, AllocError> {
    match finish(feeder) {
        Err((e, feeder)) => {
            refuses_for_good(rt, feeder, e);
            Ok(Err(e))
        }
        Ok(reads) => {
            push_reads(alloc, &mut given, &reads)?;
            Ok(Ok(given))
        }
    }
}

/// The reads of a text that is fed in random blocks, or its refusal, which is for good.
fn reads_in_blocks(
    rt: &impl Abort,
    alloc: Global,
    dice: &mut Dice,
    text: &[u8],
    format: Format,
) -> Result<Reading, AllocError> {
    let mut feeder = Feeder::new(alloc, format);
    let mut given = Vec::new(alloc);
    if let Err(e) = feed_blocks(alloc, dice, &mut feeder, text, &mut given)? {
        refuses_for_good(rt, feeder, e);
        return Ok(Err(e));
    }
    reads_to_the_end(rt, alloc, feeder, given)
}

/// Asserts that the text is answered as the plain reader answers it.
fn assert_same(rt: &impl Abort, text: &[u8], answer: &Reading, want: &Reading) {
    assert_eq!(rt; answer, want, "{text:?}");
}

/// Asserts that a random text in random blocks has the reads of the plain reader, or its refusal, and tells whether it has
/// reads. `read_all` says the same.
fn compare(
    rt: &impl Abort,
    alloc: Global,
    dice: &mut Dice,
    format: Format,
) -> Result<bool, AllocError> {
    let text = some_text(alloc, dice, format)?;
    let want = plain_reads(alloc, &text, format)?;
    let answer = reads_in_blocks(rt, alloc, dice, &text, format)?;
    assert_same(rt, &text, &answer, &want);
    Ok(want.is_ok())
}

/// Asserts that `read_all` answers as the plain reader.
fn compare_whole(
    rt: &impl Abort,
    alloc: Global,
    dice: &mut Dice,
    format: Format,
) -> Result<(), AllocError> {
    let text = some_text(alloc, dice, format)?;
    let want = plain_reads(alloc, &text, format)?;
    let answer = match read_all(alloc, &text, format) {
        Err(ReadsError::Memory) => read_all(alloc, &text, format),
        answer => answer,
    };
    assert_same(rt, &text, &answer, &want);
    Ok(())
}

/// How many of 100 random texts have reads.
fn good_texts(rt: &impl Abort, alloc: Global, dice: &mut Dice, format: Format) -> u32 {
    let mut good = 0u32;
    for _ in 0..100 {
        let answer = match compare(rt, alloc, dice, format) {
            Err(_) => compare(rt, alloc, dice, format),
            answer => answer,
        };
        if answer.expect(rt, "memory") {
            good = good.saturating_add(1);
        }
    }
    good
}

#[test]
fn blocks_give_what_the_plain_reader_gives(rt: HostRuntime) {
    let mut dice = Dice { state: 5 };
    for format in [Format::Fastq, Format::Fasta] {
        let good = good_texts(&rt, rt.alloc(), &mut dice, format);
        // texts of both kinds were there
        assert!(rt; 20 < good && good < 95, "{good} good texts");
    }
}

/// Compares 100 whole texts.
fn compare_whole_texts(rt: &impl Abort, alloc: Global, dice: &mut Dice, format: Format) {
    for _ in 0..100 {
        let answer = match compare_whole(rt, alloc, dice, format) {
            Err(_) => compare_whole(rt, alloc, dice, format),
            answer => answer,
        };
        answer.expect(rt, "memory");
    }
}

#[test]
fn whole_texts_give_what_the_plain_reader_gives(rt: HostRuntime) {
    let mut dice = Dice { state: 11 };
    for format in [Format::Fastq, Format::Fasta] {
        compare_whole_texts(&rt, rt.alloc(), &mut dice, format);
    }
}
