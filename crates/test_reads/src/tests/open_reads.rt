//! Open reads that are taken in pieces.
use crate::tests::answers::assert_fed;
use crate::tests::calls::{finish, take_open};
use kmc_reads::{Feeder, Format, Reads, read_all, to_vecs};
use std::alloc::{AllocError, Global};
use std::process::Abort;
use test_support::Dice;

/// Asserts that there is one read, and that it is this one.
fn assert_one(rt: &impl Abort, reads: &Reads, want: &[u8]) {
    assert!(rt; reads.len() == 1 && reads.get(0) == want);
}

/// Asserts that this piece of the open read is taken, of which two symbols stay open.
fn assert_taken(rt: &impl Abort, alloc: Global, feeder: &mut Feeder, want: &[u8]) {
    let piece = take_open(alloc, feeder, 2).expect(rt, "memory");
    assert_one(rt, &piece, want);
}

/// Asserts that no piece of an open read is taken, where so many symbols should stay open.
fn assert_none_taken(rt: &impl Abort, alloc: Global, feeder: &mut Feeder, overlap: usize) {
    let none = take_open(alloc, feeder, overlap).expect(rt, "memory");
    assert!(rt; none.is_empty());
}

/// Asserts that so many symbols are open.
fn assert_open(rt: &impl Abort, feeder: &Feeder, symbols: usize) {
    assert_eq!(rt; feeder.open_symbols(), symbols);
}

/// Asserts that the end of the text leaves just this read.
fn assert_last(rt: &impl Abort, feeder: Feeder, want: &[u8]) {
    let last = finish(feeder).ok().expect(rt, "the end");
    assert_one(rt, &last, want);
}

#[test]
fn an_open_read_is_taken_in_pieces_that_overlap(rt: HostRuntime) {
    let alloc = rt.alloc();
    let mut feeder = Feeder::new(alloc, Format::Fasta);
    assert_fed(&rt, &mut feeder, b">r\nACGTAC", Ok(()));
    assert_open(&rt, &feeder, 6);
    assert_taken(&rt, alloc, &mut feeder, b"ACGTAC");
    assert_open(&rt, &feeder, 2);
    // no more symbols than overlap are open
    assert_none_taken(&rt, alloc, &mut feeder, 2);
    assert_fed(&rt, &mut feeder, b"GT\nA", Ok(()));
    assert_taken(&rt, alloc, &mut feeder, b"ACGTA");
    // the line goes on: this is no header
    assert_fed(&rt, &mut feeder, b">C\r\n", Ok(()));
    assert_last(&rt, feeder, b"TA>C");
}

#[test]
fn the_next_pieces_lie_in_the_memory_of_spent_reads(rt: HostRuntime) {
    let alloc = rt.alloc();
    let mut feeder = Feeder::new(alloc, Format::Fasta);
    assert_fed(&rt, &mut feeder, b">r\n", Ok(()));
    let mut spent = Reads::new(alloc);
    for (block, want) in [
        ("ACGTAC", "ACGTAC"),
        ("GT", "ACGT"),
        ("CCCCCC", "GTCCCCCC"),
        ("A", "CCA"),
    ] {
        assert_fed(&rt, &mut feeder, block.as_bytes(), Ok(()));
        spent = feeder.take_open(2, spent).expect(&rt, "memory");
        assert_one(&rt, &spent, want.as_bytes());
    }
    assert_last(&rt, feeder, b"CA");
}

#[test]
fn an_open_fastq_read_is_kept_whole(rt: HostRuntime) {
    let alloc = rt.alloc();
    let mut feeder = Feeder::new(alloc, Format::Fastq);
    assert_fed(&rt, &mut feeder, b"@r\nACGT", Ok(()));
    assert_open(&rt, &feeder, 0);
    assert_none_taken(&rt, alloc, &mut feeder, 1);
    assert_fed(&rt, &mut feeder, b"\n+\nIIII\n", Ok(()));
    assert_last(&rt, feeder, b"ACGT");
}

/// The word that is looked for.
const WORD: &[u8] = b"CGA";

/// The sums of two pairs of numbers.
fn sums(one: (usize, usize), other: (usize, usize)) -> (usize, usize) {
    (one.0.saturating_add(other.0), one.1.saturating_add(other.1))
}

/// How many places of a read a word of three bytes begins at, and at how many of them it is `WORD`.
fn places(read: &[u8]) -> (usize, usize) {
    let mut all = (0usize, 0usize);
    for window in read.windows(3) {
        let same = if window == WORD { 1 } else { 0 };
        all = sums(all, (1, same));
    }
    all
}

/// The places of all reads.
fn all_places(reads: &[Vec<u8>]) -> (usize, usize) {
    let mut all = (0usize, 0usize);
    for read in reads {
        all = sums(all, places(read));
    }
    all
}

/// What a text is made of: short lines, some of which end with a carriage return.
const PARTS: [&str; 8] = [
    "ACG", "TTA\n", "C", "GA\r\n", "\r", "A>C\n", "\n>r\n", "CGACGA",
];

/// A FASTA text of such parts.
fn some_text(alloc: Global, dice: &mut Dice) -> Result<Vec<u8>, AllocError> {
    let mut text = Vec::new(alloc);
    text.extend_from_slice(b">r\n")?;
    for _ in 0..dice.roll(20) {
        text.extend_from_slice(PARTS[dice.roll(8)].as_bytes())?;
    }
    Ok(text)
}

/// The places of the open reads that are taken.
fn taken_places(alloc: Global, feeder: &mut Feeder) -> Result<(usize, usize), AllocError> {
    let taken = take_open(alloc, feeder, 2)?;
    Ok(all_places(&to_vecs(alloc, &taken)?))
}

/// Feeds a text in random blocks and takes open reads now and then: their places.
fn feed_blocks(
    rt: &impl Abort,
    alloc: Global,
    dice: &mut Dice,
    feeder: &mut Feeder,
    text: &[u8],
) -> Result<(usize, usize), AllocError> {
    let mut all = (0usize, 0usize);
    let mut rest = text;
    for _ in 0..text.len() + 1 {
        let (block, after) = rest.split_at(dice.roll(8).min(rest.len()));
        rest = after;
        assert_fed(rt, feeder, block, Ok(()));
        if dice.roll(2) == 0 {
            all = sums(all, taken_places(alloc, feeder)?);
        }
    }
    assert_fed(rt, feeder, rest, Ok(()));
    Ok(all)
}

/// The places of the open reads of a text in random blocks, and of the reads that its end leaves.
fn places_in_blocks(
    rt: &impl Abort,
    alloc: Global,
    dice: &mut Dice,
    text: &[u8],
) -> Result<(usize, usize), AllocError> {
    let mut feeder = Feeder::new(alloc, Format::Fasta);
    let open = feed_blocks(rt, alloc, dice, &mut feeder, text)?;
    let Ok(last) = finish(feeder) else {
        return Err(AllocError);
    };
    Ok(sums(open, all_places(&to_vecs(alloc, &last)?)))
}

/// Asserts that the places of a text are these.
fn assert_places(rt: &impl Abort, text: &[u8], given: (usize, usize), want: (usize, usize)) {
    assert_eq!(rt; given, want, "{text:?}");
}

/// Asserts that the places of a random text in blocks are those of the whole reads, and tells at how many of them the word is.
fn compare(rt: &impl Abort, alloc: Global, dice: &mut Dice) -> Result<usize, AllocError> {
    let text = some_text(alloc, dice)?;
    let given = places_in_blocks(rt, alloc, dice, &text)?;
    let Ok(reads) = read_all(alloc, &text, Format::Fasta) else {
        return Err(AllocError);
    };
    let want = all_places(&reads);
    assert_places(rt, &text, given, want);
    Ok(want.1)
}

#[test]
fn pieces_of_open_reads_have_the_places_of_the_reads(rt: HostRuntime) {
    let alloc = rt.alloc();
    let mut dice = Dice { state: 29 };
    let mut found: usize = 0;
    for _ in 0..100 {
        let answer = match compare(&rt, alloc, &mut dice) {
            Err(_) => compare(&rt, alloc, &mut dice),
            answer => answer,
        };
        found = found.saturating_add(answer.expect(&rt, "memory"));
    }
    // the texts are no idle ones
    assert!(rt; found > 50, "{found}");
}
