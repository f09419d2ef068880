//! Records and parts: worked values in both directions, refusals, and a table from an independent program.
mod judged;
mod plain;
mod rows;

use crate::tests::given::{
    append_record, assert_bytes, assert_number, assert_text, chunk_of, field, mixed_reads, number,
    push_bin, record_of, same_bytes, shape_of,
};
use kmc_base::laws::{body_has_one_list, no_spelling_begins_another};
use kmc_record::laws::{spelling_has_no_fault, whole_body_has_no_fault};
use kmc_record::{Part, PartError, RecordError, RecordFault, Shape, decode, parts_of};
use plain::plain_text;
use rows::rows;
use std::alloc::{AllocError, Global};
use std::process::Abort;
use std::test::Fail;

#[test]
fn writes_records_behind_what_is_there(rt: HostRuntime) -> Result<(), Fail> {
    let alloc = rt.alloc();
    let mut bytes = [7].to_vec(alloc)?;
    append_record(&rt, alloc, &mut bytes, b"ACGTAC", 5)?;
    append_record(&rt, alloc, &mut bytes, b"AACCGTT", 7)?;
    append_record(&rt, alloc, &mut bytes, b"ACCGTTAC", 7)?;
    append_record(&rt, alloc, &mut bytes, b"ACGT", 4)?;
    let want = [
        7, 0x01, 0x1B, 0x10, 0x00, 0x05, 0xBC, 0x01, 0x16, 0xF1, 0x00, 0x1B,
    ];
    assert_bytes(&rt, &bytes, &want);
    Ok(())
}

/// A record with this first byte, so many bytes of codes, and the last of these.
fn long_record(
    alloc: Global,
    first: u8,
    byte: u8,
    size: usize,
    last: u8,
) -> Result<Vec<u8>, AllocError> {
    let mut record = [first].to_vec(alloc)?;
    record.resize(size, byte)?;
    record.push(last)?;
    Ok(record)
}

/// Asserts that so many equal letters have the record that was worked out.
fn assert_record_of_run(
    rt: &impl Abort,
    alloc: Global,
    (letter, length): (u8, usize),
    k: usize,
    want: Vec<u8>,
) -> Result<(), Fail> {
    let letters = same_bytes(alloc, letter, length)?;
    assert_bytes(rt, &record_of(rt, alloc, &letters, k)?, &want);
    Ok(())
}

#[test]
fn writes_long_records(rt: HostRuntime) -> Result<(), Fail> {
    let alloc = rt.alloc();
    let longest = long_record(alloc, 0xFF, 0x00, 70, 0x00)?;
    assert_record_of_run(&rt, alloc, (b'A', 280), 25, longest)?;
    let rest = long_record(alloc, 0x13, 0x00, 11, 0x00)?;
    assert_record_of_run(&rt, alloc, (b'A', 44), 25, rest)
}

#[test]
fn writes_long_records_of_the_longest_words(rt: HostRuntime) -> Result<(), Fail> {
    let alloc = rt.alloc();
    let longest = long_record(alloc, 0xFF, 0x00, 80, 0x00)?;
    assert_record_of_run(&rt, alloc, (b'A', 319), 64, longest)?;
    let two_words = long_record(alloc, 0x01, 0xFF, 17, 0xC0)?;
    assert_record_of_run(&rt, alloc, (b'T', 65), 64, two_words)
}

#[test]
fn reads_one_record_and_leaves_the_rest(rt: HostRuntime) -> Result<(), Fail> {
    let alloc = rt.alloc();
    let (s, rest) = decode(alloc, &[0x01, 0x1B, 0x10, 0xFF], 5)
        .ok()
        .expect(&rt, "a record");
    assert_bytes(&rt, s.codes(), &[0, 1, 2, 3, 0, 1]);
    assert_bytes(&rt, rest, &[0xFF]);
    Ok(())
}

#[test]
fn refuses_damaged_records(rt: HostRuntime) -> Result<(), Fail> {
    let alloc = rt.alloc();
    for (bytes, refusal) in [
        (
            [0x01, 0x1B, 0x11].as_slice(),
            RecordError::Damaged(RecordFault::Padding),
        ),
        (
            [0x01, 0x1B].as_slice(),
            RecordError::Damaged(RecordFault::Short),
        ),
        ([].as_slice(), RecordError::Damaged(RecordFault::Short)),
    ] {
        assert_eq!(rt; decode(alloc, bytes, 5).err(), Some(refusal));
    }
    Ok(())
}

/// Asserts that the shape of k, p and n has this m.
fn assert_shape(rt: &impl Abort, (k, p, n): (usize, usize, usize), m: usize) {
    let shape = shape_of(rt, k, p, n);
    assert!(rt;
        (shape.k(), shape.m(), shape.n()) == (k, m, n),
        "{k}, {p}, {n}"
    );
}

#[test]
fn m_is_the_lesser_of_p_and_k(rt: HostRuntime) {
    assert_shape(&rt, (64, 8, 2000), 8);
    assert_shape(&rt, (4, 8, 7), 4);
    assert_shape(&rt, (25, 5, 1), 5);
    assert_shape(&rt, (25, 9, 512), 9);
    assert_shape(&rt, (64, 11, 2000), 11);
}

#[test]
fn signatures_of_a_shape_may_have_any_length_up_to_k(rt: HostRuntime) {
    for (k, m) in [(1, 0), (1, 1), (10, 0), (25, 8), (25, 11), (64, 3)] {
        let shape = Shape::of_signature_length(k, m, 7).expect(&rt, "a shape");
        assert!(rt; (shape.k(), shape.m(), shape.n()) == (k, m, 7), "{k}, {m}");
    }
    for (k, m, n) in [(0, 0, 7), (65, 8, 7), (4, 5, 7), (25, 12, 7), (25, 8, 0)] {
        assert!(rt;
            Shape::of_signature_length(k, m, n).is_none(),
            "{k}, {m}, {n}"
        );
    }
}

#[test]
fn refuses_shapes_out_of_range(rt: HostRuntime) {
    for k in [0, 65] {
        assert!(rt; Shape::new(k, 8, 7).is_none(), "{k}");
    }
    for (p, n) in [(4, 7), (12, 7), (8, 0), (8, 2001)] {
        assert!(rt; Shape::new(25, p, n).is_none(), "{p}, {n}");
    }
}

/// Asserts that a part is of chunk 3 and has words of k symbols.
fn assert_part(rt: &impl Abort, part: &Part, k: usize) {
    assert!(rt; part.chunk() == 3);
    assert_number(rt, part.shape().k(), k);
}

/// The parts of the reads.
fn parts_text(rt: &impl Abort, alloc: Global, reads: &str, shape: Shape) -> Result<String, Fail> {
    let chunk = chunk_of(alloc, 3, reads)?;
    let mut text = String::new(alloc);
    for part in &parts_of(alloc, &chunk, shape)? {
        assert_part(rt, part, shape.k());
        push_bin(&mut text, alloc, part.bin(), part.words(), part.body())?;
    }
    Ok(text)
}

/// Asserts that the reads have these parts.
fn assert_parts(
    rt: &impl Abort,
    alloc: Global,
    reads: &str,
    shape: Shape,
    want: &str,
) -> Result<(), Fail> {
    assert_text(rt, parts_text(rt, alloc, reads, shape)?.as_str(), want);
    Ok(())
}

/// Asserts that the reads have these parts by the plain body.
fn assert_plain_parts(
    rt: &impl Abort,
    alloc: Global,
    reads: &str,
    shape: Shape,
    want: &str,
) -> Result<(), Fail> {
    assert_text(rt, plain_text(rt, alloc, reads, shape)?.as_str(), want);
    Ok(())
}

#[test]
fn gives_each_bin_its_records(rt: HostRuntime) -> Result<(), Fail> {
    let alloc = rt.alloc();
    let four = shape_of(&rt, 4, 8, 7);
    let seven = shape_of(&rt, 7, 5, 7);
    let none = Shape::of_signature_length(4, 0, 7).expect(&rt, "a shape");
    let long = shape_of(&rt, 64, 9, 512);
    for (reads, shape, want) in [
        ("ACGTACGT", four, "2 1 00b1;3 2 006c00c6;6 2 001b001b;"),
        ("AACCGTTAC", seven, "1 1 0005bc;5 2 0116f1;"),
        ("NNNN,ACG", four, ""),
        ("ACGTACGT", none, "0 5 041b1b;"),
        (
            "TTTTTTTTTTTTTTTTTTTTTTTTTTTTTTTTTTTTTTTTTTTTTTTTTTTTTTTTTTTTTTTT",
            long,
            "0 1 00ffffffffffffffffffffffffffffffff;",
        ),
    ] {
        assert_parts(&rt, alloc, reads, shape, want)?;
    }
    Ok(())
}

/// The shape of a row.
fn shape_of_row(rt: &impl Abort, row: &str) -> Result<Shape, Fail> {
    let (k, p, n) = (number(row, 0)?, number(row, 1)?, number(row, 2)?);
    Ok(shape_of(rt, k, p, n))
}

/// Asserts that the reads of a row have its parts, by both bodies.
fn assert_row(rt: &impl Abort, alloc: Global, row: &str) -> Result<(), Fail> {
    let shape = shape_of_row(rt, row)?;
    let (reads, want) = (field(row, 3)?, field(row, 4)?);
    assert_parts(rt, alloc, reads, shape, want)?;
    assert_plain_parts(rt, alloc, reads, shape, want)
}

#[test]
fn agrees_with_the_model_and_with_the_plain_body(rt: HostRuntime) -> Result<(), Fail> {
    assert_number(&rt, rows().lines().count(), 38);
    for row in rows().lines() {
        assert_row(&rt, rt.alloc(), row)?;
    }
    Ok(())
}

#[test]
fn parts_of_mixed_reads_are_those_of_the_plain_body(rt: HostRuntime) -> Result<(), Fail> {
    let alloc = rt.alloc();
    let reads = mixed_reads(alloc)?;
    for k in [1, 2, 3, 4, 5, 8, 9, 25, 31, 32, 33, 63, 64] {
        let shape = shape_of(&rt, k, 5, 7);
        let plain = plain_text(&rt, alloc, reads.as_str(), shape)?;
        assert_parts(&rt, alloc, reads.as_str(), shape, plain.as_str())?;
    }
    Ok(())
}

/// The number of words of the part of these bytes, or why there is none.
fn words_of_body(
    rt: &impl Abort,
    alloc: Global,
    shape: Shape,
    bin: usize,
    bytes: &[u8],
) -> Result<Result<u64, PartError>, AllocError> {
    assert!(rt; bin < shape.n());
    match Part::from_body(0, bin, shape, bytes.to_vec(alloc)?) {
        Ok(part) => Ok(Ok(part.words())),
        Err((e, back)) => {
            assert_bytes(rt, &back, bytes);
            Ok(Err(e))
        }
    }
}

/// The answer where a body's record is damaged.
fn damaged(fault: RecordFault, offset: usize) -> Result<u64, PartError> {
    Err(PartError::Damaged(fault, offset))
}

/// The answer where a body's record belongs to another bin.
fn of_another_bin(offset: usize) -> Result<u64, PartError> {
    Err(PartError::WrongBin(offset))
}

/// Asserts that the part of these bytes has so many words, or that there is none for this reason.
fn assert_words(
    rt: &impl Abort,
    alloc: Global,
    shape: Shape,
    bin: usize,
    bytes: &[u8],
    want: Result<u64, PartError>,
) -> Result<(), Fail> {
    let words = words_of_body(rt, alloc, shape, bin, bytes)?;
    assert!(rt; words == want, "{bytes:?} in {bin}");
    Ok(())
}

#[test]
fn takes_bodies_of_whole_records(rt: HostRuntime) -> Result<(), Fail> {
    let alloc = rt.alloc();
    let shape = shape_of(&rt, 4, 8, 7);
    let short = RecordFault::Short;
    assert_words(&rt, alloc, shape, 6, &[0, 0x1B, 0, 0x1B], Ok(2))?;
    assert_words(&rt, alloc, shape, 6, &[0, 0x1B, 0], damaged(short, 2))?;
    assert_words(&rt, alloc, shape, 6, &[0], damaged(short, 0))?;
    assert_words(&rt, alloc, shape, 6, &[], Ok(0))
}

#[test]
fn takes_bodies_of_records_of_the_bin(rt: HostRuntime) -> Result<(), Fail> {
    let alloc = rt.alloc();
    let shape = shape_of(&rt, 4, 8, 7);
    assert_words(&rt, alloc, shape, 6, &[0, 0x1B, 0, 0x6C], of_another_bin(2))?;
    assert_words(&rt, alloc, shape, 6, &[0, 0x6C, 0], of_another_bin(0))?;
    assert_words(&rt, alloc, shape, 6, &[1, 0x1B, 0], of_another_bin(0))?;
    assert_words(&rt, alloc, shape, 3, &[1, 0x1B, 0], of_another_bin(0))
}

#[test]
fn takes_bodies_of_records_of_two_words(rt: HostRuntime) -> Result<(), Fail> {
    let alloc = rt.alloc();
    let four = shape_of(&rt, 4, 8, 1);
    assert_words(&rt, alloc, four, 0, &[1, 0x1B, 0], Ok(2))?;
    let five = shape_of(&rt, 5, 5, 1);
    let padding = damaged(RecordFault::Padding, 0);
    assert_words(&rt, alloc, five, 0, &[1, 0x1B, 0x11], padding)?;
    assert_words(&rt, alloc, five, 0, &[1, 0x1B, 0x10], Ok(2))
}

#[test]
fn laws_can_be_called() {
    no_spelling_begins_another();
    body_has_one_list();
    spelling_has_no_fault();
    whole_body_has_no_fault();
}
