//! Lines of each length, with a wrong byte at each place, and counts of each number of digits.
use crate::devices::{at, limits};
use kmc_device::Counted;
use kmc_join::histogram;
use kmc_sum::{LineFault, SourceFault, SumError, TextReader, merge};
use std::alloc::{AllocError, Global};
use std::process::Abort;
use std::test::Fail;
use test_support::{BlockReader, Full, NarrowWriter};

/// Appends a line of so many letters, the first of which is this one of A, C, G, T.
fn push_line(
    text: &mut Vec<u8>,
    long: usize,
    first: usize,
    count: &[u8],
) -> Result<(), AllocError> {
    for i in 0..long {
        text.push(b"ACGT"[(i % 64 + i % 5 + first % 4) % 4])?;
    }
    text.push(b'\t')?;
    text.extend_from_slice(count)?;
    text.push(b'\n')?;
    Ok(())
}

/// Two lines of so many letters.
fn two_lines(alloc: Global, long: usize) -> Result<Vec<u8>, AllocError> {
    let mut text = Vec::new(alloc);
    push_line(&mut text, long, 0, b"7")?;
    push_line(&mut text, long, 1, b"12")?;
    Ok(text)
}

/// Two lines of so many letters, with another byte at a place.
fn spoilt_lines(
    rt: &(impl Abort + Alloc<A = Global>),
    long: usize,
    place: usize,
    byte: u8,
) -> Result<Vec<u8>, Fail> {
    let mut text = two_lines(rt.alloc(), long)?;
    assert!(rt; place < text.len());
    text[place] = byte;
    Ok(text)
}

/// What the merge of one text answers and writes.
fn merged(
    rt: &(impl Abort + Alloc<A = Global>),
    text: &[u8],
) -> Result<(Result<u64, SumError>, Vec<u8>), Fail> {
    let mut readers = [Counted::new(TextReader(BlockReader::new(text, 4096, 0)))];
    let out = NarrowWriter::new(Vec::new(rt.alloc()), 4096, 1 << 20, Full::Fails, true);
    let mut writer = Counted::new(out);
    let answer = merge(
        rt.alloc(),
        &mut readers,
        &limits(1, 1000, 1000)?,
        &mut writer,
    );
    Ok((answer, writer.into_inner().into_bytes()))
}

/// What the histogram of one text answers and writes.
fn counted(rt: &(impl Abort + Alloc<A = Global>), text: &[u8]) -> (Result<(), SumError>, Vec<u8>) {
    let mut readers = [Counted::new(TextReader(BlockReader::new(text, 4096, 0)))];
    let out = NarrowWriter::new(Vec::new(rt.alloc()), 4096, 1 << 20, Full::Fails, true);
    let mut writer = Counted::new(out);
    let answer = histogram(rt.alloc(), &mut readers, &mut writer);
    (answer, writer.into_inner().into_bytes())
}

#[test]
fn lines_of_each_length_are_read(rt: HostRuntime) -> Result<(), Fail> {
    for long in 1..65 {
        let text = two_lines(rt.alloc(), long)?;
        let (answer, written) = merged(&rt, text.as_slice())?;
        assert_eq!(rt; answer, Ok(2));
        assert_eq!(rt; written.as_slice(), text.as_slice());
    }
    Ok(())
}

#[test]
fn a_wrong_byte_is_found_at_each_place_of_each_length(rt: HostRuntime) -> Result<(), Fail> {
    let malformed = LineFault::Malformed;
    let bytes = b"aNEU\t\n0\xc1";
    for long in 1..65 {
        for place in 0..long {
            let wrong = bytes[(long + place) % 8];
            let text = spoilt_lines(&rt, long, place, wrong)?;
            let (answer, _) = merged(&rt, text.as_slice())?;
            assert_eq!(rt; answer, Err(at(0, SourceFault::Line(1, malformed))));
            let text = spoilt_lines(&rt, long, long + 3 + place, wrong)?;
            let (answer, _) = merged(&rt, text.as_slice())?;
            assert_eq!(rt; answer, Err(at(0, SourceFault::Line(2, malformed))));
        }
    }
    Ok(())
}

#[test]
fn counts_of_each_number_of_digits_are_read(rt: HostRuntime) -> Result<(), Fail> {
    let digits = b"12345678901234567890";
    for long in 1..21 {
        let count = &digits[..long];
        let mut text = Vec::new(rt.alloc());
        push_line(&mut text, 31, 0, count)?;
        push_line(&mut text, 31, 1, count)?;
        let mut row = Vec::new(rt.alloc());
        row.extend_from_slice(count)?;
        row.extend_from_slice(b"\t2\n")?;
        let (answer, written) = counted(&rt, text.as_slice());
        assert_eq!(rt; answer, Ok(()));
        assert_eq!(rt; written.as_slice(), row.as_slice());
    }
    Ok(())
}

/// Passes where no line has this count, with a line behind it and with none.
fn no_count(rt: &(impl Abort + Alloc<A = Global>), count: &[u8]) -> Result<(), Fail> {
    let malformed = SourceFault::Line(1, LineFault::Malformed);
    let mut text = Vec::new(rt.alloc());
    push_line(&mut text, 31, 0, count)?;
    let (answer, _) = counted(rt, text.as_slice());
    assert_eq!(rt; answer, Err(at(0, malformed)));
    push_line(&mut text, 31, 1, b"1")?;
    let (answer, _) = counted(rt, text.as_slice());
    assert_eq!(rt; answer, Err(at(0, malformed)));
    Ok(())
}

#[test]
fn what_is_no_count_is_refused(rt: HostRuntime) -> Result<(), Fail> {
    no_count(&rt, b"")?;
    no_count(&rt, b"0")?;
    no_count(&rt, b"00")?;
    no_count(&rt, b"01")?;
    no_count(&rt, b"012")?;
    no_count(&rt, b"a")?;
    no_count(&rt, b"1a")?;
    no_count(&rt, b"12/")?;
    no_count(&rt, b"123:")?;
    no_count(&rt, b"1234 ")?;
    no_count(&rt, b"1\t2")?;
    no_count(&rt, b"18446744073709551616")?;
    no_count(&rt, b"123456789012345678901")
}
