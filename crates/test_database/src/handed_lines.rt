//! Lines that are handed out of a database: with the bytes that are read between them they are its dump, and a read that fails loses none.
use crate::databases::{ALL_SOUND, unpacked};
use crate::devices::{SOUND, counts_of, packed};
use crate::files::prefix_file;
use kmc_database::{DatabaseReader, DumpSource, UnpackError, database_header};
use kmc_device::Counted;
use kmc_sum::{Line, LineRead};
use std::alloc::{AllocError, Global};
use std::io::Read;
use std::process::Abort;
use std::test::Fail;
use test_support::BlockReader;

/// The table, the header and the rows of three words of five symbols: AACCG once, AACGG twice, CAAAA three times.
const TABLE: [(u64, u64); 3] = [(0, 1), (2, 1), (3, 2)];

const HEADER: [u32; 10] = [5, 0, 1, 1, 1, 255, 3, 0, 0, 0];

const ROWS: &[u8] = b"KMCS\x16\x01\x1a\x02\0\x03KMCS";

const TEXT: &[u8] = b"AACCG\t1\nAACGG\t2\nCAAAA\t3\n";

/// Puts the text of a line, which is as long as the line says.
fn put(
    rt: &(impl Abort + Alloc<A = Global>),
    text: &mut Vec<u8>,
    line: &Line,
) -> Result<(), AllocError> {
    let before = text.len();
    let k = line.k.min(64);
    for i in 0..k {
        text.push(b"ACGT"[((line.packed >> (2 * (k - 1 - i))) & 3) as usize])?;
    }
    let rest = format!(in rt.alloc(); "\t{}\n", line.count)?;
    text.extend_from_slice(rest.as_bytes())?;
    assert!(rt; text.len() >= before && text.len() - before == line.end);
    Ok(())
}

/// What was handed out as lines and read as bytes between them, how many lines these were, and how many reads failed.
#[derive(Drop)]
struct Given {
    text: Vec<u8>,
    lines: u64,
    failures: u64,
}

/// Takes the lines of a reader. In so many of seven turns a byte is read first, and where no line is handed out as many as there is room for.
fn given_by(
    rt: &(impl Abort + Alloc<A = Global>),
    reader: &mut impl LineRead,
    reads: u64,
) -> Result<Given, Fail> {
    let mut buffer = [0; 20];
    let mut text = Vec::new(rt.alloc());
    let mut lines: u64 = 0;
    let mut failures: u64 = 0;
    for turn in 0..10_000u64 {
        let size = if turn % 7 < reads { 1 } else { 20 };
        if size > 1 {
            if let Some(line) = reader.take_line() {
                put(rt, &mut text, &line)?;
                lines = lines.saturating_add(1);
                continue;
            }
        }
        match reader.read(&mut buffer[..size]) {
            Ok(count) => {
                if count == 0 {
                    break;
                }
                text.extend_from_slice(&buffer[..count])?;
            }
            Err(_) => failures = failures.saturating_add(1),
        }
    }
    Ok(Given {
        text,
        lines,
        failures,
    })
}

/// What is taken of the files, read with so many bytes before lines, while these reads of the two files fail.
fn taken(
    rt: &(impl Abort + Alloc<A = Global>),
    files: [&[u8]; 2],
    reads: u64,
    failing: [u64; 2],
) -> Result<(Given, Option<UnpackError>), Fail> {
    let [prefix, suffix] = files;
    let told = database_header(
        rt.alloc(),
        &mut Counted::new(BlockReader::new(prefix, 7, 0)),
    )?;
    let table = BlockReader::new(prefix, 11, failing[0]);
    let rows = BlockReader::new(suffix, 5, failing[1]);
    let mut reader = DatabaseReader::new(told, table, rows);
    let given = given_by(rt, &mut reader, reads)?;
    Ok((given, reader.fault()))
}

#[test]
fn lines_and_bytes_are_the_dump(rt: HostRuntime) -> Result<(), Fail> {
    let prefix = prefix_file(rt.alloc(), &TABLE, HEADER)?;
    for reads in 0..7 {
        let (given, fault) = taken(&rt, [prefix.as_slice(), ROWS], reads, [0, 0])?;
        assert_eq!(rt; given.text.as_slice(), TEXT);
        assert!(rt; fault == None && (given.lines == 3) == (reads == 0));
    }
    Ok(())
}

#[test]
fn counts_of_all_widths_are_handed_out(rt: HostRuntime) -> Result<(), Fail> {
    let text =
        "AACCGTA\t1\nAACCGTC\t9\nAACCGTG\t10\nAACCGTT\t99\nACGTACG\t100\nCAAAAAA\t65536\nTTTTTTT\t4294967295\n";
    let files = packed(&rt, text, &counts_of(4, 1, 4_294_967_295), SOUND)?;
    let both = [files.prefix.as_slice(), files.suffix.as_slice()];
    let (given, _) = taken(&rt, both, 0, [0, 0])?;
    assert_eq!(rt; given.text.as_slice(), text.as_bytes());
    assert_eq!(rt; given.lines, 7);
    Ok(())
}

#[test]
fn words_of_each_length_are_handed_out(rt: HostRuntime) -> Result<(), Fail> {
    for k in 1..65 {
        let mut text = String::new(rt.alloc());
        for symbol in ['A', 'C', 'T'] {
            for _place in 0..k {
                text.push(symbol)?;
            }
            text.push_str("\t7\n")?;
        }
        let files = packed(&rt, text.as_str(), &counts_of(1, 1, 255), SOUND)?;
        let both = [files.prefix.as_slice(), files.suffix.as_slice()];
        let (given, _) = taken(&rt, both, 0, [0, 0])?;
        assert_eq!(rt; given.text.as_slice(), text.as_bytes());
        assert_eq!(rt; given.lines, 3);
    }
    Ok(())
}

#[test]
fn a_read_that_fails_loses_no_line(rt: HostRuntime) -> Result<(), Fail> {
    let prefix = prefix_file(rt.alloc(), &TABLE, HEADER)?;
    for reads in 0..3 {
        for read in 1..5 {
            for failing in [[read, 0], [0, read]] {
                let (given, _) = taken(&rt, [prefix.as_slice(), ROWS], reads, failing)?;
                assert_eq!(rt; given.text.as_slice(), TEXT);
                assert_eq!(rt; given.failures, 1);
            }
        }
    }
    Ok(())
}

/// Passes where at most the first row of these rows is handed out as a line, and what is at fault is told as it is when they are unpacked.
fn stops(
    rt: &(impl Abort + Alloc<A = Global>),
    suffix: &[u8],
    fault: UnpackError,
) -> Result<(), Fail> {
    let prefix = prefix_file(rt.alloc(), &TABLE, HEADER)?;
    let dumped = unpacked(rt, prefix.as_slice(), suffix, ALL_SOUND)?;
    assert_eq!(rt; dumped.answer, Err(fault));
    let (given, told) = taken(rt, [prefix.as_slice(), suffix], 0, [0, 0])?;
    assert_eq!(rt; told, Some(fault));
    assert_eq!(rt; given.text.as_slice().last().copied(), Some(0));
    assert!(rt; given.lines <= 1);
    Ok(())
}

#[test]
fn no_line_at_fault_is_handed_out(rt: HostRuntime) -> Result<(), Fail> {
    stops(
        &rt,
        b"KMCS\x16\x01\x16\x02\0\x03KMCS",
        UnpackError::NotRising(2),
    )?;
    stops(
        &rt,
        b"KMCS\x16\x01\x1a\0\0\x03KMCS",
        UnpackError::ZeroCount(2),
    )?;
    stops(&rt, b"KMCS\x16", UnpackError::Cut(1))
}

#[test]
fn a_text_hands_out_no_line(rt: HostRuntime) -> Result<(), Fail> {
    let text = BlockReader::new(TEXT, 7, 0);
    let mut source: DumpSource<BlockReader, BlockReader> = DumpSource::Text(text);
    let given = given_by(&rt, &mut source, 0)?;
    assert_eq!(rt; given.text.as_slice(), TEXT);
    assert_eq!(rt; given.lines, 0);
    Ok(())
}
