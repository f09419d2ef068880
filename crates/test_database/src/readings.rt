//! Databases read as their dumps: the text is what is unpacked, whatever the buffer, and ends with byte 0 where that is refused.
use crate::databases::{ALL_SOUND, unpacked};
use crate::devices::{SOUND, counts_of, packed};
use crate::files::prefix_file;
use kmc_base::Strands;
use kmc_database::{DatabaseReader, Header, UnpackError, database_header};
use kmc_device::Counted;
use std::alloc::Global;
use std::io::Read;
use std::process::Abort;
use std::test::Fail;
use test_support::BlockReader;

/// The table, the header and the rows of three words of five symbols: AACCG once, AACGG twice, CAAAA three times.
const TABLE: [(u64, u64); 3] = [(0, 1), (2, 1), (3, 2)];

const HEADER: [u32; 10] = [5, 0, 1, 1, 1, 255, 3, 0, 0, 0];

const ROWS: &[u8] = b"KMCS\x16\x01\x1a\x02\0\x03KMCS";

/// What was read, how many reads failed, and why the text ended with byte 0.
#[derive(Drop)]
struct Reading {
    text: Vec<u8>,
    failures: u64,
    fault: Option<UnpackError>,
}

/// Which reads fail: of the prefix file and of the suffix file; 0 for none.
type Failing = (u64, u64);

/// Reads the files as a text, so many bytes at a time and again after each read that fails.
fn text_of(
    rt: &impl Alloc<A = Global>,
    prefix: &[u8],
    suffix: &[u8],
    size: usize,
    failing: Failing,
) -> Result<Reading, Fail> {
    let mut first = Counted::new(BlockReader::new(prefix, 7, 0));
    let told = database_header(rt.alloc(), &mut first)?;
    let table = BlockReader::new(prefix, 11, failing.0);
    let rows = BlockReader::new(suffix, 5, failing.1);
    let mut reader = DatabaseReader::new(told, table, rows);
    let mut buffer = vec![in rt.alloc(); 0; size]?;
    let mut text = Vec::new(rt.alloc());
    let mut failures: u64 = 0;
    for _read in 0..10_000 {
        match reader.read(buffer.as_mut_slice()) {
            Ok(count) => {
                if count == 0 {
                    break;
                }
                text.extend_from_slice(&buffer.as_slice()[..count])?;
            }
            Err(_) => failures = failures.saturating_add(1),
        }
    }
    let fault = reader.fault();
    Ok(Reading {
        text,
        failures,
        fault,
    })
}

/// The header of a prefix file.
fn header_of(rt: &impl Alloc<A = Global>, prefix: &[u8]) -> Result<Header, UnpackError> {
    let mut reader = Counted::new(BlockReader::new(prefix, 7, 0));
    match database_header(rt.alloc(), &mut reader) {
        Ok(told) => Ok(told.header),
        Err(error) => Err(error),
    }
}

/// Passes where the files are read as what is unpacked of them, by small and large buffers.
fn is_read(
    rt: &(impl Abort + Alloc<A = Global>),
    prefix: &[u8],
    suffix: &[u8],
) -> Result<(), Fail> {
    let dumped = unpacked(rt, prefix, suffix, ALL_SOUND)?;
    assert_eq!(rt; dumped.answer, Ok(header_of(rt, prefix)?.rows));
    for size in [1, 7, 86, 70_000] {
        let read = text_of(rt, prefix, suffix, size, (0, 0))?;
        assert_eq!(rt; read.text.as_slice(), dumped.text.as_slice());
        assert_eq!(rt; read.fault, None);
    }
    Ok(())
}

/// Passes where the files are read as what is unpacked of them, or end with byte 0 for the reason for which that is refused.
fn agrees(rt: &(impl Abort + Alloc<A = Global>), prefix: &[u8], suffix: &[u8]) -> Result<(), Fail> {
    let dumped = unpacked(rt, prefix, suffix, ALL_SOUND)?;
    if let Err(error) = header_of(rt, prefix) {
        assert_eq!(rt; dumped.answer, Err(error));
        return Ok(());
    }
    let read = text_of(rt, prefix, suffix, 9, (0, 0))?;
    match dumped.answer {
        Ok(_) => {
            assert_eq!(rt; read.text.as_slice(), dumped.text.as_slice());
            assert_eq!(rt; read.fault, None);
        }
        Err(error) => {
            assert_eq!(rt; read.fault, Some(error));
            assert_eq!(rt; read.text.as_slice().last().copied(), Some(0));
        }
    }
    Ok(())
}

/// Three lines with words of so many symbols.
fn lines_of(alloc: Global, k: usize) -> Result<String, Fail> {
    let mut text = String::new(alloc);
    for (symbol, count) in [('A', "7"), ('C', "1"), ('T', "255")] {
        for _place in 0..k {
            text.push(symbol)?;
        }
        text.push('\t')?;
        text.push_str(count)?;
        text.push('\n')?;
    }
    Ok(text)
}

#[test]
fn a_database_is_read_as_its_dump(rt: HostRuntime) -> Result<(), Fail> {
    for k in [1, 2, 5, 13, 14, 31, 33, 64] {
        let text = lines_of(rt.alloc(), k)?;
        let files = packed(&rt, text.as_str(), &counts_of(1, 1, 255), SOUND)?;
        is_read(&rt, files.prefix.as_slice(), files.suffix.as_slice())?;
    }
    let one = packed(&rt, "ACGTA\t300\n", &counts_of(2, 1, 1000), SOUND)?;
    is_read(&rt, one.prefix.as_slice(), one.suffix.as_slice())?;
    let none = prefix_file(rt.alloc(), &[(0, 4)], [13, 0, 1, 1, 2, 0, 0, 0, 0, 256])?;
    is_read(&rt, none.as_slice(), b"KMCSKMCS")
}

#[test]
fn a_changed_byte_is_told_as_it_is_when_unpacked(rt: HostRuntime) -> Result<(), Fail> {
    let mut prefix = prefix_file(rt.alloc(), &TABLE, HEADER)?;
    for place in 0..prefix.len() {
        for change in [1, 2, 255] {
            prefix[place] ^= change;
            agrees(&rt, prefix.as_slice(), ROWS)?;
            prefix[place] ^= change;
        }
    }
    let mut suffix = Vec::new(rt.alloc());
    suffix.extend_from_slice(ROWS)?;
    for place in 0..suffix.len() {
        for change in [1, 2, 255] {
            suffix[place] ^= change;
            agrees(&rt, prefix.as_slice(), suffix.as_slice())?;
            suffix[place] ^= change;
        }
    }
    Ok(())
}

#[test]
fn a_read_that_fails_loses_nothing(rt: HostRuntime) -> Result<(), Fail> {
    let text = "AACCG\t1\nAACGG\t2\nCAAAA\t3\n";
    let prefix = prefix_file(rt.alloc(), &TABLE, HEADER)?;
    for read in 1..5 {
        for failing in [(read, 0), (0, read)] {
            let again = text_of(&rt, prefix.as_slice(), ROWS, 20, failing)?;
            assert_eq!(rt; again.text.as_slice(), text.as_bytes());
            assert_eq!(rt; again.failures, 1);
        }
    }
    Ok(())
}

/// The strands that the header tells where its byte for them is this one.
fn strands_by(rt: &impl Alloc<A = Global>, byte: u8) -> Result<Strands, Fail> {
    let mut header = HEADER;
    header[8] = u32::from(byte);
    let prefix = prefix_file(rt.alloc(), &TABLE, header)?;
    let mut reader = Counted::new(BlockReader::new(prefix.as_slice(), 7, 0));
    Ok(database_header(rt.alloc(), &mut reader)?.strands)
}

#[test]
fn a_header_tells_its_strands(rt: HostRuntime) -> Result<(), Fail> {
    assert!(rt; strands_by(&rt, 0)? == Strands::Joined);
    for byte in [1, 2, 128, 255] {
        assert!(rt; strands_by(&rt, byte)? == Strands::Apart);
    }
    Ok(())
}
