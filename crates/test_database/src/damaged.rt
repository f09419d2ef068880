//! Databases that are not unpacked, and devices that fail.
use crate::databases::{ALL_SOUND, Readers, unpacked};
use crate::files::prefix_file;
use kmc_database::{FormFault, UnpackError};
use std::alloc::Global;
use std::process::Abort;
use std::test::Fail;

/// The table, the header and the rows of three words of five symbols: AACCG once, AACGG twice, CAAAA three times.
const TABLE: [(u64, u64); 3] = [(0, 1), (2, 1), (3, 2)];

const HEADER: [u32; 10] = [5, 0, 1, 1, 1, 255, 3, 0, 0, 0];

const ROWS: &[u8] = b"KMCS\x16\x01\x1a\x02\0\x03KMCS";

/// Passes where these files are refused so, and this was written before.
fn refuses(
    rt: &(impl Abort + Alloc<A = Global>),
    prefix: &[u8],
    suffix: &[u8],
    devices: Readers,
    error: UnpackError,
    front: &[u8],
) -> Result<(), Fail> {
    let dumped = unpacked(rt, prefix, suffix, devices)?;
    assert_eq!(rt; dumped.answer, Err(error));
    assert_eq!(rt; dumped.text.as_slice(), front);
    Ok(())
}

/// The same with this table.
fn refuses_table(
    rt: &(impl Abort + Alloc<A = Global>),
    table: &[(u64, u64)],
    error: UnpackError,
) -> Result<(), Fail> {
    let prefix = prefix_file(rt.alloc(), table, HEADER)?;
    refuses(rt, prefix.as_slice(), ROWS, ALL_SOUND, error, b"")
}

/// The same with a sound prefix file and this suffix file.
fn refuses_rows(
    rt: &(impl Abort + Alloc<A = Global>),
    suffix: &[u8],
    error: UnpackError,
) -> Result<(), Fail> {
    let prefix = prefix_file(rt.alloc(), &TABLE, HEADER)?;
    refuses(rt, prefix.as_slice(), suffix, ALL_SOUND, error, b"")
}

/// The same with a sound suffix file and the worked prefix file with another byte at this place.
fn refuses_byte(
    rt: &(impl Abort + Alloc<A = Global>),
    place: usize,
    byte: u8,
    error: UnpackError,
) -> Result<(), Fail> {
    let mut prefix = prefix_file(rt.alloc(), &TABLE, HEADER)?;
    let bytes = prefix.as_mut_slice();
    if place < bytes.len() {
        bytes[place] = byte;
    }
    refuses(rt, prefix.as_slice(), ROWS, ALL_SOUND, error, b"")
}

#[test]
fn a_damaged_header_is_told(rt: HostRuntime) -> Result<(), Fail> {
    refuses_byte(&rt, 104, b'k', UnpackError::Form(FormFault::Marker))?;
    refuses_byte(&rt, 97, 2, UnpackError::Form(FormFault::Newer))?;
    refuses_byte(&rt, 96, 1, UnpackError::Form(FormFault::Version))?;
    refuses_byte(&rt, 100, 68, UnpackError::Form(FormFault::Size))?;
    refuses_byte(&rt, 40, 1, UnpackError::Form(FormFault::Mode))?;
    refuses_byte(&rt, 48, 2, UnpackError::Form(FormFault::NoLayout))?;
    refuses_byte(&rt, 48, 5, UnpackError::Length)?;
    refuses_byte(&rt, 0, b'k', UnpackError::PrefixMarker)?;
    refuses_byte(&rt, 60, 2, UnpackError::Entry(2))?;
    refuses_byte(&rt, 60, 4, UnpackError::SuffixEnd)?;
    refuses_byte(&rt, 44, 2, UnpackError::NotRising(2))
}

#[test]
fn a_prefix_file_that_is_no_header_is_told(rt: HostRuntime) -> Result<(), Fail> {
    refuses(&rt, b"", ROWS, ALL_SOUND, UnpackError::Length, b"")?;
    let short = b"KMCP\x40\0\0\0KMCP";
    refuses(&rt, short, ROWS, ALL_SOUND, UnpackError::Length, b"")?;
    refuses_table(&rt, &[(0, 1), (2, 1), (3, 1)], UnpackError::Length)?;
    refuses_table(&rt, &[(0, 1), (2, 1), (3, 3)], UnpackError::Length)
}

#[test]
fn entries_at_fault_are_told(rt: HostRuntime) -> Result<(), Fail> {
    refuses_table(&rt, &[(1, 1), (2, 1), (3, 2)], UnpackError::Entry(0))?;
    refuses_table(&rt, &[(0, 1), (4, 1), (3, 2)], UnpackError::Entry(1))?;
    refuses_table(&rt, &[(0, 1), (2, 1), (1, 2)], UnpackError::Entry(2))?;
    refuses_table(&rt, &[(0, 1), (2, 2), (1 << 63, 1)], UnpackError::Entry(3))?;
    // the first two words stand in one first part, and then fall
    refuses_table(&rt, &[(0, 1), (3, 3)], UnpackError::NotRising(3))
}

#[test]
fn rows_at_fault_are_told(rt: HostRuntime) -> Result<(), Fail> {
    refuses_rows(&rt, b"", UnpackError::SuffixMarker)?;
    refuses_rows(&rt, b"KMC", UnpackError::SuffixMarker)?;
    refuses_rows(
        &rt,
        b"KMCP\x16\x01\x1a\x02\0\x03KMCS",
        UnpackError::SuffixMarker,
    )?;
    refuses_rows(&rt, b"KMCS", UnpackError::Cut(1))?;
    refuses_rows(&rt, b"KMCS\x16", UnpackError::Cut(1))?;
    refuses_rows(&rt, b"KMCS\x16\x01\x1a\x02\0", UnpackError::Cut(3))?;
    refuses_rows(
        &rt,
        b"KMCS\x16\x01\x1a\x00\0\x03KMCS",
        UnpackError::ZeroCount(2),
    )?;
    refuses_rows(
        &rt,
        b"KMCS\x1a\x01\x1a\x02\0\x03KMCS",
        UnpackError::NotRising(2),
    )?;
    refuses_rows(
        &rt,
        b"KMCS\x16\x01\x15\x02\0\x03KMCS",
        UnpackError::NotRising(2),
    )?;
    refuses_rows(&rt, b"KMCS\x16\x01\x1a\x02\0\x03", UnpackError::SuffixEnd)?;
    refuses_rows(
        &rt,
        b"KMCS\x16\x01\x1a\x02\0\x03KMC",
        UnpackError::SuffixEnd,
    )?;
    refuses_rows(
        &rt,
        b"KMCS\x16\x01\x1a\x02\0\x03KMCP",
        UnpackError::SuffixEnd,
    )?;
    refuses_rows(
        &rt,
        b"KMCS\x16\x01\x1a\x02\0\x03KMCS\n",
        UnpackError::SuffixEnd,
    )?;
    refuses_rows(
        &rt,
        b"KMCS\x16\x01\x1a\x02\0\x03\xff\x04KMCS",
        UnpackError::SuffixEnd,
    )
}

#[test]
fn a_device_that_fails_is_told(rt: HostRuntime) -> Result<(), Fail> {
    let prefix = prefix_file(rt.alloc(), &TABLE, HEADER)?;
    for read in 1..17 {
        let first = Readers {
            first: read,
            ..ALL_SOUND
        };
        refuses(
            &rt,
            prefix.as_slice(),
            ROWS,
            first,
            UnpackError::ReadPrefix,
            b"",
        )?;
    }
    let first = Readers {
        prefix: 1,
        ..ALL_SOUND
    };
    refuses(
        &rt,
        prefix.as_slice(),
        ROWS,
        first,
        UnpackError::ReadPrefix,
        b"",
    )?;
    let last = Readers {
        prefix: 10,
        ..ALL_SOUND
    };
    refuses(
        &rt,
        prefix.as_slice(),
        ROWS,
        last,
        UnpackError::ReadPrefix,
        b"",
    )?;
    for read in 1..4 {
        let rows = Readers {
            suffix: read,
            ..ALL_SOUND
        };
        refuses(
            &rt,
            prefix.as_slice(),
            ROWS,
            rows,
            UnpackError::ReadSuffix,
            b"",
        )?;
    }
    let narrow = Readers {
        writer: (9, true),
        ..ALL_SOUND
    };
    refuses(
        &rt,
        prefix.as_slice(),
        ROWS,
        narrow,
        UnpackError::Write,
        b"AACCG\t1\nA",
    )?;
    let unflushed = Readers {
        writer: (100, false),
        ..ALL_SOUND
    };
    let text = b"AACCG\t1\nAACGG\t2\nCAAAA\t3\n";
    refuses(
        &rt,
        prefix.as_slice(),
        ROWS,
        unflushed,
        UnpackError::Write,
        text,
    )
}
