//! Queries of databases that are refused, and devices that fail.
use crate::files::prefix_file;
use crate::searches::{ALL_SOUND, Seekers, searched};
use kmc_database::{FormFault, LookUpError, OpenError, SearchError};
use kmc_join::QueryError;
use std::alloc::Global;
use std::process::Abort;
use std::test::Fail;

/// The table, the header and the rows of three words of five symbols: ACGTA once, CGTAA twice, GTAAC 302 times.
const TABLE: [(u64, u64); 4] = [(0, 1), (1, 1), (2, 1), (3, 1)];

const HEADER: [u32; 10] = [5, 0, 2, 1, 1, 1_000_000_000, 3, 0, 0, 0];

const ROWS: &[u8] = b"KMCS\x6c\x01\0\xb0\x02\0\xc1\x2e\x01KMCS";

/// Passes where these words are refused so, and this was written before.
fn refuses(
    rt: &(impl Abort + Alloc<A = Global>),
    files: (&[u8], &[u8]),
    words: &str,
    devices: Seekers,
    error: SearchError,
    front: &str,
) -> Result<(), Fail> {
    let found = searched(rt, files.0, files.1, words, devices)?;
    assert_eq!(rt; found.answer, Err(error));
    assert_eq!(rt; found.text.as_slice(), front.as_bytes());
    Ok(())
}

/// The same of a word of the worked database, whose prefix file has another byte at this place.
fn refuses_byte(
    rt: &(impl Abort + Alloc<A = Global>),
    place: usize,
    byte: u8,
    error: SearchError,
) -> Result<(), Fail> {
    let mut prefix = prefix_file(rt.alloc(), &TABLE, HEADER)?;
    let bytes = prefix.as_mut_slice();
    if place < bytes.len() {
        bytes[place] = byte;
    }
    let files = (prefix.as_slice(), ROWS);
    refuses(rt, files, "CGTAA\n", ALL_SOUND, error, "")
}

/// The same of these words in the worked database with other rows.
fn refuses_words(
    rt: &(impl Abort + Alloc<A = Global>),
    rows: &[u8],
    words: &str,
    devices: Seekers,
    error: SearchError,
) -> Result<(), Fail> {
    let prefix = prefix_file(rt.alloc(), &TABLE, HEADER)?;
    refuses(rt, (prefix.as_slice(), rows), words, devices, error, "")
}

/// The same of sound rows and one word.
fn refuses_device(
    rt: &(impl Abort + Alloc<A = Global>),
    devices: Seekers,
    error: SearchError,
) -> Result<(), Fail> {
    refuses_words(rt, ROWS, "ACGTA\n", devices, error)
}

#[test]
fn a_damaged_prefix_file_is_told(rt: HostRuntime) -> Result<(), Fail> {
    let form = |fault| SearchError::Open(OpenError::Form(fault));
    refuses_byte(&rt, 107, b'k', form(FormFault::Marker))?;
    refuses_byte(&rt, 97, 2, form(FormFault::Newer))?;
    refuses_byte(&rt, 48, 5, SearchError::Open(OpenError::PrefixLength))?;
    refuses_byte(&rt, 68, 2, SearchError::Open(OpenError::Strands))?;
    refuses_byte(&rt, 0, b'k', SearchError::Open(OpenError::PrefixMarker))?;
    refuses_byte(&rt, 60, 2, SearchError::Open(OpenError::SuffixLength))?;
    refuses_byte(&rt, 12, 3, SearchError::LookUp(LookUpError::Entry(1)))?;
    refuses_byte(&rt, 20, 4, SearchError::LookUp(LookUpError::Entry(1)))
}

#[test]
fn a_short_file_and_markers_are_told(rt: HostRuntime) -> Result<(), Fail> {
    let short = SearchError::Open(OpenError::PrefixLength);
    refuses(&rt, (b"", ROWS), "", ALL_SOUND, short, "")?;
    let length = SearchError::Open(OpenError::SuffixLength);
    refuses_words(&rt, b"", "", ALL_SOUND, length)?;
    refuses_words(&rt, &ROWS[1..], "", ALL_SOUND, length)?;
    let marker = SearchError::Open(OpenError::SuffixMarker);
    let first = b"KMCP\x6c\x01\0\xb0\x02\0\xc1\x2e\x01KMCS";
    refuses_words(&rt, first, "", ALL_SOUND, marker)?;
    let last = b"KMCS\x6c\x01\0\xb0\x02\0\xc1\x2e\x01KMCP";
    refuses_words(&rt, last, "", ALL_SOUND, marker)
}

#[test]
fn words_at_fault_are_told(rt: HostRuntime) -> Result<(), Fail> {
    let line = SearchError::Words(QueryError::NoWord(2));
    refuses_words(&rt, ROWS, "CGTAA\nCGTAN\n", ALL_SOUND, line)?;
    let other = SearchError::Words(QueryError::OtherLength(2));
    refuses_words(&rt, ROWS, "CGTAA\nCGTA\n", ALL_SOUND, other)?;
    refuses_words(&rt, ROWS, "CGTA\n", ALL_SOUND, SearchError::OtherLength)?;
    let apart = Seekers {
        apart: true,
        ..ALL_SOUND
    };
    refuses_device(&rt, apart, SearchError::OneStrand)
}

#[test]
fn each_call_that_fails_is_told(rt: HostRuntime) -> Result<(), Fail> {
    for call in 1..6 {
        let prefix = Seekers {
            prefix: call,
            ..ALL_SOUND
        };
        let error = if call < 4 {
            SearchError::Open(OpenError::ReadPrefix)
        } else {
            SearchError::LookUp(LookUpError::ReadPrefix)
        };
        refuses_device(&rt, prefix, error)?;
    }
    for call in 1..5 {
        let suffix = Seekers {
            suffix: call,
            ..ALL_SOUND
        };
        let error = if call < 4 {
            SearchError::Open(OpenError::ReadSuffix)
        } else {
            SearchError::LookUp(LookUpError::ReadSuffix)
        };
        refuses_device(&rt, suffix, error)?;
    }
    let words = Seekers {
        words: 1,
        ..ALL_SOUND
    };
    refuses_device(&rt, words, SearchError::Words(QueryError::ReadWords))
}

#[test]
fn answers_that_cannot_be_written_are_told(rt: HostRuntime) -> Result<(), Fail> {
    let prefix = prefix_file(rt.alloc(), &TABLE, HEADER)?;
    let files = (prefix.as_slice(), ROWS);
    let narrow = Seekers {
        writer: (9, true),
        ..ALL_SOUND
    };
    let words = "CGTAA\nACGTA\n";
    refuses(&rt, files, words, narrow, SearchError::Write, "CGTAA\t2\nA")?;
    let unflushed = Seekers {
        writer: (100, false),
        ..ALL_SOUND
    };
    let all = "CGTAA\t2\nACGTA\t1\n";
    refuses(&rt, files, words, unflushed, SearchError::Write, all)
}
