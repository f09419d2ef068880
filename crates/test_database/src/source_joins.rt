//! Joins, tables and histograms of which one source is a database: what is written, and the status.
use crate::files::prefix_file;
use kmc_base::Strands;
use kmc_count::Limits;
use kmc_database::{
    DatabaseReader, DumpSource, Header, Layout, OpenDatabase, StrandsError, StrandsMessage,
    histogram_source, join_sources, judge_strands, table_sources,
};
use kmc_device::Counted;
use kmc_join::{Choice, EVERY_COUNT, JoinRule, Operation};
use std::alloc::Global;
use std::process::{Abort, ExitCode};
use std::test::Fail;
use test_support::{BlockReader, Full, NarrowWriter};

/// The table, the header and the rows of three words of five symbols: AACCG once, AACGG twice, CAAAA three times.
const TABLE: [(u64, u64); 3] = [(0, 1), (2, 1), (3, 2)];

const NUMBERS: [u32; 10] = [5, 0, 1, 1, 1, 255, 3, 0, 0, 0];

const TOLD: OpenDatabase = OpenDatabase {
    header: Header {
        layout: Layout {
            k: 5,
            prefix: 1,
            counter: 1,
        },
        rows: 3,
    },
    strands: Strands::Joined,
};

const ROWS: &[u8] = b"KMCS\x16\x01\x1a\x02\0\x03KMCS";

/// The same, but for the second row, whose word is that of the first.
const EQUAL_ROWS: &[u8] = b"KMCS\x16\x01\x16\x02\0\x03KMCS";

const OTHER: &[u8] = b"AACGG\t5\nCCCCC\t7\n";

/// A writer over memory that takes four bytes at a time.
fn narrow(alloc: Global) -> Counted<NarrowWriter> {
    Counted::new(NarrowWriter::new(Vec::new(alloc), 4, 1 << 16, Full::Fails, true))
}

/// How the union, or the table, of a dump and the database with these rows ends, and what is written.
fn joined<'a>(
    rt: &(impl Eprint + Alloc<A = Global>),
    dump: &'a [u8],
    prefix: &'a [u8],
    rows: &'a [u8],
    is_union: bool,
) -> Result<(ExitCode, Vec<u8>), Fail> {
    let rule = JoinRule {
        operation: Operation::Union(Choice::Sum),
        left: EVERY_COUNT,
        right: EVERY_COUNT,
    };
    let limits = Limits::new(1, 100, 100).ok_or("limits")?;
    let table = BlockReader::new(prefix, 11, 0);
    let body = BlockReader::new(rows, 5, 0);
    let text = DumpSource::Text(BlockReader::new(dump, 7, 0));
    let database = DumpSource::Database(DatabaseReader::new(TOLD, table, body));
    let mut given = Vec::new(rt.alloc());
    given.push(Counted::new(text))?;
    given.push(Counted::new(database))?;
    let mut writer = narrow(rt.alloc());
    let ended = if is_union {
        join_sources(rt, &[], rule, &limits, given, &mut writer)
    } else {
        table_sources(rt, &[], 100, given, &mut writer)
    };
    Ok((ended, writer.into_inner().into_bytes()))
}

/// How the histogram of the database with these rows ends, and what is written.
fn tallied<'a>(
    rt: &(impl Eprint + Alloc<A = Global>),
    prefix: &'a [u8],
    rows: &'a [u8],
) -> Result<(ExitCode, Vec<u8>), Fail> {
    let table = BlockReader::new(prefix, 11, 0);
    let body = BlockReader::new(rows, 5, 0);
    let database: DumpSource<BlockReader, BlockReader> = DumpSource::Database(DatabaseReader::new(
        TOLD, table, body,
    ));
    let mut given = Vec::new(rt.alloc());
    given.push(Counted::new(database))?;
    let mut writer = narrow(rt.alloc());
    let ended = histogram_source(rt, &[], given, &mut writer);
    Ok((ended, writer.into_inner().into_bytes()))
}

/// Passes where the union, the table and the histogram end so, with these texts.
fn ends(
    rt: &(impl Abort + Eprint + Alloc<A = Global>),
    rows: &[u8],
    status: u8,
    texts: [&str; 3],
) -> Result<(), Fail> {
    let prefix = prefix_file(rt.alloc(), &TABLE, NUMBERS)?;
    let union = joined(rt, OTHER, &prefix, rows, true)?;
    let table = joined(rt, OTHER, &prefix, rows, false)?;
    let histogram = tallied(rt, &prefix, rows)?;
    for ((ended, bytes), text) in [union, table, histogram].iter().zip(texts) {
        assert!(rt; *ended == ExitCode::from(status));
        assert_eq!(rt; bytes.as_slice(), text.as_bytes());
    }
    Ok(())
}

#[test]
fn a_database_is_joined_as_its_dump(rt: HostRuntime) -> Result<(), Fail> {
    let union = "AACCG\t1\nAACGG\t7\nCAAAA\t3\nCCCCC\t7\n";
    let table = "0\t1\t1\n0\t3\t1\n5\t2\t1\n7\t0\t1\n";
    let histogram = "1\t1\n2\t1\n3\t1\n";
    ends(&rt, ROWS, 0, [union, table, histogram])
}

#[test]
fn a_database_at_fault_is_not_joined(rt: HostRuntime) -> Result<(), Fail> {
    ends(&rt, EQUAL_ROWS, 1, ["", "", ""])
}

#[test]
fn sources_tell_their_strands(rt: HostRuntime) -> Result<(), Fail> {
    let text: DumpSource<BlockReader, BlockReader> = DumpSource::Text(BlockReader::new(
        OTHER, 7, 0,
    ));
    assert!(rt; text.strands().is_none());
    let prefix = prefix_file(rt.alloc(), &TABLE, NUMBERS)?;
    let table = BlockReader::new(&prefix, 11, 0);
    let rows = BlockReader::new(ROWS, 5, 0);
    let database: DumpSource<BlockReader, BlockReader> = DumpSource::Database(DatabaseReader::new(
        TOLD, table, rows,
    ));
    assert!(rt; database.strands() == Some(Strands::Joined));
    Ok(())
}

#[test]
fn only_strands_that_are_told_are_unlike(rt: HostRuntime) -> Result<(), Fail> {
    let joined = Some(Strands::Joined);
    let apart = Some(Strands::Apart);
    for (first, second) in [
        (None, None),
        (None, apart),
        (joined, None),
        (joined, joined),
        (apart, apart),
    ] {
        assert_eq!(rt; judge_strands(first, second), Ok(()));
    }
    let error = StrandsError::Unlike;
    assert_eq!(rt; judge_strands(joined, apart), Err(error));
    assert_eq!(rt; judge_strands(apart, joined), Err(error));
    assert_eq!(rt; error.number(), 1);
    let message = StrandsMessage {
        first: "a",
        second: "b.kmc_pre",
        error,
    };
    let line = format!(in rt.alloc(); "{message}")?;
    assert_eq!(rt;
        line.as_str(),
        "kmc_db: a, b.kmc_pre: only one of the two was counted with -b"
    );
    Ok(())
}
