//! The counts that dumps have for words, worked by hand.
use crate::devices::{Devices, SOUND, text_reader};
use kmc_base::Strands;
use kmc_device::Counted;
use kmc_join::{QueryError, query, query_strands};
use kmc_sum::{LineFault, SourceFault};
use std::alloc::{AllocError, Global};
use std::process::Abort;
use std::test::Fail;
use test_support::{BlockReader, Full, NarrowWriter};

const DUMP: &'static str = "AAC\t5\nACG\t7\nCCA\t18446744073709551615\n";

/// What a query of a dump for the words of a text answers, and what it writes, with readers that give three bytes at a time, of which that
/// of the words fails at a read of its own.
fn asked(
    rt: &(impl Abort + Alloc<A = Global>),
    texts: [&'static str; 2],
    strands: Strands,
    devices: Devices,
    failing_words: u64,
) -> (Result<u64, QueryError>, Vec<u8>) {
    let [dump, words] = texts;
    let mut dump = Counted::new(text_reader(dump, devices.failing));
    let mut words = Counted::new(BlockReader::new(words.as_bytes(), 3, failing_words));
    let out = NarrowWriter::new(
        Vec::new(rt.alloc()),
        5,
        devices.room,
        Full::Fails,
        devices.flushes,
    );
    let mut writer = Counted::new(out);
    let answer = query(rt.alloc(), &mut dump, &mut words, strands, &mut writer);
    (answer, writer.into_inner().into_bytes())
}

/// Passes where so many words of the text have these counts in the dump.
fn gives(
    rt: &(impl Abort + Alloc<A = Global>),
    texts: [&'static str; 2],
    strands: Strands,
    many: u64,
    lines: &str,
) {
    let (answer, written) = asked(rt, texts, strands, SOUND, 0);
    assert_eq!(rt; answer, Ok(many));
    assert_eq!(rt; written.as_slice(), lines.as_bytes());
}

/// Passes where the query is refused so, and nothing is written.
fn refuses(rt: &(impl Abort + Alloc<A = Global>), texts: [&'static str; 2], error: QueryError) {
    let (answer, written) = asked(rt, texts, Strands::Joined, SOUND, 0);
    assert_eq!(rt; answer, Err(error));
    assert_eq!(rt; written.len(), 0);
}

#[test]
fn words_are_answered_in_their_order(rt: HostRuntime) -> Result<(), Fail> {
    let words = "TGG\nAAA\nACG\nCGT\nGTT\nACG\nTGG\n";
    gives(
        &rt,
        [DUMP, words],
        Strands::Joined,
        7,
        "TGG\t18446744073709551615\nAAA\t0\nACG\t7\nCGT\t7\nGTT\t5\nACG\t7\nTGG\t18446744073709551615\n",
    );
    gives(
        &rt,
        [DUMP, words],
        Strands::Apart,
        7,
        "TGG\t0\nAAA\t0\nACG\t7\nCGT\t0\nGTT\t0\nACG\t7\nTGG\t0\n",
    );
    Ok(())
}

#[test]
fn words_have_1_to_64_letters(rt: HostRuntime) -> Result<(), Fail> {
    gives(
        &rt,
        ["A\t3\nC\t2\n", "T\nG\nA\nC\nT\n"],
        Strands::Joined,
        5,
        "T\t3\nG\t2\nA\t3\nC\t2\nT\t3\n",
    );
    gives(
        &rt,
        [
            "AAAAAAAAAAAAAAAAAAAAAAAAAAAAAAAC\t9\n",
            "GTTTTTTTTTTTTTTTTTTTTTTTTTTTTTTT\n",
        ],
        Strands::Joined,
        1,
        "GTTTTTTTTTTTTTTTTTTTTTTTTTTTTTTT\t9\n",
    );
    gives(
        &rt,
        [
            "AAAAAAAAAAAAAAAAAAAAAAAAAAAAAAAAC\t9\nCAAAAAAAAAAAAAAAAAAAAAAAAAAAAAAAA\t4\n",
            "CAAAAAAAAAAAAAAAAAAAAAAAAAAAAAAAA\nGTTTTTTTTTTTTTTTTTTTTTTTTTTTTTTTT\n",
        ],
        Strands::Joined,
        2,
        "CAAAAAAAAAAAAAAAAAAAAAAAAAAAAAAAA\t4\nGTTTTTTTTTTTTTTTTTTTTTTTTTTTTTTTT\t9\n",
    );
    gives(
        &rt,
        [
            "AAAAAAAAAAAAAAAAAAAAAAAAAAAAAAAAAAAAAAAAAAAAAAAAAAAAAAAAAAAAAAAC\t9\n",
            "GTTTTTTTTTTTTTTTTTTTTTTTTTTTTTTTTTTTTTTTTTTTTTTTTTTTTTTTTTTTTTTT\n",
        ],
        Strands::Joined,
        1,
        "GTTTTTTTTTTTTTTTTTTTTTTTTTTTTTTTTTTTTTTTTTTTTTTTTTTTTTTTTTTTTTTT\t9\n",
    );
    Ok(())
}

#[test]
fn nothing_is_listed_and_nothing_is_asked(rt: HostRuntime) -> Result<(), Fail> {
    gives(
        &rt,
        ["", "ACG\nTTT\n"],
        Strands::Joined,
        2,
        "ACG\t0\nTTT\t0\n",
    );
    gives(&rt, [DUMP, ""], Strands::Joined, 0, "");
    gives(&rt, ["", ""], Strands::Apart, 0, "");
    let malformed = SourceFault::Line(2, LineFault::Malformed);
    refuses(&rt, ["ACG\t1\nCCC\n", ""], QueryError::Dump(malformed));
    Ok(())
}

#[test]
fn words_at_fault_are_told_with_their_line(rt: HostRuntime) -> Result<(), Fail> {
    refuses(&rt, [DUMP, "ACG\nacg\n"], QueryError::NoWord(2));
    refuses(&rt, [DUMP, "ACG\nANG\n"], QueryError::NoWord(2));
    refuses(&rt, [DUMP, "ACG\r\n"], QueryError::NoWord(1));
    refuses(&rt, [DUMP, "ACG\n\nACG\n"], QueryError::NoWord(2));
    refuses(&rt, [DUMP, "ACG\nACG\nACG"], QueryError::NoWord(3));
    refuses(&rt, [DUMP, "ACG\t7\n"], QueryError::NoWord(1));
    let long = "AAAAAAAAAAAAAAAAAAAAAAAAAAAAAAAAAAAAAAAAAAAAAAAAAAAAAAAAAAAAAAAAA\n";
    refuses(&rt, [DUMP, long], QueryError::NoWord(1));
    refuses(&rt, [DUMP, "ACG\nCCC\nAC\n"], QueryError::OtherLength(3));
    refuses(&rt, [DUMP, "ACGT\n"], QueryError::Unlike);
    refuses(&rt, [DUMP, "AC\nCA\n"], QueryError::Unlike);
    Ok(())
}

#[test]
fn a_dump_at_fault_is_told_with_its_line(rt: HostRuntime) -> Result<(), Fail> {
    for (dump, line, fault) in [
        ("ACG\t0\n", 1, LineFault::Malformed),
        ("ACG\t1\nCCC\t2", 2, LineFault::Malformed),
        ("ACG\t1\nCC\t2\n", 2, LineFault::OtherLength),
        ("ACG\t1\nCCC\t2\nCCC\t2\n", 3, LineFault::NotRising),
    ] {
        let error = QueryError::Dump(SourceFault::Line(line, fault));
        refuses(&rt, [dump, "ACG\n"], error);
    }
    Ok(())
}

#[test]
fn devices_that_fail_are_told(rt: HostRuntime) -> Result<(), Fail> {
    let mut devices = SOUND;
    devices.failing = 2;
    let texts = [DUMP, "ACG\nCCC\n"];
    let (answer, written) = asked(&rt, texts, Strands::Joined, devices, 0);
    assert_eq!(rt; answer, Err(QueryError::Dump(SourceFault::Read)));
    assert_eq!(rt; written.len(), 0);
    let (answer, written) = asked(&rt, texts, Strands::Joined, SOUND, 2);
    assert_eq!(rt; answer, Err(QueryError::ReadWords));
    assert_eq!(rt; written.len(), 0);
    let mut narrow = SOUND;
    narrow.room = 8;
    let (answer, written) = asked(&rt, texts, Strands::Joined, narrow, 0);
    assert_eq!(rt; answer, Err(QueryError::Write));
    assert_eq!(rt; written.as_slice(), "ACG\t7\nCC".as_bytes());
    let mut unflushed = SOUND;
    unflushed.flushes = false;
    let (answer, written) = asked(&rt, texts, Strands::Joined, unflushed, 0);
    assert_eq!(rt; answer, Err(QueryError::Write));
    assert_eq!(rt; written.as_slice(), "ACG\t7\nCCC\t0\n".as_bytes());
    Ok(())
}

/// The strands of the query that the line asks for.
fn strands_of(alloc: Global, line: &str) -> Result<Option<Strands>, AllocError> {
    let mut words = Vec::new(alloc);
    for word in line.split_whitespace() {
        words.push(String::from_str(alloc, word)?)?;
    }
    Ok(query_strands(&words))
}

#[test]
fn a_query_is_asked_by_words(rt: HostRuntime) -> Result<(), Fail> {
    let joined = strands_of(rt.alloc(), "query a")?;
    assert!(rt; joined == Some(Strands::Joined));
    let apart = strands_of(rt.alloc(), "query -b a")?;
    assert!(rt; apart == Some(Strands::Apart));
    for line in [
        "",
        "query",
        "query -b",
        "query a b",
        "query a -b",
        "query -b -b a",
        "query -c a",
        "query -b a b",
        "queries a",
    ] {
        assert!(rt; strands_of(rt.alloc(), line)?.is_none(), "{line}");
    }
    Ok(())
}
