//! Runs over random texts of both formats, by options and queues of many sizes, against the plain count of another program.
use super::random_rows::{COUNT, ROWS};
use super::*;
use crate::tests::texts::words_of;
use kmc_options::{Program, settings};
use std::str::Lines;

/// The byte that a byte of a row stands for.
fn meant(byte: u8) -> u8 {
    match byte {
        b'/' => b'\n',
        b'^' => b'\r',
        b':' => b'\t',
        other => other,
    }
}

/// The text of a row, with its ends of lines.
fn spelled_out(alloc: Global, row: &str) -> Result<Vec<u8>, AllocError> {
    let mut text = Vec::new(alloc);
    for byte in row.bytes() {
        text.push(meant(byte))?;
    }
    Ok(text)
}

/// The settings that a row's options give.
fn given(rt: &impl Abort, alloc: Global, options: &str) -> Params {
    let words = words_of(alloc, options).expect(rt, "memory");
    settings(alloc, Program::Kmc, words).expect(rt, "settings")
}

/// Asserts that a run over the text, so many bytes a read, writes the dump.
fn assert_run<R: Abort + Threads + Wait + Sync>(
    rt: &R,
    alloc: Global,
    text: &[u8],
    dump: &[u8],
    block: usize,
    params: &Params,
) {
    assert!(rt; 1 <= block);
    let reader = BlockReader::new(text, block, 0);
    let writer = NarrowWriter::new(Vec::new(alloc), 77, 100_000, Full::Fails, true);
    let made = run_between(rt, alloc, reader, writer, params);
    assert_whole(rt, &made, dump);
}

/// Asserts that runs over a row's text, by queues of several sizes, write its dump. The answer is the dump's length.
fn length_of_row<R: Abort + Threads + Wait + Sync>(
    rt: &R,
    alloc: Global,
    options: &str,
    text: &str,
    dump: &str,
) -> usize {
    let text = spelled_out(alloc, text).expect(rt, "memory");
    let dump = spelled_out(alloc, dump).expect(rt, "memory");
    let params = given(rt, alloc, options);
    assert_run(rt, alloc, &text, &dump, 1000, &params);
    let least = params.with_queue(1, 1, 1).expect(rt, "a queue in range");
    assert_run(rt, alloc, &text, &dump, 3, &least);
    let wide = params.with_queue(8, 2, 2).expect(rt, "a queue in range");
    assert_run(rt, alloc, &text, &dump, 64, &wide);
    dump.len()
}

/// The length of the next row's dump, which runs over its text must write.
fn length_of_next<R: Abort + Threads + Wait + Sync + Alloc<A = Global>>(
    rt: &R,
    rows: &mut Lines,
) -> usize {
    let options = rows.next().expect(rt, "a row's options");
    let text = rows.next().expect(rt, "a row's text");
    let dump = rows.next().expect(rt, "a row's dump");
    length_of_row(rt, rt.alloc(), options, text, dump)
}

#[test]
fn random_texts_give_the_dumps_of_the_plain_count(rt: HostRuntime) {
    let mut rows = ROWS.lines();
    let mut listed: usize = 0;
    for _ in 0..COUNT {
        listed = listed.saturating_add(length_of_next(&rt, &mut rows));
    }
    // all rows were read, and they list words
    assert!(rt; rows.next().is_none() && listed > 3000);
}
