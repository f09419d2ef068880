//! Databases of reads against those of the dumps of the same reads, which are packed from text.
use crate::devices::{SOUND, made};
use crate::texts::{text_of_stretches, words_of};
use kmc_database::{PackOptions, counter_bytes, pack};
use kmc_device::Counted;
use kmc_options::{Params, Program, settings};
use kmc_sum::TextReader;
use kmc_tool::run;
use std::alloc::Global;
use std::process::Abort;
use std::sync::Wait;
use std::thread::Threads;

/// The two files of the dump of the text, packed.
fn packed<T: Abort + Threads + Wait + Sync + Alloc<A = Global>>(
    rt: &T,
    params: &Params,
    first_part: Option<usize>,
    text: &[u8],
) -> (u64, Vec<u8>, Vec<u8>) {
    let mut dump = Counted::new(Vec::new(rt.alloc()));
    let lines = run(rt, rt.alloc(), &mut Counted::new(text), &mut dump, params).expect(rt, "a run");
    let limits = params.limits;
    let options = PackOptions {
        k: Some(params.k),
        prefix: first_part,
        counter: counter_bytes(limits.cs, limits.cx),
        least: limits.ci.min(u64::from(u32::MAX)) as u32,
        greatest: limits.cx,
        strands: params.strands,
    };
    let bytes = dump.into_inner();
    let mut prefix = Counted::new(Vec::new(rt.alloc()));
    let mut suffix = Counted::new(Vec::new(rt.alloc()));
    let mut reader = Counted::new(TextReader(bytes.as_slice()));
    let rows = pack(rt.alloc(), &options, &mut reader, &mut prefix, &mut suffix);
    assert_eq!(rt; rows, Ok(lines));
    (lines, prefix.into_inner(), suffix.into_inner())
}

/// Passes where the reads of the text are counted into the same files, by these words.
fn agrees<T: Abort + Threads + Wait + Sync + Alloc<A = Global>>(
    rt: &T,
    words: &str,
    first_part: Option<usize>,
    text: &[u8],
) {
    let argv = words_of(rt.alloc(), words).expect(rt, "memory");
    let params = settings(rt.alloc(), Program::Kmc, argv).expect(rt, words);
    let (lines, prefix, suffix) = packed(rt, &params, first_part, text);
    let found = made(rt, words, first_part, text, SOUND);
    assert_eq!(rt; found.answer, Ok(lines), "{words}");
    assert!(rt; found.prefix.as_slice() == prefix.as_slice(), "{words}");
    assert!(rt; found.suffix.as_slice() == suffix.as_slice(), "{words}");
}

#[test]
fn reads_are_packed_as_their_dump_is(rt: HostRuntime) {
    let text = text_of_stretches(rt.alloc(), 60).expect(&rt, "memory");
    for words in [
        "-fa -k1 -ci1",
        "-fa -k2 -ci1 -b",
        "-fa -k3 -ci1 -cs100000 -cx100000",
        "-fa -k4 -ci1 -sr3",
        "-fa -k5 -ci1 -cs4000000000",
        "-fa -k12 -ci1",
        "-fa -k13 -ci2 -cx20",
        "-fa -k14 -ci1 -b -sr2",
        "-fa -k25 -ci1 -cs70000 -sr4",
        "-fa -k31 -ci3 -cs2",
        "-fa -k32 -ci1",
        "-fa -k33 -ci1 -sr3",
        "-fa -k55 -ci1 -n7",
        "-fa -k63 -ci1 -b",
        "-fa -k64 -ci1 -cs1",
    ] {
        agrees(&rt, words, None, &text);
    }
}

#[test]
fn first_parts_are_as_long_as_is_asked_for(rt: HostRuntime) {
    let text = text_of_stretches(rt.alloc(), 20).expect(&rt, "memory");
    for (words, first_part) in [
        ("-fa -k5 -ci1", 1),
        ("-fa -k5 -ci1", 5),
        ("-fa -k12 -ci1 -sr2", 8),
        ("-fa -k31 -ci1", 3),
        ("-fa -k33 -ci1", 9),
        ("-fa -k64 -ci1 -sr3", 4),
    ] {
        agrees(&rt, words, Some(first_part), &text);
    }
}
