//! Runs over queues of many shapes: whichever worker is first, the dump is that of the direct count.
use super::*;
use crate::tests::passes::Passes;
use crate::tests::settings::sized;
use crate::tests::texts::{direct_dump, vectors_of};
use crate::tests::workers::side_by_side::{Meets, Pair};
use kmc_count::Limits;
use kmc_partqueue::Gate;
use kmc_tool::run_with_gate;

/// How many splitters and storers there are, how many parts one splitter may have in the queue, and how many
/// reads a round has for a splitter.
#[derive(Clone, Copy)]
struct Sizes(usize, usize, usize, usize);

/// Settings for words of k symbols in so many bins, with signatures of p symbols and a queue of this size.
fn queued(rt: &impl Abort, k: usize, p: usize, bins: usize, sizes: Sizes) -> Params {
    let Sizes(splitters, storers, per_writer, batch) = sizes;
    sized(rt, k, p, bins, splitters, 2, Limits::new(1, BILLION, 255))
        .with_queue(storers, per_writer, batch)
        .expect(rt, "queue in range")
}

/// Asserts that a run over the reads writes the dump of their direct count.
fn assert_as_direct<R: Abort + Threads + Wait + Sync + Alloc<A = Global>>(
    rt: &R,
    reads: &[&[u8]],
    params: &Params,
) {
    let alloc = rt.alloc();
    let made = dump_of(rt, alloc, &fastq(rt, alloc, reads), params);
    let vectors = vectors_of(alloc, reads).expect(rt, "memory");
    let (direct, _) = direct_dump(rt, alloc, &vectors, params);
    assert!(rt; !direct.is_empty());
    assert_whole(rt, &made, &direct);
}

/// Asserts that runs over queues of many sizes write the dump of the direct count.
fn assert_by_any_queue<R: Abort + Threads + Wait + Sync + Alloc<A = Global>>(
    rt: &R,
    reads: &[&[u8]],
    k: usize,
) {
    for sizes in [
        Sizes(1, 1, 1, 1),
        Sizes(1, 8, 1, 2),
        Sizes(2, 1, 8, 1024),
        Sizes(3, 2, 1, 1),
        Sizes(5, 3, 2, 3),
        Sizes(16, 8, 64, 1),
    ] {
        assert_as_direct(rt, reads, &queued(rt, k, 5, 97, sizes));
    }
}

#[test]
fn any_queue_gives_the_dump_of_the_direct_count(rt: HostRuntime) {
    let reads = [
        b"GATTACAGATTACAGATTACACCGGT".as_slice(),
        b"",
        b"ACGTNACGTTTTTTTTTTTTTTTTTTTT",
        b"acgtaccggtattagaccatgaccatgaNNNNNNNacgtaccggtattag",
        b"CCC",
        b"TTTTTTTTTTTTTTTTTTTTTTTTTTTTTTTTTTTTTTTTTTTTTTTTTTTTTTTT",
        b"ACACACACACACACACTGTGTGTGTGTGTGTG",
    ];
    for k in [3, 12, 33] {
        assert_by_any_queue(&rt, &reads, k);
    }
}

/// Asserts that a run over the reads writes these lines.
fn assert_lines<R: Abort + Threads + Wait + Sync + Alloc<A = Global>>(
    rt: &R,
    reads: &[&[u8]],
    params: &Params,
    lines: &[u8],
) {
    let made = dump_of(rt, rt.alloc(), &fastq(rt, rt.alloc(), reads), params);
    assert_whole(rt, &made, lines);
}

/// Asserts that runs over small texts write their dumps, by so many bins and a queue of this size.
fn assert_small_texts<R: Abort + Threads + Wait + Sync + Alloc<A = Global>>(
    rt: &R,
    bins: usize,
    sizes: Sizes,
) {
    let params = queued(rt, 4, 9, bins, sizes);
    let broken: [&[u8]; 2] = [b"ACGTACGT", b"ACGTNACGT"];
    assert_lines(rt, &broken, &params, b"ACGT\t4\nCGTA\t2\nGTAC\t1\n");
    let twice: [&[u8]; 2] = [b"ACGTACGT", b"ACGTACGT"];
    assert_lines(rt, &twice, &params, b"ACGT\t4\nCGTA\t4\nGTAC\t2\n");
}

#[test]
fn every_queue_gives_the_dumps_of_small_texts(rt: HostRuntime) {
    assert_small_texts(&rt, 1, Sizes(1, 1, 1, 1));
    assert_small_texts(&rt, 7, Sizes(2, 2, 8, 1));
    assert_small_texts(&rt, 7, Sizes(3, 2, 1, 1));
    assert_small_texts(&rt, 2000, Sizes(16, 8, 64, 1));
}

/// What a run over the text answers, with a gate.
fn run_through<R: Threads + Wait + Sync, G: Gate + Sync>(
    rt: &R,
    alloc: Global,
    text: &[u8],
    params: &Params,
    gate: &G,
) -> Result<u64, RunError> {
    let mut reader = Counted::new(BlockReader::new(text, 1000, 0));
    let device = NarrowWriter::new(Vec::new(alloc), 1000, 1000, Full::Fails, true);
    let mut writer = Counted::new(device);
    run_with_gate(rt, alloc, &mut reader, &mut writer, params, gate)
}

/// Two equal reads of five words, each read a chunk of its own.
const TWICE: [&[u8]; 2] = [b"ACGTACGT", b"ACGTACGT"];

/// Their words of four symbols are their own signatures: 27, 108 and 177, which are of the bins 6, 3 and 2 of 7. So each chunk gives
/// three parts.
#[test]
fn a_run_tells_its_gate_of_each_part(rt: HostRuntime) {
    let text = fastq(&rt, rt.alloc(), &TWICE);
    let params = queued(&rt, 4, 9, 7, Sizes(2, 2, 8, 1));
    let passes = Passes::new();
    let made = run_through(&rt, rt.alloc(), &text, &params, &passes);
    assert_eq!(rt; made, Ok(3));
    passes.assert_each(&rt, 6);
}

#[test]
fn any_number_of_counting_threads_gives_the_dump(rt: HostRuntime) {
    let alloc = rt.alloc();
    let text = fastq(&rt, alloc, &TWICE);
    for threads in [1, 2, 16] {
        let params = sized(&rt, 4, 9, 7, 2, threads, Limits::new(1, BILLION, 255));
        let made = dump_of(&rt, alloc, &text, &params);
        assert_whole(&rt, &made, b"ACGT\t4\nCGTA\t4\nGTAC\t2\n");
    }
}

/// Two workers of a run see each other, of two splitters and so many storers.
fn assert_meeting<R: Abort + Threads + Wait + Sync + Alloc<A = Global>>(
    rt: &R,
    pair: Pair,
    storers: usize,
) {
    let text = fastq(rt, rt.alloc(), &TWICE);
    let params = queued(rt, 4, 9, 7, Sizes(2, storers, 8, 1));
    let gate = Meets::new(pair);
    let made = run_through(rt, rt.alloc(), &text, &params, &gate);
    assert_eq!(rt; made, Ok(3));
    assert!(rt; gate.is_held());
}

#[test]
fn two_splitters_of_a_run_meet(rt: HostRuntime) {
    assert_meeting(&rt, Pair::Splitters, 1);
}

#[test]
fn two_storers_of_a_run_meet(rt: HostRuntime) {
    assert_meeting(&rt, Pair::Storers, 2);
}
