//! Small texts with the dumps that they must give.
use super::*;
use crate::tests::settings::{BILLION, settings, sized};
use crate::tests::texts::{assert_bytes, direct_dump, line_of_a, vectors_of};
use crate::tests::workers::records::assert_twice_in;
use kmc_base::Strands;
use kmc_count::Limits;

const TWICE: &[u8] = b"GATTACAGATTACAGATTACACCGGT";

/// Asserts that these reads give the dump through bins, and by the direct count too.
fn assert_dump<R: Abort + Threads + Wait + Sync + Alloc<A = Global>>(
    rt: &R,
    reads: &[&[u8]],
    params: &Params,
    dump: &[u8],
) {
    let alloc = rt.alloc();
    let list = vectors_of(alloc, reads).expect(rt, "memory");
    let mut dice = Dice { state: 3 };
    let bins = filled_in_any_order(rt, alloc, &mut dice, &list, 1, params.shape());
    let by_bins = counted(rt, alloc, bins, params);
    let (direct, _) = direct_dump(rt, alloc, &list, params);
    assert_bytes(rt, &by_bins, &direct);
    assert_bytes(rt, &by_bins, dump);
}

#[test]
fn bins_give_the_dump_of_two_equal_reads(rt: HostRuntime) {
    let dump = b"ACCGGTGTAATCTGTAATCTGTAAT\t2\nCCGGTGTAATCTGTAATCTGTAATC\t2\n";
    assert_dump(
        &rt,
        &[TWICE, TWICE],
        &settings(&rt, 25, 2, BILLION, 255),
        dump,
    );
}

#[test]
fn bins_give_the_dump_of_strands_apart(rt: HostRuntime) {
    let apart = settings(&rt, 25, 2, BILLION, 255).with_strands(Strands::Apart);
    let dump = b"ATTACAGATTACAGATTACACCGGT\t2\nGATTACAGATTACAGATTACACCGG\t2\n";
    assert_dump(&rt, &[TWICE, TWICE], &apart, dump);
}

#[test]
fn bins_give_the_dumps_of_short_reads(rt: HostRuntime) {
    let params = settings(&rt, 4, 1, BILLION, 255);
    assert_dump(&rt, &[b"ACGTACGT"], &params, b"ACGT\t2\nCGTA\t2\nGTAC\t1\n");
    assert_dump(&rt, &[b"ACGTNACGT"], &params, b"ACGT\t2\n");
    let two: [&[u8]; 2] = [b"ACGTACGT", b"ACGTNACGT"];
    assert_dump(&rt, &two, &params, b"ACGT\t4\nCGTA\t2\nGTAC\t1\n");
}

#[test]
fn bins_give_no_line_between_crossed_limits(rt: HostRuntime) {
    assert_dump(&rt, &[b"ACGTACGT"], &settings(&rt, 4, 3, 2, 255), b"");
}

/// Asserts that a long run of one symbol gives no line within these limits.
fn assert_no_line<R: Abort + Threads + Wait + Sync + Alloc<A = Global>>(
    rt: &R,
    ci: u64,
    cx: u64,
    cs: u64,
) {
    assert_dump(rt, &[&[b'A'; 300]], &settings(rt, 25, ci, cx, cs), b"");
}

/// Asserts that a long run of one symbol gives one line within these limits, which shows this count.
fn assert_shown<R: Abort + Threads + Wait + Sync + Alloc<A = Global>>(
    rt: &R,
    ci: u64,
    cx: u64,
    cs: u64,
    count: u64,
) {
    let line = line_of_a(rt, rt.alloc(), 25, count);
    assert_dump(
        rt,
        &[&[b'A'; 300]],
        &settings(rt, 25, ci, cx, cs),
        line.as_bytes(),
    );
}

#[test]
fn long_runs_are_counted_whole_and_then_capped(rt: HostRuntime) {
    assert_shown(&rt, 2, BILLION, 255, 255);
    assert_shown(&rt, 276, 276, 275, 275);
    assert_shown(&rt, 276, 276, 276, 276);
}

#[test]
fn long_runs_are_judged_by_their_whole_count(rt: HostRuntime) {
    assert_no_line(&rt, 2, 200, 100);
    assert_no_line(&rt, 2, 275, 255);
    assert_no_line(&rt, 277, BILLION, 255);
}

#[test]
fn long_runs_of_one_symbol_lie_in_the_first_bin(rt: HostRuntime) {
    let reads = vectors_of(rt.alloc(), &[&[b'A'; 300]]).expect(&rt, "memory");
    let bins = filled(&rt, rt.alloc(), &reads, &settings(&rt, 25, 2, BILLION, 255));
    let bodies = bins.bodies();
    assert!(rt; bodies.len() == 512 && bodies.iter().skip(1).all(|body| body.is_empty()));
    // 71 bytes of 256 words, and 12 of 20
    assert!(rt; bodies.first().is_some_and(|body| body.len() == 83));
}

/// Bins hold words of both strands alike: strands are told apart only where words are counted.
#[test]
fn bins_are_the_same_with_strands_apart(rt: HostRuntime) {
    let reads = vectors_of(rt.alloc(), &[b"ACGTACGT", b"ACGTACGT"]).expect(&rt, "memory");
    let joined = sized(&rt, 4, 9, 7, 2, 2, Limits::new(1, BILLION, 255));
    for params in [joined, joined.with_strands(Strands::Apart)] {
        let bins = filled(&rt, rt.alloc(), &reads, &params);
        assert_twice_in(&rt, rt.alloc(), &bins).expect(&rt, "memory");
    }
}
