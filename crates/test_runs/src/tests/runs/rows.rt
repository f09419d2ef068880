//! Texts with the dumps that they must give, from the definition by hand and by an independent count.
use super::*;
use crate::tests::texts::line_of_a;
use kmc_base::Strands;
use kmc_count::Limits;
use kmc_reads::Format;

/// Asserts that a run over the text writes this dump, and that no call of its devices fails.
fn assert_dump<R: Abort + Threads + Wait + Sync + Alloc<A = Global>>(
    rt: &R,
    text: &[u8],
    params: &Params,
    dump: &str,
) {
    let made = dump_of(rt, rt.alloc(), text, params);
    assert_whole(rt, &made, dump.as_bytes());
}

const EQUAL: &[&[u8]] = &[b"GATTACAGATTACAGATTACACCGGT", b"GATTACAGATTACAGATTACACCGGT"];

#[test]
fn counts_two_equal_reads(rt: HostRuntime) {
    let text = fastq(&rt, rt.alloc(), EQUAL);
    let joined = "ACCGGTGTAATCTGTAATCTGTAAT\t2\nCCGGTGTAATCTGTAATCTGTAATC\t2\n";
    assert_dump(&rt, &text, &Params::default(), joined);
}

#[test]
fn counts_two_equal_reads_with_strands_apart(rt: HostRuntime) {
    let text = fastq(&rt, rt.alloc(), EQUAL);
    let params = Params::default().with_strands(Strands::Apart);
    let apart = "ATTACAGATTACAGATTACACCGGT\t2\nGATTACAGATTACAGATTACACCGG\t2\n";
    assert_dump(&rt, &text, &params, apart);
}

#[test]
fn counts_nothing_in_an_empty_input(rt: HostRuntime) {
    assert_dump(&rt, &[], &Params::default(), "");
}

#[test]
fn counts_a_word_and_its_reverse_complement_together(rt: HostRuntime) {
    let text = fastq(&rt, rt.alloc(), &[b"ACGTACGT"]);
    let dump = "ACGT\t2\nCGTA\t2\nGTAC\t1\n";
    assert_dump(&rt, &text, &settings(&rt, 4, 1, BILLION, 255), dump);
    assert_dump(&rt, &text, &settings(&rt, 4, 0, BILLION, 255), dump);
    assert_dump(&rt, &text, &settings(&rt, 4, 3, 2, 255), "");
}

#[test]
fn counts_a_word_and_its_reverse_complement_apart(rt: HostRuntime) {
    let text = fastq(&rt, rt.alloc(), &[b"ACGTACGT"]);
    let apart = settings(&rt, 4, 1, BILLION, 255).with_strands(Strands::Apart);
    assert_dump(&rt, &text, &apart, "ACGT\t2\nCGTA\t1\nGTAC\t1\nTACG\t1\n");
}

/// Asserts the dump of a read of 300 letters A within these limits.
fn assert_long_run<R: Abort + Threads + Wait + Sync + Alloc<A = Global>>(
    rt: &R,
    ci: u64,
    cx: u64,
    cs: u64,
    dump: &str,
) {
    let text = fastq(rt, rt.alloc(), &[[b'A'; 300].as_slice()]);
    assert_dump(rt, &text, &settings(rt, 25, ci, cx, cs), dump);
}

#[test]
fn limits_judge_the_true_count(rt: HostRuntime) {
    assert_long_run(&rt, 2, 200, 100, "");
    assert_long_run(&rt, 2, 275, 255, "");
    assert_long_run(&rt, 277, BILLION, 255, "");
    assert_long_run(&rt, 0, 0, 255, "");
}

#[test]
fn the_cap_is_what_is_shown(rt: HostRuntime) {
    for (ci, cx, cap) in [(276, 276, 275), (276, 276, 276), (1, BILLION, 1)] {
        let line = line_of_a(&rt, rt.alloc(), 25, cap);
        assert_long_run(&rt, ci, cx, cap, &line);
    }
}

#[test]
fn the_usual_cap_is_255(rt: HostRuntime) {
    let text = fastq(&rt, rt.alloc(), &[[b'A'; 300].as_slice()]);
    let usual = line_of_a(&rt, rt.alloc(), 25, 255);
    assert_dump(&rt, &text, &Params::default(), &usual);
}

#[test]
fn counts_segments_of_exactly_k(rt: HostRuntime) {
    let text = fastq(&rt, rt.alloc(), &[b"ACGTNACGT"]);
    let joined = settings(&rt, 4, 1, BILLION, 255);
    for params in [joined, joined.with_strands(Strands::Apart)] {
        assert_dump(&rt, &text, &params, "ACGT\t2\n");
    }
}

#[test]
fn reads_lower_case_as_upper_case(rt: HostRuntime) {
    let text = fastq(&rt, rt.alloc(), &[b"acgtACGT"]);
    assert_dump(
        &rt,
        &text,
        &settings(&rt, 4, 2, BILLION, 255),
        "ACGT\t2\nCGTA\t2\n",
    );
}

#[test]
fn passes_over_reads_shorter_than_k(rt: HostRuntime) {
    let text = fastq(&rt, rt.alloc(), &[b"ACG", b"ACGT", b""]);
    assert_dump(&rt, &text, &settings(&rt, 4, 1, BILLION, 255), "ACGT\t1\n");
}

/// Asserts that a read of so many equal letters has one line, the word of k letters A with this count.
fn assert_one_line<R: Abort + Threads + Wait + Sync + Alloc<A = Global>>(
    rt: &R,
    letter: u8,
    length: usize,
    k: usize,
    ci: u64,
    count: u64,
) {
    let mut read = Vec::new(rt.alloc());
    read.resize(length, letter).expect(rt, "memory");
    let text = fastq(rt, rt.alloc(), &[read.as_slice()]);
    let line = line_of_a(rt, rt.alloc(), k, count);
    assert_dump(rt, &text, &settings(rt, k, ci, BILLION, 255), &line);
}

#[test]
fn counts_words_at_the_edges_of_k(rt: HostRuntime) {
    assert_one_line(&rt, b'T', 32, 32, 1, 1);
    assert_one_line(&rt, b'A', 34, 33, 2, 2);
    assert_one_line(&rt, b'T', 64, 64, 1, 1);
    assert_one_line(&rt, b'T', 64, 63, 1, 2);
    assert_one_line(&rt, b'T', 65, 64, 2, 2);
}

#[test]
fn counts_words_of_one_symbol(rt: HostRuntime) {
    let text = fastq(&rt, rt.alloc(), &[b"ACGT"]);
    assert_dump(
        &rt,
        &text,
        &settings(&rt, 1, 1, BILLION, 255),
        "A\t2\nC\t2\n",
    );
}

#[test]
fn counts_a_word_of_32_symbols_with_strands_apart(rt: HostRuntime) {
    let text = fastq(&rt, rt.alloc(), &[[b'T'; 32].as_slice()]);
    let apart = settings(&rt, 32, 1, BILLION, 255).with_strands(Strands::Apart);
    assert_dump(&rt, &text, &apart, "TTTTTTTTTTTTTTTTTTTTTTTTTTTTTTTT\t1\n");
}

#[test]
fn counts_a_word_of_64_symbols_that_is_its_own_reverse_complement(rt: HostRuntime) {
    let even = "ACGTACGTACGTACGTACGTACGTACGTACGTACGTACGTACGTACGTACGTACGTACGTACGT";
    let line = format!(in rt.alloc(); "{even}\t1\n").expect(&rt, "memory");
    let text = fastq(&rt, rt.alloc(), &[even.as_bytes()]);
    assert_dump(&rt, &text, &settings(&rt, 64, 1, BILLION, 255), &line);
}

#[test]
fn reads_fastq_with_carriage_returns(rt: HostRuntime) {
    let text = b"@r\r\nACGTACGT\r\n+\r\nIIIIIIII";
    let dump = "ACGT\t2\nCGTA\t2\nGTAC\t1\n";
    assert_dump(&rt, text, &settings(&rt, 4, 1, BILLION, 255), dump);
}

#[test]
fn reads_fasta(rt: HostRuntime) {
    let limits = Limits::new(1, BILLION, 255).expect(&rt, "limits in range");
    let fasta = Params::new(Format::Fasta, 4, 9, 512, 2, 2, limits).expect(
        &rt,
        "settings in range",
    );
    let dump = "ACGT\t2\nCGTA\t2\nGTAC\t1\n";
    assert_dump(&rt, b"\n>a\nACGT\n\nACGT", &fasta, dump);
    assert_dump(&rt, b">a\r\nAC\r\nGT\r\n>b\n>c\nACGT", &fasta, "ACGT\t2\n");
}
