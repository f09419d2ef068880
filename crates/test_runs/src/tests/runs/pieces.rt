//! Texts that come one byte, seven bytes or all at once, in rounds of one read and of six: what is answered does not depend on it.
use super::*;
use kmc_count::Limits;
use kmc_reads::{Format, ReadsError};

/// Settings for words of k symbols, with a queue of so many splitters and so many reads of a round for each.
fn settings_of(
    rt: &impl Abort,
    format: Format,
    k: usize,
    ci: u64,
    splitters: usize,
    batch: usize,
) -> Params {
    let limits = Limits::new(ci, BILLION, 255).expect(rt, "limits in range");
    Params::new(format, k, 9, 512, splitters, 2, limits)
        .expect(rt, "settings in range")
        .with_queue(1, 8, batch)
        .expect(rt, "queue in range")
}

/// Asserts that runs over the text answer and write this, however its bytes come, and that no call of their devices fails.
fn assert_in_pieces<R: Abort + Threads + Wait + Sync + Alloc<A = Global>>(
    rt: &R,
    text: &[u8],
    (format, k, ci): (Format, usize, u64),
    answer: Result<u64, RunError>,
    dump: &[u8],
) {
    for block in [1, 7, 1000] {
        for (splitters, batch) in [(1, 1), (3, 2)] {
            let params = settings_of(rt, format, k, ci, splitters, batch);
            let reader = BlockReader::new(text, block, 0);
            let room = Vec::new(rt.alloc());
            let writer = NarrowWriter::new(room, 1000, 1000, Full::Fails, true);
            let made = run_between(rt, rt.alloc(), reader, writer, &params);
            assert_outcome(rt, &made, answer, dump, (0, 0));
        }
    }
}

const PALINDROME: &[u8] = b"ACGT\t2\nCGTA\t2\nGTAC\t1\n";

#[test]
fn dumps_do_not_depend_on_how_bytes_come(rt: HostRuntime) {
    let read = b"GATTACAGATTACAGATTACACCGGT".as_slice();
    let equal = fastq(&rt, rt.alloc(), &[read, read]);
    let dump = b"ACCGGTGTAATCTGTAATCTGTAAT\t2\nCCGGTGTAATCTGTAATCTGTAATC\t2\n";
    assert_in_pieces(&rt, &equal, (Format::Fastq, 25, 2), Ok(2), dump);
    let short = fastq(&rt, rt.alloc(), &[b"ACGTACGT"]);
    assert_in_pieces(&rt, &short, (Format::Fastq, 4, 1), Ok(3), PALINDROME);
    let returns = b"@r\r\nACGTACGT\r\n+\r\nIIIIIIII";
    assert_in_pieces(&rt, returns, (Format::Fastq, 4, 1), Ok(3), PALINDROME);
    let fasta = b"\n>a\nACGT\n\nACGT";
    assert_in_pieces(&rt, fasta, (Format::Fasta, 4, 1), Ok(3), PALINDROME);
}

#[test]
fn refusals_do_not_depend_on_how_bytes_come(rt: HostRuntime) {
    for (text, fault) in [
        (
            b"@r\nACGT\n+\nIII\n".as_slice(),
            ReadsError::QualityLength(4),
        ),
        (b"@r\nACGT\n+\n", ReadsError::Truncated(4)),
        (b"r\nACGT\n+\nIIII\n", ReadsError::BadHeader(1)),
        (b"\n@r\nACGT\nx\nIIII\n", ReadsError::BadPlus(4)),
    ] {
        let refused = Err(RunError::Input(fault));
        assert_in_pieces(&rt, text, (Format::Fastq, 4, 1), refused, b"");
    }
}
