//! Bins filled part by part, and merged.
use crate::tests::given::{assert_number, assert_text, chunk_of, long_read, push_bin, shape_of};
use kmc_record::{Chunk, Part, Shape, parts_of};
use kmc_store::{Bins, laws};
use std::alloc::{AllocError, Global};
use std::process::Abort;
use std::test::Fail;

/// How many bytes and how many words a bin has.
fn sizes_of(rt: &impl Abort, bins: &Bins, bin: usize) -> (usize, u64) {
    assert!(rt; bin < bins.shape().n());
    (bins.bin(bin).len(), bins.words(bin))
}

/// Takes in a part that came back for want of memory.
fn take_in_again(rt: &impl Abort, bins: &mut Bins, part: Part) {
    assert!(rt; part.shape() == bins.shape());
    bins.absorb(part).ok().expect(rt, "room for the part");
}

/// Takes the part in, and where it came back for want of memory, once more: until then the bins are as they were.
fn take_in(rt: &impl Abort, bins: &mut Bins, part: Part) {
    let bin = part.bin();
    let before = sizes_of(rt, bins, bin);
    assert!(rt; part.shape() == bins.shape());
    if let Err(part) = bins.absorb(part) {
        assert!(rt; sizes_of(rt, bins, bin) == before);
        take_in_again(rt, bins, part);
    }
}

/// Takes in the parts of a chunk.
fn take_in_chunk(
    rt: &impl Abort,
    alloc: Global,
    bins: &mut Bins,
    chunk: &Chunk,
) -> Result<(), AllocError> {
    for part in parts_of(alloc, chunk, bins.shape())? {
        take_in(rt, bins, part);
    }
    Ok(())
}

/// Bins that have taken in the parts of these chunks.
fn bins_of(
    rt: &impl Abort,
    alloc: Global,
    shape: Shape,
    chunks: &[&str],
) -> Result<Bins, AllocError> {
    let mut bins = Bins::new(alloc, shape)?;
    for (number, reads) in chunks.iter().enumerate() {
        let chunk = chunk_of(alloc, number as u64, reads)?;
        take_in_chunk(rt, alloc, &mut bins, &chunk)?;
    }
    Ok(bins)
}

/// The bins that are not empty, each as its number, its number of words and its records.
fn text_of(alloc: Global, bins: &Bins) -> Result<String, Fail> {
    let mut text = String::new(alloc);
    for bin in 0..bins.shape().n() {
        let body = bins.bin(bin);
        if !body.is_empty() {
            push_bin(&mut text, alloc, bin, bins.words(bin), body)?;
        }
    }
    Ok(text)
}

/// Asserts that the bins that are not empty are these.
fn assert_bins(rt: &impl Abort, alloc: Global, bins: &Bins, want: &str) -> Result<(), Fail> {
    assert_text(rt, text_of(alloc, bins)?.as_str(), want);
    Ok(())
}

/// Asserts that a bin has so many bytes and so many words.
fn assert_sizes(rt: &impl Abort, bins: &Bins, bin: usize, want: (usize, u64)) {
    let (size, words) = sizes_of(rt, bins, bin);
    assert!(rt;
        (size, words) == want,
        "{size} bytes and {words} words in {bin}"
    );
}

const ONE: &str = "2 1 00b1;3 2 006c00c6;6 2 001b001b;";

const TWO: &str = "2 2 00b100b1;3 4 006c00c6006c00c6;6 4 001b001b001b001b;";

#[test]
fn new_bins_are_empty(rt: HostRuntime) -> Result<(), Fail> {
    let alloc = rt.alloc();
    let shape = shape_of(&rt, 4, 8, 7);
    let bins = Bins::new(alloc, shape)?;
    assert!(rt; bins.shape() == shape);
    assert_number(&rt, bins.bodies().len(), 7);
    for bin in 0..7 {
        assert_sizes(&rt, &bins, bin, (0, 0));
    }
    Ok(())
}

/// Asserts that the bins of these chunks are these.
fn assert_bins_of(rt: &impl Abort, alloc: Global, chunks: &[&str], want: &str) -> Result<(), Fail> {
    let bins = bins_of(rt, alloc, shape_of(rt, 4, 8, 7), chunks)?;
    assert_bins(rt, alloc, &bins, want)
}

#[test]
fn each_part_goes_to_its_bin(rt: HostRuntime) -> Result<(), Fail> {
    let alloc = rt.alloc();
    assert_bins_of(&rt, alloc, &["ACGTACGT"], ONE)?;
    assert_bins_of(&rt, alloc, &["ACGTACGT", "ACGTACGT"], TWO)?;
    assert_bins_of(&rt, alloc, &["ACGTACGT,ACGTACGT"], TWO)?;
    assert_bins_of(&rt, alloc, &["NNNN", "ACG"], "")
}

/// The bins of a read of 300 equal bases.
fn bins_of_a_run(rt: &impl Abort, alloc: Global) -> Result<Bins, AllocError> {
    let mut read = String::new(alloc);
    for _ in 0..300 {
        read.push('A')?;
    }
    bins_of(rt, alloc, shape_of(rt, 25, 9, 512), &[read.as_str()])
}

#[test]
fn a_long_run_is_two_records(rt: HostRuntime) -> Result<(), Fail> {
    let bins = bins_of_a_run(&rt, rt.alloc())?;
    // 71 bytes of 256 words, and 12 of 20
    let body = bins.bodies().first().ok_or("a bin")?;
    assert!(rt; (body.get(0), body.get(71)) == (Some(&0xFF), Some(&0x13)));
    for (bin, body) in bins.bodies().iter().enumerate() {
        let want = if bin == 0 { (83, 276) } else { (0, 0) };
        assert_number(&rt, body.len(), want.0);
        assert_sizes(&rt, &bins, bin, want);
    }
    Ok(())
}

/// A part of bin 6 with two records of one word each.
fn part_from_outside(rt: &impl Abort, alloc: Global, shape: Shape) -> Result<Part, AllocError> {
    assert!(rt; 6 < shape.n());
    let body = [0, 0x1B, 0, 0x1B].to_vec(alloc)?;
    let part = Part::from_body(9, 6, shape, body).ok();
    Ok(part.expect(rt, "a part"))
}

#[test]
fn takes_in_a_body_from_outside(rt: HostRuntime) -> Result<(), Fail> {
    let alloc = rt.alloc();
    let shape = shape_of(&rt, 4, 8, 7);
    let part = part_from_outside(&rt, alloc, shape)?;
    let mut bins = bins_of(&rt, alloc, shape, &["ACGTACGT"])?;
    take_in(&rt, &mut bins, part);
    let want = "2 1 00b1;3 2 006c00c6;6 4 001b001b001b001b;";
    assert_bins(&rt, alloc, &bins, want)
}

/// Merges bins that came back for want of memory.
fn merge_again(rt: &impl Abort, bins: &mut Bins, other: Bins) {
    assert!(rt; other.shape() == bins.shape());
    bins.merge(other).ok().expect(rt, "room for the others");
}

/// The bins, merged with the others, once more where these came back for want of memory.
fn merge_in(rt: &impl Abort, alloc: Global, bins: &mut Bins, other: Bins) -> Result<(), Fail> {
    let before = text_of(alloc, bins)?;
    assert!(rt; other.shape() == bins.shape());
    if let Err(other) = bins.merge(other) {
        assert_bins(rt, alloc, bins, before.as_str())?;
        merge_again(rt, bins, other);
    }
    Ok(())
}

/// Merges the bins with those of these chunks, and asserts that they then are these.
fn assert_merged(
    rt: &impl Abort,
    alloc: Global,
    bins: &mut Bins,
    chunks: &[&str],
    want: &str,
) -> Result<(), Fail> {
    let others = bins_of(rt, alloc, bins.shape(), chunks)?;
    merge_in(rt, alloc, bins, others)?;
    assert_bins(rt, alloc, bins, want)
}

#[test]
fn merges_bin_by_bin(rt: HostRuntime) -> Result<(), Fail> {
    let alloc = rt.alloc();
    let mut bins = Bins::new(alloc, shape_of(&rt, 4, 8, 7))?;
    for (chunks, want) in [
        ([].as_slice(), ""),
        (["ACGTACGT"].as_slice(), ONE),
        ([].as_slice(), ONE),
        (
            ["CCCCC,ACGTA"].as_slice(),
            "1 2 015540;2 1 00b1;3 3 006c00c6006c;6 3 001b001b001b;",
        ),
    ] {
        assert_merged(&rt, alloc, &mut bins, chunks, want)?;
    }
    Ok(())
}

#[test]
fn laws_can_be_called() {
    laws::merged_bins_hold_both();
    laws::empty_bins_hold_no_reads();
    laws::gathered_parts_hold_reads();
    laws::no_parts_are_added();
    laws::absorbed_part_is_added();
    laws::merged_parts_are_added();
    laws::held_records_are_the_runs();
}

/// How many words all bins have.
fn all_words(bins: &Bins) -> u64 {
    let mut words: u64 = 0;
    for bin in 0..bins.shape().n() {
        words = words.saturating_add(bins.words(bin));
    }
    words
}

/// The bins of a read, merged with the same once more.
fn merged_with_itself(
    rt: &impl Abort,
    alloc: Global,
    shape: Shape,
    read: &str,
) -> Result<Bins, Fail> {
    let mut bins = bins_of(rt, alloc, shape, &[read])?;
    let other = bins_of(rt, alloc, shape, &[read])?;
    merge_in(rt, alloc, &mut bins, other)?;
    Ok(bins)
}

/// All words of a read of 10,000 symbols lie in one part where there is one bin, and in many where there are 2,000.
#[test]
fn takes_in_and_merges_the_words_of_a_long_read(rt: HostRuntime) -> Result<(), Fail> {
    let read = long_read(rt.alloc(), 10_000)?;
    for n in [1, 2000] {
        let shape = shape_of(&rt, 25, 8, n);
        let bins = merged_with_itself(&rt, rt.alloc(), shape, read.as_str())?;
        assert_eq!(rt; all_words(&bins), 2 * 9976);
    }
    Ok(())
}
