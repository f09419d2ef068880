//! Reads in parts, each cut to the files of slices; the dumps of the slices, merged, beside the dump of one run over all reads.
use crate::devices::{SOUND, files_of, writers_of};
use crate::texts::{fasta, reads_of, sequence, settings};
use kmc_base::Strands;
use kmc_count::Limits;
use kmc_device::Counted;
use kmc_options::Params;
use kmc_slices::{SliceRecords, cut_slices, list_records};
use kmc_sum::{MOST_SOURCES, TextReader, merge};
use kmc_tool::run;
use std::alloc::Global;
use std::process::Abort;
use std::sync::Wait;
use std::thread::Threads;
use test_support::{BlockReader, Dice};

/// The files of so many slices of the text.
pub(crate) fn cut<R: Abort + Threads + Wait + Sync>(
    rt: &R,
    alloc: Global,
    text: &[u8],
    slices: usize,
    params: &Params,
) -> Vec<Vec<u8>> {
    assert!(rt; 1 <= slices && slices <= 1000);
    let mut reader = Counted::new(BlockReader::new(text, 100, 0));
    let mut writers = writers_of(alloc, slices, &SOUND).expect(rt, "memory");
    let answer = cut_slices(rt, alloc, &mut reader, writers.as_mut_slice(), params);
    assert_eq!(rt; answer, Ok(()));
    files_of(alloc, writers).expect(rt, "memory")
}

/// The records of the files before and of this one.
pub(crate) fn gathered(
    rt: &impl Abort,
    alloc: Global,
    before: Option<SliceRecords>,
    file: &[u8],
) -> SliceRecords {
    let mut reader = Counted::new(BlockReader::new(file, 1000, 0));
    let Some(records) = before else {
        return SliceRecords::begin(alloc, &mut reader).expect(rt, "a file");
    };
    let mut records = records;
    assert_eq!(rt; records.add(&mut reader), Ok(()));
    records
}

/// The dump of a slice of the parts.
fn dump_of_slice<R: Abort + Threads + Wait + Sync>(
    rt: &R,
    alloc: Global,
    parts: &[Vec<Vec<u8>>],
    slice: usize,
    params: &Params,
) -> Vec<u8> {
    let mut records = None;
    for files in parts {
        let file = files.get(slice).expect(rt, "a file");
        records = Some(gathered(rt, alloc, records, file));
    }
    let mut writer = Counted::new(Vec::new(alloc));
    let records = records.expect(rt, "a part");
    let answer = list_records(rt, alloc, records, params, &mut writer);
    assert!(rt; answer.is_ok());
    writer.into_inner()
}

/// The merge of the dumps.
fn merged(rt: &impl Abort, alloc: Global, dumps: &[Vec<u8>]) -> Vec<u8> {
    let mut readers = Vec::new(alloc);
    for dump in dumps {
        let reader = TextReader(BlockReader::new(dump, 1000, 0));
        readers.push(Counted::new(reader)).expect(rt, "memory");
    }
    assert!(rt; 1 <= readers.len() && readers.len() <= MOST_SOURCES);
    let limits = Limits::new(0, 1 << 62, 1 << 62).expect(rt, "limits");
    let mut writer = Counted::new(Vec::new(alloc));
    let answer = merge(alloc, readers.as_mut_slice(), &limits, &mut writer);
    assert!(rt; answer.is_ok());
    writer.into_inner()
}

/// What one run over the text writes.
fn dump_of_run<R: Abort + Threads + Wait + Sync>(
    rt: &R,
    alloc: Global,
    text: &[u8],
    params: &Params,
) -> Vec<u8> {
    let mut reader = Counted::new(BlockReader::new(text, 1000, 0));
    let mut writer = Counted::new(Vec::new(alloc));
    assert!(rt; run(rt, alloc, &mut reader, &mut writer, params).is_ok());
    writer.into_inner()
}

/// Asserts that the dumps of the slices, merged, are the dump of one run, which lists words.
fn assert_dump<R: Abort + Threads + Wait + Sync>(
    rt: &R,
    alloc: Global,
    text: &[u8],
    parts: &[Vec<Vec<u8>>],
    slices: usize,
    params: &Params,
) {
    let mut dumps = Vec::new(alloc);
    for slice in 0..slices {
        let dump = dump_of_slice(rt, alloc, parts, slice, params);
        dumps.push(dump).expect(rt, "memory");
    }
    let whole = dump_of_run(rt, alloc, text, params);
    assert!(rt; !whole.is_empty());
    assert!(rt; merged(rt, alloc, &dumps) == whole);
}

/// The reads in so many parts, each cut to the files of slices.
fn parts_of<R: Abort + Threads + Wait + Sync>(
    rt: &R,
    alloc: Global,
    reads: &[Vec<u8>],
    many: usize,
    slices: usize,
    params: &Params,
) -> Vec<Vec<Vec<u8>>> {
    let mut parts = Vec::new(alloc);
    for part in 0..many {
        let text = fasta(alloc, reads, many, part).expect(rt, "memory");
        parts
            .push(cut(rt, alloc, &text, slices, params))
            .expect(rt, "memory");
    }
    parts
}

/// Asserts it for both ways to treat strands and for two limits, where the reads are in so many parts.
fn assert_parts<R: Abort + Threads + Wait + Sync>(
    rt: &R,
    alloc: Global,
    reads: &[Vec<u8>],
    many: usize,
    slices: usize,
    k: usize,
) {
    let text = fasta(alloc, reads, 1, 0).expect(rt, "memory");
    let params = settings(rt, k, 7, Strands::Joined, 1);
    let parts = parts_of(rt, alloc, reads, many, slices, &params);
    for strands in [Strands::Joined, Strands::Apart] {
        for ci in [1, 2] {
            let params = settings(rt, k, 7, strands, ci);
            assert_dump(rt, alloc, &text, &parts, slices, &params);
        }
    }
}

/// Asserts it for some numbers of parts and slices.
fn assert_k<R: Abort + Threads + Wait + Sync + Alloc<A = Global>>(rt: &R, k: usize) {
    let mut dice = Dice { state: k as u64 };
    let reads = reads_of(rt.alloc(), &mut dice, 30).expect(rt, "memory");
    for many in [1, 2, 7] {
        for slices in [1, 2, 3] {
            assert_parts(rt, rt.alloc(), &reads, many, slices, k);
        }
    }
}

#[test]
fn slices_merged_are_one_run(rt: HostRuntime) {
    for k in [1, 25, 31, 32, 33, 64] {
        assert_k(&rt, k);
    }
}

/// Asserts it where each of 512 bins is a slice, of reads in so many parts.
fn assert_bins<R: Abort + Threads + Wait + Sync>(rt: &R, alloc: Global, many: usize, k: usize) {
    let mut dice = Dice { state: 9 };
    let reads = reads_of(alloc, &mut dice, 12).expect(rt, "memory");
    let text = fasta(alloc, &reads, 1, 0).expect(rt, "memory");
    let params = settings(rt, k, 512, Strands::Joined, 1);
    let parts = parts_of(rt, alloc, &reads, many, 512, &params);
    assert_dump(rt, alloc, &text, &parts, 512, &params);
}

#[test]
fn slices_of_one_bin_each_merged_are_one_run(rt: HostRuntime) {
    for k in [1, 25, 31, 32, 33, 64] {
        assert_bins(&rt, rt.alloc(), 1, k);
    }
    for many in [2, 7] {
        assert_bins(&rt, rt.alloc(), many, 25);
    }
}

/// A read that is cut to pieces as it comes: 1,000 symbols, over and over.
#[test]
fn slices_of_a_long_read_merged_are_one_run(rt: HostRuntime) {
    let mut dice = Dice { state: 4 };
    let unit = sequence(rt.alloc(), &mut dice, 1000).expect(&rt, "memory");
    let mut read = Vec::new(rt.alloc());
    for _ in 0..150 {
        read.extend_from_slice(&unit).expect(&rt, "memory");
    }
    let reads = [read];
    assert_parts(&rt, rt.alloc(), &reads, 1, 3, 31);
}
