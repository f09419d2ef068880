//! Files that are none of the slice that is read: of another slice or shape, cut short, with a changed byte, with records of
//! another bin.
use crate::devices::{SOUND, files_of, writers_of};
use crate::texts::settings;
use crate::wholes::{cut, gathered};
use kmc_base::Strands;
use kmc_device::Counted;
use kmc_record::{PartError, RecordFault, Shape};
use kmc_slice_files::{SliceFault, Slicing, write_files};
use kmc_slices::{
    BinFault, GatherError, ListError, ListFault, SliceRecords, gather_readers, list_records,
};
use std::alloc::Global;
use std::process::Abort;
use std::sync::Wait;
use std::thread::Threads;
use test_support::BlockReader;

const TEXT: &[u8] = b">a\nACGTACGTTTGACGTTACGTGG\n>b\nGATTACAGATTACAGATTACA\n";

/// The files of so many slices of the text, of words of k symbols and n bins.
fn small_files<R: Abort + Threads + Wait + Sync>(
    rt: &R,
    alloc: Global,
    k: usize,
    n: usize,
    slices: usize,
) -> Vec<Vec<u8>> {
    let params = settings(rt, k, n, Strands::Joined, 1);
    cut(rt, alloc, TEXT, slices, &params)
}

/// The file of the first of so many slices.
fn first_file<R: Abort + Threads + Wait + Sync>(
    rt: &R,
    alloc: Global,
    k: usize,
    n: usize,
    slices: usize,
) -> Vec<u8> {
    let files = small_files(rt, alloc, k, n, slices);
    let first = files.into_iter().next();
    first.expect(rt, "a file")
}

/// How the bytes are refused as the first file of a slice.
fn begin_fault(alloc: Global, bytes: &[u8]) -> Option<GatherError> {
    let mut reader = Counted::new(BlockReader::new(bytes, 1000, 0));
    SliceRecords::begin(alloc, &mut reader).err()
}

/// How the bytes are refused as another file of the slice of a file.
fn add_fault(rt: &impl Abort, alloc: Global, file: &[u8], bytes: &[u8]) -> Option<SliceFault> {
    let mut records = gathered(rt, alloc, None, file);
    let mut reader = Counted::new(BlockReader::new(bytes, 1000, 0));
    records.add(&mut reader).err()
}

/// Asserts that the bytes are refused for what they are, first or behind the file.
fn assert_refused(rt: &impl Abort, alloc: Global, file: &[u8], bytes: &[u8]) {
    let fault = add_fault(rt, alloc, file, bytes).expect(rt, "a refusal");
    assert_eq!(rt; begin_fault(alloc, bytes), Some(GatherError::File(fault)));
}

/// Asserts that the other file, which is one of its own slice, is told behind the file as of this place.
fn assert_told(rt: &impl Abort, alloc: Global, file: &[u8], other: &[u8], told: Slicing) {
    assert_eq!(rt; begin_fault(alloc, other), None);
    let fault = add_fault(rt, alloc, file, other);
    assert_eq!(rt; fault, Some(SliceFault::Other(told)));
}

/// The place of a slice where reads are cut so, by signatures of 5 symbols.
fn place(rt: &impl Abort, k: usize, n: usize, slices: u16, slice: u16) -> Slicing {
    let shape = Shape::new(k, 5, n).expect(rt, "a shape");
    Slicing {
        shape,
        slices,
        slice,
    }
}

#[test]
fn a_file_of_another_slice_is_told(rt: HostRuntime) {
    let alloc = rt.alloc();
    let files = small_files(&rt, alloc, 11, 7, 3);
    let file = files.first().expect(&rt, "a file");
    assert_eq!(rt; add_fault(&rt, alloc, file, file), None);
    for slice in 1..3u16 {
        let other = files.get(usize::from(slice)).expect(&rt, "a file");
        assert_told(&rt, alloc, file, other, place(&rt, 11, 7, 3, slice));
    }
}

#[test]
fn a_file_that_was_cut_otherwise_is_told(rt: HostRuntime) {
    let alloc = rt.alloc();
    let file = first_file(&rt, alloc, 11, 7, 3);
    let other = first_file(&rt, alloc, 11, 7, 2);
    assert_told(&rt, alloc, &file, &other, place(&rt, 11, 7, 2, 0));
    let other = first_file(&rt, alloc, 12, 7, 3);
    assert_told(&rt, alloc, &file, &other, place(&rt, 12, 7, 3, 0));
    let other = first_file(&rt, alloc, 11, 8, 3);
    assert_told(&rt, alloc, &file, &other, place(&rt, 11, 8, 3, 0));
    let other = first_file(&rt, alloc, 14, 7, 3);
    assert_told(&rt, alloc, &file, &other, place(&rt, 14, 7, 3, 0));
}

#[test]
fn each_front_of_a_file_is_refused(rt: HostRuntime) {
    let file = first_file(&rt, rt.alloc(), 11, 7, 2);
    for n in 0..file.len() {
        assert_refused(&rt, rt.alloc(), &file, &file[..n]);
    }
}

/// The bytes with a bit of one byte changed.
fn changed(rt: &impl Abort, alloc: Global, file: &[u8], at: usize) -> Vec<u8> {
    let mut bytes = Vec::new(alloc);
    for (i, byte) in file.iter().enumerate() {
        let byte = if i == at { *byte ^ 1 } else { *byte };
        bytes.push(byte).expect(rt, "memory");
    }
    bytes
}

#[test]
fn each_changed_byte_of_a_file_is_refused(rt: HostRuntime) {
    let file = first_file(&rt, rt.alloc(), 11, 7, 2);
    for at in 0..file.len() {
        let bytes = changed(&rt, rt.alloc(), &file, at);
        assert_refused(&rt, rt.alloc(), &file, &bytes);
    }
}

/// The one file of 7 bins of words of 4 symbols, of which bin 6 has these bytes.
fn file_of_bin_6(rt: &impl Abort, alloc: Global, body: &[u8]) -> Vec<u8> {
    let shape = Shape::new(4, 5, 7).expect(rt, "a shape");
    let bodies = [
        Vec::new(alloc),
        Vec::new(alloc),
        Vec::new(alloc),
        Vec::new(alloc),
        Vec::new(alloc),
        Vec::new(alloc),
        body.to_vec(alloc).expect(rt, "memory"),
    ];
    let mut writers = writers_of(alloc, 1, &SOUND).expect(rt, "memory");
    let mut counts = [0];
    let answer = write_files(writers.as_mut_slice(), &mut counts, shape, &bodies);
    assert_eq!(rt; answer, Ok(()));
    let files = files_of(alloc, writers).expect(rt, "memory");
    let first = files.into_iter().next();
    first.expect(rt, "a file")
}

/// What the list of a file answers, where bin 6 has these bytes, and what it writes.
fn list_of_bin_6<R: Abort + Threads + Wait + Sync>(
    rt: &R,
    alloc: Global,
    body: &[u8],
) -> (Result<u64, ListError>, Vec<u8>) {
    let file = file_of_bin_6(rt, alloc, body);
    let records = gathered(rt, alloc, None, &file);
    let params = settings(rt, 25, 512, Strands::Joined, 1);
    let mut writer = Counted::new(Vec::new(alloc));
    let answer = list_records(rt, alloc, records, &params, &mut writer);
    (answer, writer.into_inner())
}

/// Asserts that nothing is listed where bin 6 has these bytes, for this cause.
fn assert_foreign<R: Abort + Threads + Wait + Sync>(
    rt: &R,
    alloc: Global,
    body: &[u8],
    why: PartError,
) {
    let (answer, written) = list_of_bin_6(rt, alloc, body);
    let fault = BinFault { bin: 6, why };
    assert_eq!(rt; answer, Err(ListError::Foreign(fault)));
    assert!(rt; written.is_empty());
}

/// Bin 6 has the word ACGT, bin 2 the word GTAC.
#[test]
fn records_of_another_bin_are_told(rt: HostRuntime) {
    let (answer, written) = list_of_bin_6(&rt, rt.alloc(), &[0, 0x1b, 0, 0x1b]);
    assert_eq!(rt; answer, Ok(1));
    assert_eq!(rt; written.as_slice(), b"ACGT\t2\n".as_slice());
    let own: [u8; 4] = [0, 0x1b, 0, 0x1b];
    assert_foreign(&rt, rt.alloc(), &[0, 0xb1], PartError::WrongBin(0));
    assert_foreign(&rt, rt.alloc(), &[0, 0x1b, 0, 0xb1], PartError::WrongBin(2));
    for cut in [1, 3] {
        let why = PartError::Damaged(RecordFault::Short, cut - 1);
        assert_foreign(&rt, rt.alloc(), &own[..cut], why);
    }
}

#[test]
fn a_file_that_cannot_be_opened_is_told_by_its_number(rt: HostRuntime) {
    let file = first_file(&rt, rt.alloc(), 11, 7, 2);
    for missing in 0..3usize {
        let opener = |i: usize| {
            if i >= missing {
                return None;
            }
            Some(Counted::new(BlockReader::new(&file, 1, 0)))
        };
        let fault = gather_readers(rt.alloc(), 4, &opener).err();
        assert_eq!(rt; fault, Some(ListFault::NotOpened(missing)));
    }
}
