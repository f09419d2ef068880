//! One growth refused, in a cut and in the lists of what was cut. The tests pass where none is refused, and whichever one is
//! (`rt try --test --fail-alloc N -- refused`).
use crate::devices::{Weak, writers_of};
use crate::texts::settings;
use kmc_base::Strands;
use kmc_device::Counted;
use kmc_slice_files::{FrameFault, FramesFault, SliceFault};
use kmc_slices::{CutError, GatherError, ListError, SliceRecords, cut_slices, list_records};
use std::alloc::Global;
use std::process::Abort;
use std::sync::Wait;
use std::thread::Threads;
use test_support::{BlockReader, NarrowWriter};

const TEXT: &[u8] = b">r\nGGAACCCGAACCGT\n>s\nGGAACCCGAACCGT\n";

/// The dumps of the text's two slices, each read twice.
const DUMPS: [&'static str; 2] = [
    "AACCCGAACCG\t4\nGAACCCGAACC\t4\nGGAACCCGAAC\t4\n",
    "ACCCGAACCGT\t4\n",
];

/// No writer fails or asks for memory.
const READY: Weak = Weak {
    writer: 0,
    room: 500,
    flushes: true,
    ready: 500,
};

fn is_memory(fault: SliceFault) -> bool {
    match fault {
        SliceFault::Header(_) => false,
        SliceFault::Other(_) => false,
        SliceFault::File(fault) => fault.why == FramesFault::Next(FrameFault::Memory),
    }
}

/// The records of the file, read twice, or nothing where memory was refused.
fn records_of(rt: &impl Abort, alloc: Global, file: &[u8]) -> Option<SliceRecords> {
    let mut reader = Counted::new(BlockReader::new(file, 1000, 0));
    let mut records = match SliceRecords::begin(alloc, &mut reader) {
        Ok(records) => records,
        Err(GatherError::Memory) => return None,
        Err(GatherError::File(fault)) => {
            assert!(rt; is_memory(fault));
            return None;
        }
    };
    let mut reader = Counted::new(BlockReader::new(file, 1000, 0));
    if let Err(fault) = records.add(&mut reader) {
        assert!(rt; is_memory(fault));
        return None;
    }
    Some(records)
}

/// Asserts that the file is listed so, or that memory was refused before the first byte.
fn assert_listed_or_refused<R: Abort + Threads + Wait + Sync>(
    rt: &R,
    alloc: Global,
    file: &[u8],
    dump: &str,
) {
    let params = settings(rt, 11, 7, Strands::Joined, 1);
    let Ok(room) = Vec::with_capacity(alloc, 64) else {
        return;
    };
    let Some(records) = records_of(rt, alloc, file) else {
        return;
    };
    let mut writer = Counted::new(room);
    let answer = list_records(rt, alloc, records, &params, &mut writer);
    let written: Vec<u8> = writer.into_inner();
    match answer {
        Ok(_) => assert!(rt; written.as_slice() == dump.as_bytes()),
        Err(e) => assert!(rt; e == ListError::Memory && written.is_empty()),
    }
}

/// Asserts that the bytes are no file of a slice.
fn assert_no_file(rt: &impl Abort, alloc: Global, bytes: &[u8]) {
    let mut reader = Counted::new(BlockReader::new(bytes, 1000, 0));
    assert!(rt; SliceRecords::begin(alloc, &mut reader).is_err());
}

/// Asserts what the writers of a cut have.
fn assert_cut_or_refused<R: Abort + Threads + Wait + Sync>(
    rt: &R,
    alloc: Global,
    answer: Result<(), CutError>,
    writers: Vec<Counted<NarrowWriter>>,
) {
    assert!(rt; answer == Ok(()) || answer == Err(CutError::Memory));
    let mut dumps = DUMPS.iter();
    for writer in writers {
        let file = writer.into_inner().into_bytes();
        let dump = dumps.next().expect(rt, "two writers");
        if answer.is_ok() {
            assert_listed_or_refused(rt, alloc, &file, dump);
        } else {
            assert_no_file(rt, alloc, &file);
        }
    }
}

fn cut_or_refuse<R: Abort + Threads + Wait + Sync>(rt: &R, alloc: Global) {
    let params = settings(rt, 11, 7, Strands::Joined, 1);
    let mut reader = Counted::new(BlockReader::new(TEXT, 1, 0));
    let Ok(writers) = writers_of(alloc, 2, &READY) else {
        return;
    };
    let mut writers = writers;
    let answer = cut_slices(rt, alloc, &mut reader, writers.as_mut_slice(), &params);
    assert_cut_or_refused(rt, alloc, answer, writers);
}

#[test]
fn refused_memory_is_answered(rt: HostRuntime) {
    cut_or_refuse(&rt, rt.alloc());
}
