//! Cutting and listing with devices that fail.
use crate::devices::{SOUND, Weak, files_of, writers_of};
use crate::files::FILE;
use crate::texts::settings;
use crate::wholes::gathered;
use kmc_base::Strands;
use kmc_device::Counted;
use kmc_slice_files::{FrameFault, FramesFault, HeaderFault, SliceFault};
use kmc_slices::{CutError, GatherError, ListError, SliceRecords, cut_slices, list_records};
use std::alloc::Global;
use std::process::Abort;
use std::sync::Wait;
use std::thread::Threads;
use test_support::{BlockReader, Full, NarrowWriter};

/// A read of four words of 11 symbols. The first three have the signature of AACCC, 21, and are of bin 0 of 7 bins; the last has that of
/// AACCG, 22, and is of bin 1.
pub(crate) const TEXT: &[u8] = b">r\nGGAACCCGAACCGT\n";

/// The file of slice 0 of 2 of that read: bin 0 has the record of GGAACCCGAACCG. Its bytes were worked by another program, from
/// docs/DEFINITIONS.md.
pub(crate) const CUT: [u8; 65] = [
    0x4b, 0x4d, 0x43, 0x53, 0x4c, 0x49, 0x43, 0x45, 0x01, 0x00, 0x00, 0x00, 0x0b, 0x05, 0x07, 0x00,
    0x02, 0x00, 0x00, 0x00, 0x4b, 0xc7, 0x6f, 0xbf, 0xb3, 0x31, 0x48, 0x1c, 0x00, 0x00, 0x00, 0x00,
    0x05, 0x00, 0x00, 0x00, 0xf5, 0x32, 0x98, 0xfa, 0xf8, 0xc9, 0x34, 0xc9, 0x02, 0xa0, 0x56, 0x05,
    0x80, 0xff, 0xff, 0x00, 0x00, 0x00, 0x00, 0x00, 0x00, 0x01, 0x00, 0x00, 0x00, 0x00, 0x00, 0x00,
    0x00,
];

/// A cut of the text, which comes byte by byte, into two files, and what they have.
fn cut<R: Abort + Threads + Wait + Sync>(
    rt: &R,
    alloc: Global,
    failing: u64,
    weak: &Weak,
) -> (Result<(), CutError>, Vec<Vec<u8>>) {
    let params = settings(rt, 11, 7, Strands::Joined, 1);
    let mut reader = Counted::new(BlockReader::new(TEXT, 1, failing));
    let mut writers = writers_of(alloc, 2, weak).expect(rt, "memory");
    let answer = cut_slices(rt, alloc, &mut reader, writers.as_mut_slice(), &params);
    (answer, files_of(alloc, writers).expect(rt, "memory"))
}

/// Whether the bytes are a whole file of a slice.
fn is_whole(alloc: Global, bytes: &[u8]) -> bool {
    let mut reader = Counted::new(BlockReader::new(bytes, 1000, 0));
    SliceRecords::begin(alloc, &mut reader).is_ok()
}

#[test]
fn a_cut_has_the_bytes_that_were_worked_out(rt: HostRuntime) {
    let (answer, files) = cut(&rt, rt.alloc(), 0, &SOUND);
    assert_eq!(rt; answer, Ok(()));
    let file = files.first().expect(&rt, "a file");
    assert_eq!(rt; file.as_slice(), CUT.as_slice());
}

/// The text has 18 bytes; the read behind them tells that it ends.
#[test]
fn a_read_of_a_cut_that_fails_is_told(rt: HostRuntime) {
    for failing in 1..20 {
        let (answer, files) = cut(&rt, rt.alloc(), failing, &SOUND);
        assert_eq!(rt; answer, Err(CutError::Read));
        for file in &files {
            assert!(rt; !is_whole(rt.alloc(), file));
        }
    }
    let (answer, _) = cut(&rt, rt.alloc(), 20, &SOUND);
    assert_eq!(rt; answer, Ok(()));
}

/// Asserts that a cut tells the one writer that fails, which has a front of its file.
fn assert_told<R: Abort + Threads + Wait + Sync>(rt: &R, alloc: Global, file: &[u8], weak: &Weak) {
    let (answer, files) = cut(rt, alloc, 0, weak);
    assert_eq!(rt; answer, Err(CutError::Write(weak.writer)));
    let written = files.get(weak.writer).expect(rt, "a file");
    assert!(rt; file.starts_with(written));
    assert!(rt; weak.flushes == (written.len() < file.len()));
}

#[test]
fn a_write_of_a_cut_that_fails_is_told_by_its_writer(rt: HostRuntime) {
    let (_, files) = cut(&rt, rt.alloc(), 0, &SOUND);
    for writer in 0..2 {
        let file = files.get(writer).expect(&rt, "a file");
        for room in 0..file.len() {
            let weak = Weak {
                writer,
                room,
                flushes: true,
                ready: 0,
            };
            assert_told(&rt, rt.alloc(), file, &weak);
        }
        let weak = Weak {
            writer,
            room: 1000,
            flushes: false,
            ready: 0,
        };
        assert_told(&rt, rt.alloc(), file, &weak);
    }
}

/// Asserts that it is told as a read that failed, of the header or behind it.
fn assert_read_fault(rt: &impl Abort, fault: SliceFault, header: bool) {
    let told = match fault {
        SliceFault::Header(fault) => header && fault == HeaderFault::Read,
        SliceFault::Other(_) => false,
        SliceFault::File(fault) => !header && fault.why == FramesFault::Next(FrameFault::Read),
    };
    assert!(rt; told);
}

/// Asserts that a read of the worked file that fails is told, of a first file and of another.
fn assert_read_told(rt: &impl Abort, alloc: Global, failing: u64) {
    let mut reader = Counted::new(BlockReader::new(&FILE, 1, failing));
    let Some(GatherError::File(fault)) = SliceRecords::begin(alloc, &mut reader).err() else {
        rt.abort()
    };
    assert_read_fault(rt, fault, failing <= 28);
    let mut records = gathered(rt, alloc, None, &FILE);
    let mut reader = Counted::new(BlockReader::new(&FILE, 1, failing));
    let fault = records.add(&mut reader).err();
    assert_read_fault(rt, fault.expect(rt, "a fault"), failing <= 28);
}

/// The file has 84 bytes, of which 28 are the header.
#[test]
fn a_read_of_a_file_that_fails_is_told(rt: HostRuntime) {
    for failing in 1..86 {
        assert_read_told(&rt, rt.alloc(), failing);
    }
}

/// Asserts that a list of the worked file to a writer that fails is told, and that a front of the dump is written.
fn assert_list_told<R: Abort + Threads + Wait + Sync>(
    rt: &R,
    alloc: Global,
    room: usize,
    flushes: bool,
) {
    let dump = b"ACGT\t2\nCGTA\t2\nGTAC\t1\n";
    let params = settings(rt, 25, 512, Strands::Joined, 1);
    let records = gathered(rt, alloc, None, &FILE);
    let out = NarrowWriter::new(Vec::new(alloc), 3, room, Full::Fails, flushes);
    let mut writer = Counted::new(out);
    let answer = list_records(rt, alloc, records, &params, &mut writer);
    assert_eq!(rt; answer, Err(ListError::Write));
    assert_eq!(rt; writer.failures(), 1);
    let written = writer.into_inner().into_bytes();
    assert_eq!(rt; written.len(), room.min(dump.len()));
    assert!(rt; dump.starts_with(&written));
}

#[test]
fn a_write_of_a_list_that_fails_is_told(rt: HostRuntime) {
    for room in 0..21 {
        assert_list_told(&rt, rt.alloc(), room, true);
    }
    assert_list_told(&rt, rt.alloc(), 1000, false);
}
