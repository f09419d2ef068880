//! Texts at fault, devices that fail, and memory that is refused.
use crate::devices::{Devices, SOUND, Written, made};
use crate::texts::FASTQ;
use kmc_options::RunError;
use kmc_packer::PackReadsError;
use kmc_reads::ReadsError;
use std::alloc::Global;
use std::process::Abort;
use std::sync::Wait;
use std::thread::Threads;

const WORDS: &str = "-k4 -ci1";

/// Passes where the text is refused so, and nothing was written.
fn is_refused<T: Abort + Threads + Wait + Sync + Alloc<A = Global>>(
    rt: &T,
    words: &str,
    first_part: Option<usize>,
    text: &[u8],
    devices: Devices,
    error: PackReadsError,
) {
    let found = made(rt, words, first_part, text, devices);
    assert_eq!(rt; found.answer, Err(error), "{words}");
    assert!(rt; found.prefix.is_empty() && found.suffix.is_empty());
}

#[test]
fn a_text_at_fault_is_refused_before_anything_is_written(rt: HostRuntime) {
    let unlike = PackReadsError::Count(RunError::Input(ReadsError::QualityLength(4)));
    is_refused(&rt, WORDS, None, b"@r\nACGT\n+\nIII\n", SOUND, unlike);
    let unheaded = PackReadsError::Count(RunError::Input(ReadsError::BadHeader(1)));
    is_refused(&rt, "-fa -k4", None, FASTQ, SOUND, unheaded);
}

#[test]
fn a_first_part_that_does_not_fit_is_refused(rt: HostRuntime) {
    for (words, first_part) in [
        ("-k4", 2),
        ("-k4", 5),
        ("-k5", 3),
        ("-k31", 4),
        ("-k31", 19),
    ] {
        let k = if words == "-k4" {
            4
        } else if words == "-k5" {
            5
        } else {
            31
        };
        let error = PackReadsError::Prefix(k);
        is_refused(&rt, words, Some(first_part), FASTQ, SOUND, error);
    }
}

#[test]
fn a_read_that_fails_is_told(rt: HostRuntime) {
    let devices = Devices {
        failing: 1,
        ..SOUND
    };
    let error = PackReadsError::Count(RunError::Read);
    is_refused(&rt, WORDS, None, FASTQ, devices, error);
}

/// The files of a run whose devices do not fail.
fn whole<T: Abort + Threads + Wait + Sync + Alloc<A = Global>>(rt: &T) -> Written {
    let found = made(rt, WORDS, None, FASTQ, SOUND);
    assert_eq!(rt; found.answer, Ok(3));
    found
}

#[test]
fn a_suffix_file_that_cannot_be_written_has_a_front(rt: HostRuntime) {
    let sound = whole(&rt);
    let size = sound.suffix.len();
    for room in 0..size {
        let devices = Devices {
            suffix: (room, true),
            ..SOUND
        };
        let found = made(&rt, WORDS, None, FASTQ, devices);
        assert_eq!(&rt; found.answer, Err(PackReadsError::WriteSuffix));
        assert!(&rt; found.prefix.is_empty());
        assert!(&rt; found.suffix.len() == room && sound.suffix.starts_with(&found.suffix));
    }
    let unflushed = Devices {
        suffix: (size, false),
        ..SOUND
    };
    let found = made(&rt, WORDS, None, FASTQ, unflushed);
    assert_eq!(&rt; found.answer, Err(PackReadsError::WriteSuffix));
    assert!(&rt; found.prefix.is_empty());
}

#[test]
fn a_prefix_file_that_cannot_be_written_has_a_front(rt: HostRuntime) {
    let sound = whole(&rt);
    let size = sound.prefix.len();
    for left in [1, 2, 71, 72, 73, 100, 2000, size] {
        let room = size.saturating_sub(left);
        let devices = Devices {
            prefix: (room, true),
            ..SOUND
        };
        let found = made(&rt, WORDS, None, FASTQ, devices);
        assert_eq!(&rt; found.answer, Err(PackReadsError::WritePrefix));
        assert!(&rt; found.prefix.len() == room && sound.prefix.starts_with(&found.prefix));
        assert_eq!(&rt; found.suffix.as_slice(), sound.suffix.as_slice());
    }
    let unflushed = Devices {
        prefix: (size, false),
        ..SOUND
    };
    let found = made(&rt, WORDS, None, FASTQ, unflushed);
    assert_eq!(&rt; found.answer, Err(PackReadsError::WritePrefix));
    assert_eq!(&rt; found.prefix.as_slice(), sound.prefix.as_slice());
}

/// Passes whichever one allocation is refused: then that is answered, and of the suffix file at most the first marker is out.
#[test]
fn refused_memory_is_answered(rt: HostRuntime) {
    let found = made(&rt, WORDS, None, FASTQ, SOUND);
    match found.answer {
        Ok(rows) => assert_eq!(&rt; rows, 3),
        Err(PackReadsError::Memory) => {
            assert!(&rt; found.prefix.is_empty());
            assert!(&rt; b"KMCS".starts_with(found.suffix.as_slice()));
        }
        Err(error) => {
            assert_eq!(&rt; error, PackReadsError::Count(RunError::Memory));
            assert!(&rt; found.prefix.is_empty() && found.suffix.is_empty());
        }
    }
}
