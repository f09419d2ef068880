//! The programs over files in the folder where tests run: the names of what is cut, what is written over, and which files are listed.
//! Each test has names of its own, and takes its files away.
use crate::failing::{CUT, TEXT};
use crate::words::words_of;
use kmc_device::Counted;
use kmc_slice_files::{CreateFault, create_files};
use kmc_slices::{cut_words, list_words};
use std::alloc::Global;
use std::fs;
use std::process::{Abort, ExitCode};
use std::rt::Files;
use std::sync::Wait;
use std::thread::Threads;
use test_support::BlockReader;

/// The file of slice 1 of 2 of the text, worked by another program: bin 1 has the record of ACCCGAACCGT.
const OTHER: [u8; 64] = [
    0x4b, 0x4d, 0x43, 0x53, 0x4c, 0x49, 0x43, 0x45, 0x01, 0x00, 0x00, 0x00, 0x0b, 0x05, 0x07, 0x00,
    0x02, 0x00, 0x01, 0x00, 0x4b, 0x6f, 0xe5, 0x5c, 0xd2, 0xd4, 0xb7, 0xdb, 0x01, 0x00, 0x00, 0x00,
    0x04, 0x00, 0x00, 0x00, 0xfc, 0x86, 0xa3, 0x80, 0x82, 0xd7, 0xd3, 0xd5, 0x00, 0x15, 0x81, 0x6c,
    0xff, 0xff, 0x00, 0x00, 0x00, 0x00, 0x00, 0x00, 0x01, 0x00, 0x00, 0x00, 0x00, 0x00, 0x00, 0x00,
];

/// The exit status of a cut of the text, into two slices and by these words.
fn cut<R: Abort + Threads + Wait + Sync + Files + Eprint + Alloc<A = Global>>(
    rt: &R,
    words: &str,
) -> ExitCode {
    let alloc = rt.alloc();
    let mut all = words_of(alloc, "-fa -k11 -p5 -n7 -slices2").expect(rt, "memory");
    let mut more = words_of(alloc, words).expect(rt, "memory");
    all.append(&mut more).expect(rt, "memory");
    let mut reader = Counted::new(BlockReader::new(TEXT, 100, 0));
    let mut writer = Counted::new(Vec::new(alloc));
    let status = cut_words(rt, all, &mut reader, &mut writer);
    assert!(rt; writer.into_inner().is_empty());
    status
}

/// Asserts that a list by these words ends with this status, and what it writes.
fn assert_lists<R: Abort + Threads + Wait + Sync + Files + Eprint + Alloc<A = Global>>(
    rt: &R,
    words: &str,
    status: u8,
    dump: &[u8],
) {
    let alloc = rt.alloc();
    let all = words_of(alloc, words).expect(rt, "memory");
    let mut writer = Counted::new(Vec::new(alloc));
    let ended = list_words(rt, all, &mut writer);
    assert!(rt; ended == ExitCode::from(status), "{words}");
    assert_eq!(rt; writer.into_inner().as_slice(), dump, "{words}");
}

/// Asserts that the file has these bytes.
fn assert_has(rt: &(impl Abort + Files + Alloc<A = Global>), name: &str, bytes: &[u8]) {
    let found = fs::read(rt, name).expect(rt, name);
    assert_eq!(rt; found.as_slice(), bytes, "{name}");
}

/// Takes away the files that are there.
fn take_away(rt: &impl Files, names: &[&str]) {
    for name in names {
        let _ = fs::remove_file(rt, *name);
    }
}

#[test]
fn a_cut_makes_the_files_of_its_words(rt: HostRuntime) {
    let names = ["made.0", "made.1", "made.2"];
    take_away(&rt, &names);
    assert!(rt; cut(&rt, "made") == ExitCode::from(0));
    assert_has(&rt, "made.0", &CUT);
    assert_has(&rt, "made.1", &OTHER);
    assert!(rt; fs::read(&rt, "made.2").is_err());
    take_away(&rt, &names);
}

#[test]
fn a_file_that_is_there_is_kept_but_by_force(rt: HostRuntime) {
    let names = ["kept.0", "kept.1"];
    take_away(&rt, &names);
    fs::write(&rt, "kept.1", "mine").expect(&rt, "a file");
    assert!(rt; cut(&rt, "kept") == ExitCode::from(1));
    assert_has(&rt, "kept.1", b"mine");
    take_away(&rt, &["kept.0"]);
    let fault = create_files(&rt, "kept", 2, false).err();
    assert_eq!(rt; fault, Some(CreateFault::File(1)));
    assert_has(&rt, "kept.1", b"mine");
    assert!(rt; cut(&rt, "--force kept") == ExitCode::from(0));
    assert_has(&rt, "kept.0", &CUT);
    assert_has(&rt, "kept.1", &OTHER);
    take_away(&rt, &names);
}

/// The words of the two slices are those that KMC 3 lists of the text.
#[test]
fn the_files_of_the_words_are_listed(rt: HostRuntime) {
    let names = ["listed.0", "listed.1"];
    take_away(&rt, &names);
    assert!(rt; cut(&rt, "listed") == ExitCode::from(0));
    let first = b"AACCCGAACCG\t1\nGAACCCGAACC\t1\nGGAACCCGAAC\t1\n";
    assert_lists(&rt, "-ci1 listed.0", 0, first);
    assert_lists(&rt, "-ci1 listed.1", 0, b"ACCCGAACCGT\t1\n");
    assert_lists(&rt, "listed.1 listed.1", 0, b"ACCCGAACCGT\t2\n");
    assert_lists(&rt, "-ci1 listed.0 listed.1", 1, b"");
    assert_lists(&rt, "-ci1 listed.1 listed.none", 1, b"");
    take_away(&rt, &names);
}
