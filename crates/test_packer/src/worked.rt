//! Databases worked by hand, and as KMC 3 writes them.
use crate::devices::{SOUND, Written, made};
use crate::texts::{FASTQ, text_of};
use std::alloc::{AllocError, Global};
use std::process::Abort;

/// A prefix file: the entries of the table, and the first ten numbers of the header.
fn prefix_file(alloc: Global, table: &[u64], header: [u32; 10]) -> Result<Vec<u8>, AllocError> {
    let mut bytes = b"KMCP".to_vec(alloc)?;
    for entry in table {
        bytes.extend_from_slice(&entry.to_le_bytes())?;
    }
    for number in &header {
        bytes.extend_from_slice(&number.to_le_bytes())?;
    }
    bytes.extend_from_slice(&[0; 24])?;
    bytes.extend_from_slice(b"\x40\0\0\0KMCP")?;
    Ok(bytes)
}

/// Passes where these are the rows and files that were made.
fn is_made(
    rt: &(impl Abort + Alloc<A = Global>),
    found: &Written,
    table: &[u64],
    header: [u32; 10],
    suffix: &[u8],
) {
    let prefix = prefix_file(rt.alloc(), table, header).expect(rt, "memory");
    assert_eq!(rt; found.answer, Ok(u64::from(header[6])));
    assert_eq!(rt; found.prefix.as_slice(), prefix.as_slice());
    assert_eq!(rt; found.suffix.as_slice(), suffix);
}

/// The header of three words, counted at least once and shown up to 1000, of so many symbols.
fn header_of_three(k: u32) -> [u32; 10] {
    [k, 0, 2, 1, 1, 1_000_000_000, 3, 0, 0, 0]
}

#[test]
fn words_of_five_symbols(rt: HostRuntime) {
    let reads = [("ACGTA", 1), ("CGTAA", 2), ("GTAAC", 302)];
    let text = text_of(rt.alloc(), &reads).expect(&rt, "memory");
    let found = made(&rt, "-fa -k5 -ci1 -cs1000", Some(1), &text, SOUND);
    is_made(
        &rt,
        &found,
        &[0, 1, 2, 3],
        header_of_three(5),
        b"KMCS\x6c\x01\0\xb0\x02\0\xc1\x2e\x01KMCS",
    );
}

#[test]
fn words_of_25_symbols(rt: HostRuntime) {
    let reads = [
        ("ACGTAACCATTGCATGGACTTAGCA", 1),
        ("ATGCTAAGTCCATGCAATGGTTACG", 2),
        ("CATGCTAAGTCCATGCAATGGTTAC", 302),
    ];
    let text = text_of(rt.alloc(), &reads).expect(&rt, "memory");
    let found = made(&rt, "-fa -k25 -ci1 -cs1000", Some(1), &text, SOUND);
    is_made(
        &rt,
        &found,
        &[0, 2, 3, 3],
        header_of_three(25),
        b"KMCS\x6c\x14\xf9\x3a\x1f\x24\x01\0\xe7\x0b\x53\x90\xeb\xc6\x02\0\x39\xc2\xd4\xe4\x3a\xf1\x2e\x01KMCS",
    );
}

#[test]
fn each_strand_by_itself(rt: HostRuntime) {
    let found = made(&rt, "-k1 -ci1 -b -cx9", None, FASTQ, SOUND);
    let header = [1, 0, 1, 1, 1, 9, 4, 0, 1, 0];
    is_made(
        &rt,
        &found,
        &[0, 1, 2, 3],
        header,
        b"KMCS\x02\x02\x02\x02KMCS",
    );
}

#[test]
fn no_word_within_the_limits(rt: HostRuntime) {
    let header = [1, 0, 1, 1, 5, 255, 0, 0, 0, 0];
    for text in [FASTQ, b"".as_slice()] {
        let found = made(&rt, "-k1 -ci5 -cx255", None, text, SOUND);
        is_made(&rt, &found, &[0, 0, 0, 0], header, b"KMCSKMCS");
    }
}

#[test]
fn great_limits_are_told_as_they_fit(rt: HostRuntime) {
    let found = made(&rt, "-k1 -ci5000000000 -cx4294967297", None, FASTQ, SOUND);
    let header = [1, 0, 1, 1, u32::MAX, 1, 0, 0, 0, 1];
    is_made(&rt, &found, &[0, 0, 0, 0], header, b"KMCSKMCS");
}
