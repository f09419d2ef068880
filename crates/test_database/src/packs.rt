//! Dumps packed, byte for byte: worked ones, and others as a model program packs them whose databases KMC 3 reads.
use crate::devices::{SOUND, counts_of, packed};
use crate::files::prefix_file;
use kmc_base::Strands;
use kmc_database::PackOptions;
use std::alloc::Global;
use std::process::Abort;
use std::test::Fail;

/// Passes where the text is packed to these files.
fn packs(
    rt: &(impl Abort + Alloc<A = Global>),
    text: &'static str,
    options: &PackOptions,
    table: &[(u64, u64)],
    header: [u32; 10],
    suffix: &[u8],
) -> Result<(), Fail> {
    let written = packed(rt, text, options, SOUND)?;
    assert_eq!(rt; written.answer, Ok(u64::from(header[6])));
    let prefix = prefix_file(rt.alloc(), table, header)?;
    assert_eq!(rt; written.prefix.as_slice(), prefix.as_slice());
    assert_eq!(rt; written.suffix.as_slice(), suffix);
    Ok(())
}

/// The same with a first part of so many symbols.
fn with_prefix(options: PackOptions, prefix: usize) -> PackOptions {
    PackOptions {
        prefix: Some(prefix),
        ..options
    }
}

#[test]
fn a_worked_database_of_5_symbols(rt: HostRuntime) -> Result<(), Fail> {
    packs(
        &rt,
        "ACGTA\t1\nCGTAA\t2\nGTAAC\t302\n",
        &with_prefix(counts_of(2, 1, 1_000_000_000), 1),
        &[(0, 1), (1, 1), (2, 1), (3, 1)],
        [5, 0, 2, 1, 1, 1_000_000_000, 3, 0, 0, 0],
        b"KMCS\x6c\x01\0\xb0\x02\0\xc1\x2e\x01KMCS",
    )
}

#[test]
fn a_worked_database_of_25_symbols(rt: HostRuntime) -> Result<(), Fail> {
    packs(
        &rt,
        "ACGTAACCATTGCATGGACTTAGCA\t1\nATGCTAAGTCCATGCAATGGTTACG\t2\nCATGCTAAGTCCATGCAATGGTTAC\t302\n",
        &with_prefix(counts_of(2, 1, 1_000_000_000), 1),
        &[(0, 1), (2, 1), (3, 2)],
        [25, 0, 2, 1, 1, 1_000_000_000, 3, 0, 0, 0],
        b"KMCS\x6c\x14\xf9\x3a\x1f\x24\x01\0\xe7\x0b\x53\x90\xeb\xc6\x02\0\x39\xc2\xd4\xe4\x3a\xf1\x2e\x01KMCS",
    )
}

#[test]
fn short_words_are_first_parts(rt: HostRuntime) -> Result<(), Fail> {
    packs(
        &rt,
        "A\t7\nT\t255\n",
        &counts_of(1, 2, 200),
        &[(0, 1), (1, 3)],
        [1, 0, 1, 1, 2, 200, 2, 0, 0, 0],
        b"KMCS\x07\xffKMCS",
    )?;
    packs(
        &rt,
        "AC\t7\nGG\t300\n",
        &counts_of(2, 2, 1_000_000_000),
        &[(0, 2), (1, 9), (2, 5)],
        [2, 0, 2, 2, 2, 1_000_000_000, 2, 0, 0, 0],
        b"KMCS\x07\0\x2c\x01KMCS",
    )?;
    packs(
        &rt,
        "AAAA\t1\nACGT\t65536\nTTTT\t16777215\n",
        &counts_of(3, 1, 1_000_000_000),
        &[(0, 1), (1, 27), (2, 228)],
        [4, 0, 3, 4, 1, 1_000_000_000, 3, 0, 0, 0],
        b"KMCS\x01\0\0\0\0\x01\xff\xff\xffKMCS",
    )?;
    packs(
        &rt,
        "AAAAA\t1\nACGTT\t4294967295\n",
        &counts_of(4, 1, 1_000_000_000),
        &[(0, 1), (1, 111), (2, 912)],
        [5, 0, 4, 5, 1, 1_000_000_000, 2, 0, 0, 0],
        b"KMCS\x01\0\0\0\xff\xff\xff\xffKMCS",
    )
}

#[test]
fn first_parts_of_7_and_8_symbols(rt: HostRuntime) -> Result<(), Fail> {
    packs(
        &rt,
        "AAAAAAAAAAAAAAAAAAAAAAAAAAAAAAA\t9\nACGTACGTACGTACGTACGTACGTACGTGGA\t10\nTTTTTTTTTTTTTTTTTTTTTTTTTTTTTTT\t11\n",
        &counts_of(1, 2, 255),
        &[(0, 1), (1, 1734), (2, 14649)],
        [31, 0, 1, 7, 2, 255, 3, 0, 0, 0],
        b"KMCS\0\0\0\0\0\0\x09\xc6\xc6\xc6\xc6\xc6\xe8\x0a\xff\xff\xff\xff\xff\xff\x0bKMCS",
    )?;
    packs(
        &rt,
        "AAAAAAAAAAAAAAAAAAAAAAAAAAAAAAAC\t9\nACGTACGTACGTACGTACGTACGTACGTACGT\t10\n",
        &counts_of(1, 2, 255),
        &[(0, 1), (1, 6939), (2, 58596)],
        [32, 0, 1, 8, 2, 255, 2, 0, 0, 0],
        b"KMCS\0\0\0\0\0\x01\x09\x1b\x1b\x1b\x1b\x1b\x1b\x0aKMCS",
    )
}

#[test]
fn words_beyond_32_symbols(rt: HostRuntime) -> Result<(), Fail> {
    let apart = PackOptions {
        strands: Strands::Apart,
        ..counts_of(2, 2, 1 << 33)
    };
    packs(
        &rt,
        "CCCCCCCCCCCCCCCCCCCCCCCCCCCCCCCCC\t9\nGGGGGGGGGGGGGGGGGGGGGGGGGGGGGGGGT\t65535\n",
        &apart,
        &[(0, 342), (1, 341), (2, 341)],
        [33, 0, 2, 5, 2, 0xffff_ffff, 2, 0, 1, 0],
        b"KMCS\x55\x55\x55\x55\x55\x55\x55\x09\0\xaa\xaa\xaa\xaa\xaa\xaa\xab\xff\xffKMCS",
    )?;
    packs(
        &rt,
        "ACGTACGTACGTACGTACGTACGTACGTACGTACGTACGTACGTACGTACGTACGTACGTACGT\t9
ACGTACGTACGTACGTACGTACGTACGTACGTACGTACGTACGTACGTACGTACGTACGTCATG\t10
TTTTTTTTTTTTTTTTTTTTTTTTTTTTTTTTTTTTTTTTTTTTTTTTTTTTTTTTTTTTTTTT\t16777216\n",
        &with_prefix(counts_of(4, 2, 1 << 40), 4),
        &[(0, 28), (2, 228)],
        [64, 0, 4, 4, 2, 0xffff_ffff, 3, 0, 0, 0],
        b"KMCS\x1b\x1b\x1b\x1b\x1b\x1b\x1b\x1b\x1b\x1b\x1b\x1b\x1b\x1b\x1b\x09\0\0\0\x1b\x1b\x1b\x1b\x1b\x1b\x1b\x1b\x1b\x1b\x1b\x1b\x1b\x1b\x4e\x0a\0\0\0\xff\xff\xff\xff\xff\xff\xff\xff\xff\xff\xff\xff\xff\xff\xff\0\0\0\x01KMCS",
    )
}

#[test]
fn no_words_of_a_length_that_was_asked_for(rt: HostRuntime) -> Result<(), Fail> {
    let of_13 = PackOptions {
        k: Some(13),
        ..with_prefix(counts_of(1, 2, 1 << 40), 1)
    };
    packs(
        &rt,
        "",
        &of_13,
        &[(0, 4)],
        [13, 0, 1, 1, 2, 0, 0, 0, 0, 256],
        b"KMCSKMCS",
    )
}
