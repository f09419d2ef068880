//! Databases unpacked: worked ones, byte for byte, and others that were packed.
use crate::databases::{ALL_SOUND, unpacked};
use crate::devices::{SOUND, counts_of, packed};
use crate::files::prefix_file;
use kmc_base::Strands;
use kmc_database::PackOptions;
use std::alloc::Global;
use std::process::Abort;
use std::test::Fail;

/// Passes where the files are unpacked to this text of so many lines.
fn dumps(
    rt: &(impl Abort + Alloc<A = Global>),
    table: &[(u64, u64)],
    header: [u32; 10],
    suffix: &[u8],
    text: &str,
) -> Result<(), Fail> {
    let prefix = prefix_file(rt.alloc(), table, header)?;
    let dumped = unpacked(rt, prefix.as_slice(), suffix, ALL_SOUND)?;
    assert_eq!(rt; dumped.answer, Ok(u64::from(header[6])));
    assert_eq!(rt; dumped.text.as_slice(), text.as_bytes());
    Ok(())
}

#[test]
fn worked_databases_are_read_back(rt: HostRuntime) -> Result<(), Fail> {
    dumps(
        &rt,
        &[(0, 1), (1, 1), (2, 1), (3, 1)],
        [5, 0, 2, 1, 1, 1_000_000_000, 3, 0, 0, 0],
        b"KMCS\x6c\x01\0\xb0\x02\0\xc1\x2e\x01KMCS",
        "ACGTA\t1\nCGTAA\t2\nGTAAC\t302\n",
    )?;
    dumps(
        &rt,
        &[(0, 1), (2, 1), (3, 2)],
        [25, 0, 2, 1, 1, 1_000_000_000, 3, 0, 0, 0],
        b"KMCS\x6c\x14\xf9\x3a\x1f\x24\x01\0\xe7\x0b\x53\x90\xeb\xc6\x02\0\x39\xc2\xd4\xe4\x3a\xf1\x2e\x01KMCS",
        "ACGTAACCATTGCATGGACTTAGCA\t1\nATGCTAAGTCCATGCAATGGTTACG\t2\nCATGCTAAGTCCATGCAATGGTTAC\t302\n",
    )
}

#[test]
fn short_words_stand_in_the_table_alone(rt: HostRuntime) -> Result<(), Fail> {
    dumps(
        &rt,
        &[(0, 1), (1, 3)],
        [1, 0, 1, 1, 2, 200, 2, 0, 0, 0],
        b"KMCS\x07\xffKMCS",
        "A\t7\nT\t255\n",
    )?;
    dumps(
        &rt,
        &[(0, 2), (1, 9), (2, 5)],
        [2, 0, 2, 2, 2, 1_000_000_000, 2, 0, 0, 0],
        b"KMCS\x07\0\x2c\x01KMCS",
        "AC\t7\nGG\t300\n",
    )?;
    dumps(
        &rt,
        &[(0, 64)],
        [3, 0, 1, 3, 2, 255, 1, 0, 1, 0],
        b"KMCS\x09KMCS",
        "TTT\t9\n",
    )?;
    dumps(
        &rt,
        &[(0, 1), (1, 27), (2, 228)],
        [4, 0, 3, 4, 1, 1_000_000_000, 3, 0, 0, 0],
        b"KMCS\x01\0\0\0\0\x01\xff\xff\xffKMCS",
        "AAAA\t1\nACGT\t65536\nTTTT\t16777215\n",
    )?;
    dumps(
        &rt,
        &[(0, 1), (1, 111), (2, 912)],
        [5, 0, 4, 5, 1, 1_000_000_000, 2, 0, 0, 0],
        b"KMCS\x01\0\0\0\xff\xff\xff\xffKMCS",
        "AAAAA\t1\nACGTT\t4294967295\n",
    )
}

#[test]
fn the_longest_words_are_read(rt: HostRuntime) -> Result<(), Fail> {
    dumps(
        &rt,
        &[(0, 28), (2, 228)],
        [64, 0, 4, 4, 2, 0xffff_ffff, 3, 0, 0, 0],
        b"KMCS\x1b\x1b\x1b\x1b\x1b\x1b\x1b\x1b\x1b\x1b\x1b\x1b\x1b\x1b\x1b\x09\0\0\0\x1b\x1b\x1b\x1b\x1b\x1b\x1b\x1b\x1b\x1b\x1b\x1b\x1b\x1b\x4e\x0a\0\0\0\xff\xff\xff\xff\xff\xff\xff\xff\xff\xff\xff\xff\xff\xff\xff\0\0\0\x01KMCS",
        "ACGTACGTACGTACGTACGTACGTACGTACGTACGTACGTACGTACGTACGTACGTACGTACGT\t9
ACGTACGTACGTACGTACGTACGTACGTACGTACGTACGTACGTACGTACGTACGTACGTCATG\t10
TTTTTTTTTTTTTTTTTTTTTTTTTTTTTTTTTTTTTTTTTTTTTTTTTTTTTTTTTTTTTTTT\t16777216\n",
    )
}

#[test]
fn a_database_without_rows_has_no_lines(rt: HostRuntime) -> Result<(), Fail> {
    dumps(
        &rt,
        &[(0, 4)],
        [13, 0, 1, 1, 2, 0, 0, 0, 0, 256],
        b"KMCSKMCS",
        "",
    )
}

/// Passes where the text is packed and then unpacked to itself.
fn comes_back(
    rt: &(impl Abort + Alloc<A = Global>),
    text: &'static str,
    options: &PackOptions,
) -> Result<(), Fail> {
    let written = packed(rt, text, options, SOUND)?;
    let dumped = unpacked(
        rt,
        written.prefix.as_slice(),
        written.suffix.as_slice(),
        ALL_SOUND,
    )?;
    assert_eq!(rt; dumped.answer.ok(), written.answer.ok());
    assert_eq!(rt; dumped.text.as_slice(), text.as_bytes());
    Ok(())
}

#[test]
fn what_is_packed_is_unpacked(rt: HostRuntime) -> Result<(), Fail> {
    let apart = PackOptions {
        strands: Strands::Apart,
        ..counts_of(2, 2, 1 << 33)
    };
    comes_back(&rt, "A\t1\nC\t2\nG\t3\nT\t4\n", &counts_of(1, 1, 255))?;
    comes_back(
        &rt,
        "AAAAAAAAAAAAAAAAAAAAAAAAAAAAAAA\t9\nACGTACGTACGTACGTACGTACGTACGTGGA\t10\nTTTTTTTTTTTTTTTTTTTTTTTTTTTTTTT\t11\n",
        &counts_of(1, 2, 255),
    )?;
    comes_back(
        &rt,
        "AAAAAAAAAAAAAAAAAAAAAAAAAAAAAAAC\t9\nACGTACGTACGTACGTACGTACGTACGTACGT\t10\n",
        &counts_of(3, 2, 255),
    )?;
    comes_back(
        &rt,
        "CCCCCCCCCCCCCCCCCCCCCCCCCCCCCCCCC\t9\nGGGGGGGGGGGGGGGGGGGGGGGGGGGGGGGGT\t65535\n",
        &apart,
    )
}
