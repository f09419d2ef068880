//! Words looked up in databases that stand in memory: worked ones, and others that were packed.
use crate::devices::{SOUND, counts_of, packed};
use crate::files::prefix_file;
use crate::searches::{ALL_SOUND, searched};
use kmc_base::Strands;
use kmc_database::PackOptions;
use std::alloc::Global;
use std::process::Abort;
use std::test::Fail;

/// Passes where these words have these lines in the database of these files.
fn answers(
    rt: &(impl Abort + Alloc<A = Global>),
    prefix: &[u8],
    suffix: &[u8],
    words: &str,
    lines: &str,
) -> Result<(), Fail> {
    let found = searched(rt, prefix, suffix, words, ALL_SOUND)?;
    assert_eq!(rt; found.answer.is_ok(), true);
    assert_eq!(rt; found.text.as_slice(), lines.as_bytes());
    Ok(())
}

/// Passes where these words have these lines in the database of this dump.
fn answers_packed(
    rt: &(impl Abort + Alloc<A = Global>),
    dump: &'static str,
    options: &PackOptions,
    words: &str,
    lines: &str,
) -> Result<(), Fail> {
    let written = packed(rt, dump, options, SOUND)?;
    let prefix = written.prefix.as_slice();
    answers(rt, prefix, written.suffix.as_slice(), words, lines)
}

#[test]
fn words_of_a_worked_database_are_found(rt: HostRuntime) -> Result<(), Fail> {
    let table = [(0, 1), (1, 1), (2, 1), (3, 1)];
    let header = [5, 0, 2, 1, 1, 1_000_000_000, 3, 0, 0, 0];
    let prefix = prefix_file(rt.alloc(), &table, header)?;
    answers(
        &rt,
        prefix.as_slice(),
        b"KMCS\x6c\x01\0\xb0\x02\0\xc1\x2e\x01KMCS",
        "CGTAA\nACGTA\nTACGT\nGTAAC\nGTTAC\nAAAAA\nTTTTT\nACGTC\nTTACG\nACGTA\n",
        "CGTAA\t2\nACGTA\t1\nTACGT\t1\nGTAAC\t302\nGTTAC\t302\nAAAAA\t0\nTTTTT\t0\nACGTC\t0\nTTACG\t2\nACGTA\t1\n",
    )
}

#[test]
fn long_words_of_a_worked_database_are_found(rt: HostRuntime) -> Result<(), Fail> {
    let table = [(0, 1), (2, 1), (3, 2)];
    let header = [25, 0, 2, 1, 1, 1_000_000_000, 3, 0, 0, 0];
    let prefix = prefix_file(rt.alloc(), &table, header)?;
    answers(
        &rt,
        prefix.as_slice(),
        b"KMCS\x6c\x14\xf9\x3a\x1f\x24\x01\0\xe7\x0b\x53\x90\xeb\xc6\x02\0\x39\xc2\xd4\xe4\x3a\xf1\x2e\x01KMCS",
        "CATGCTAAGTCCATGCAATGGTTAC\nGTAACCATTGCATGGACTTAGCATG\nATGCTAAGTCCATGCAATGGTTACG\nATGCTAAGTCCATGCAATGGTTACA\n",
        "CATGCTAAGTCCATGCAATGGTTAC\t302\nGTAACCATTGCATGGACTTAGCATG\t302\nATGCTAAGTCCATGCAATGGTTACG\t2\nATGCTAAGTCCATGCAATGGTTACA\t0\n",
    )
}

#[test]
fn short_words_and_none_are_found(rt: HostRuntime) -> Result<(), Fail> {
    let words = prefix_file(
        rt.alloc(),
        &[(0, 1), (1, 3)],
        [1, 0, 1, 1, 2, 200, 2, 0, 1, 0],
    )?;
    answers(
        &rt,
        words.as_slice(),
        b"KMCS\x07\xffKMCS",
        "A\nC\nG\nT\n",
        "A\t7\nC\t0\nG\t0\nT\t255\n",
    )?;
    let none = prefix_file(rt.alloc(), &[(0, 4)], [13, 0, 1, 1, 2, 0, 0, 0, 0, 256])?;
    answers(
        &rt,
        none.as_slice(),
        b"KMCSKMCS",
        "ACGTACGTACGTA\n",
        "ACGTACGTACGTA\t0\n",
    )?;
    answers(&rt, none.as_slice(), b"KMCSKMCS", "", "")
}

#[test]
fn counts_of_each_width_are_found(rt: HostRuntime) -> Result<(), Fail> {
    let apart = PackOptions {
        strands: Strands::Apart,
        ..counts_of(4, 1, 1 << 32)
    };
    answers_packed(
        &rt,
        "AACCA\t4294967295\nAACCC\t1\nTTTTT\t16777216\n",
        &apart,
        "TTTTT\nAACCA\nAACCC\nTGGTT\nAAAAA\n",
        "TTTTT\t16777216\nAACCA\t4294967295\nAACCC\t1\nTGGTT\t0\nAAAAA\t0\n",
    )?;
    answers_packed(
        &rt,
        "AAC\t65536\nACG\t16777215\nCCC\t1\n",
        &counts_of(3, 1, 1 << 24),
        "GGG\nGTT\nCGT\nAAA\n",
        "GGG\t1\nGTT\t65536\nCGT\t16777215\nAAA\t0\n",
    )
}
