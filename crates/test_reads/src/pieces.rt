//! Reads that are longer than a piece may be: they are counted as whole reads.
ghost use Rattle.std.specs.Prelude.{◌≡◌, IfOk};
ghost use Rattle.kmc_options.specs.Shape.{shape_of};

use crate::given::settings;
use kmc_count::count_direct;
use kmc_device::Counted;
use kmc_dump::{write_bins, write_dump};
use kmc_options::Params;
use kmc_partqueue::NoGate;
use kmc_reads::{Format, InputError, read_all};
use kmc_stage_one::bins_of_input;
use kmc_store::Bins;
use kmc_tool::{round_settings, stage_two};
use std::alloc::{AllocError, Global};
use std::process::Abort;
use std::sync::Wait;
use std::test::Fail;
use std::thread::Threads;
use test_support::{BlockReader, Dice};

/// The bins of a text that comes so many bytes a read, its reads dealt as pieces of at most `limit` symbols.
fn bins_in_pieces<R: Abort + Threads + Wait + Sync>(
    rt: &R,
    alloc: Global,
    text: &[u8],
    block: usize,
    params: &Params,
    limit: usize,
) -> Result<Bins, InputError>
    ensures { IfOk result (λ bins. bins.shape ≡ shape_of params.now) }
{
    assert!(rt; 1 <= block && params.k <= limit);
    let mut reader = Counted::new(BlockReader::new(text, block, 0));
    let settings = round_settings(params);
    bins_of_input(rt, alloc, &mut reader, &settings, &NoGate, 1 << 32, limit)
}

/// The dump of a text that comes so many bytes a read, its reads dealt as pieces of at most `limit` symbols.
fn dump_in_pieces<R: Abort + Threads + Wait + Sync>(
    rt: &R,
    alloc: Global,
    text: &[u8],
    block: usize,
    params: &Params,
    limit: usize,
) -> Result<Vec<u8>, Fail> {
    let bins = bins_in_pieces(rt, alloc, text, block, params, limit)?;
    let lists = stage_two(rt, alloc, bins, params)?;
    let mut writer = Counted::new(Vec::new(alloc));
    match write_bins(rt, alloc, &mut writer, &lists, params.k, params.counters) {
        Ok(_) => Ok(writer.into_inner()),
        Err(_) => Err(Fail::from("not written")),
    }
}

/// The dump of the direct count of the whole reads.
fn dump_of_whole(
    rt: &impl Abort,
    alloc: Global,
    text: &[u8],
    params: &Params,
) -> Result<Vec<u8>, Fail> {
    let reads = read_all(alloc, text, params.format)?;
    let pairs = count_direct(alloc, &reads, params.k, params.strands, &params.limits)?;
    let mut writer = Counted::new(Vec::new(alloc));
    assert!(rt; write_dump(&mut writer, &pairs).is_ok());
    Ok(writer.into_inner())
}

/// A record of so many symbols, of which few are no bases.
fn push_record(text: &mut Vec<u8>, dice: &mut Dice, symbols: usize) -> Result<(), AllocError> {
    let letters = b"ACGTACGTACGTACGTACGTacgtN";
    text.extend_from_slice(b">r\n")?;
    for i in 0..symbols {
        if i % 30 == 29 {
            text.push(b'\n')?;
        }
        text.push(letters[dice.roll(25)])?;
    }
    text.push(b'\n')?;
    Ok(())
}

#[test]
fn a_word_at_the_seam_of_two_pieces_is_counted_once(rt: HostRuntime) -> Result<(), Fail> {
    let params = settings(&rt, Format::Fasta, 4, 2, 1);
    for limit in [4usize, 5, 6, 7, 8, 100] {
        let dump = dump_in_pieces(&rt, rt.alloc(), b">r\nACGTACGT\n", 7, &params, limit)?;
        assert_eq!(rt; dump.as_slice(), &b"ACGT\t2\nCGTA\t2\nGTAC\t1\n"[..]);
    }
    Ok(())
}

/// Asserts that the dump of a text in pieces is that of its whole reads, and tells its length.
fn assert_dump<R: Abort + Threads + Wait + Sync>(
    rt: &R,
    alloc: Global,
    text: &[u8],
    block: usize,
    params: &Params,
    limit: usize,
) -> Result<usize, Fail> {
    let want = dump_of_whole(rt, alloc, text, params)?;
    let dump = dump_in_pieces(rt, alloc, text, block, params, limit)?;
    assert_eq!(rt;
        dump.as_slice(),
        want.as_slice(),
        "{limit}, k {}, {} splitters, rounds of {}",
        params.k,
        params.splitters,
        params.batch
    );
    Ok(want.len())
}

/// A text of two records of so many symbols.
fn two_records(alloc: Global, dice: &mut Dice, symbols: usize) -> Result<Vec<u8>, AllocError> {
    let mut text = Vec::new(alloc);
    push_record(&mut text, dice, symbols)?;
    push_record(&mut text, dice, symbols)?;
    Ok(text)
}

#[test]
fn reads_about_as_long_as_a_piece_are_counted_whole(rt: HostRuntime) -> Result<(), Fail> {
    let mut dice = Dice { state: 3 };
    let params = settings(&rt, Format::Fasta, 6, 3, 2);
    let limit: usize = 20;
    for symbols in [
        5usize,
        6,
        limit - 1,
        limit,
        limit + 1,
        2 * limit - 6,
        2 * limit - 5,
        2 * limit - 4,
        200,
    ] {
        let text = two_records(rt.alloc(), &mut dice, symbols)?;
        assert_dump(&rt, rt.alloc(), &text, 1000, &params, limit)?;
    }
    Ok(())
}

/// A text of up to four records.
fn some_text(alloc: Global, dice: &mut Dice) -> Result<Vec<u8>, AllocError> {
    let mut text = Vec::new(alloc);
    for _ in 0..dice.roll(5) {
        let symbols = dice.roll(150);
        push_record(&mut text, dice, symbols)?;
    }
    Ok(text)
}

/// Asserts that the dumps of a random text in pieces are those of its whole reads, and tells how long they are in all.
fn assert_random_dumps<R: Abort + Threads + Wait + Sync>(
    rt: &R,
    alloc: Global,
    dice: &mut Dice,
) -> Result<usize, Fail> {
    let text = some_text(alloc, dice)?;
    let k = 1 + dice.roll(12);
    let mut listed: usize = 0;
    for (sp, batch, block) in [
        (1usize, 1usize, 1usize),
        (1, 1, 1000),
        (3, 2, 7),
        (3, 2, 1000),
    ] {
        let params = settings(rt, Format::Fasta, k, sp, batch);
        let limit = k + dice.roll(30);
        let length = assert_dump(rt, alloc, &text, block, &params, limit)?;
        listed = listed.saturating_add(length);
    }
    Ok(listed)
}

#[test]
fn random_texts_in_pieces_are_counted_as_whole_reads(rt: HostRuntime) -> Result<(), Fail> {
    let mut dice = Dice { state: 17 };
    let mut listed: usize = 0;
    for _ in 0..20 {
        listed = listed.saturating_add(assert_random_dumps(&rt, rt.alloc(), &mut dice)?);
    }
    // the texts are no idle ones
    assert!(rt; listed > 10000, "{listed}");
    Ok(())
}
