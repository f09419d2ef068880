//! All that a reader gives, to the files of all slices.
ghost use Rattle.std.specs.Prelude.{◌≡◌, ◌+◌, ◌^◌, ◌<◌, ◌≤◌, length, map, IfOk, OnOk, IfErr};
ghost use Rattle.kmc_stage_one.specs.declared.settings.TheConstants.{PIECE_SYMBOLS};
ghost use Rattle.kmc_slices.specs.Cut.{AreReadCounts, AreWriteCounts, IsCutError, IsCutting, IsLeft, WroteSlices};

use crate::cutting::cut_rounds;
use crate::error::CutError;
use kmc_device::Counted;
use kmc_options::Params;
use kmc_partqueue::{Gate, NoGate};
use kmc_slice_files::{begin_files, end_files};
use kmc_stage_one::{Dealing, MOST_READS, PIECE_SYMBOLS};
use kmc_store::laws::{empty_bins_hold_no_reads, merged_bins_hold_both};
use kmc_tool::round_settings;
use std::alloc::{AllocError, Global};
use std::io::{Read, Write};
use std::sync::Wait;
use std::thread::Threads;

/// A round of a cut is full with so many symbols: two rounds and the records of one are most of its memory.
const ROUND: usize = 1 << 24;

/// The headers, the rounds and the ends: the end of a file is written once all rounds are.
fn cut_files<T: Threads + Wait + Sync, R: Read, W: Write, G: Gate + Sync>(
    rt: &T,
    reader: &mut Counted<R>,
    writers: &mut [Counted<W>],
    counts: &mut [u64],
    dealing: &Dealing<'_, G>,
    max_reads: u64,
) -> Result<(), CutError>
    requires reads { reader.old.reads + max_reads < 2 ^ 64 }
    requires most { max_reads ≤ 2 ^ 32 }
    requires some { 1 ≤ length writers.old }
    requires few { length writers.old < 2 ^ 16 }
    requires counts { length counts.old ≡ length writers.old }
    ensures ok { OnOk result
        (WroteSlices dealing.now.settings.format dealing.now.settings.shape dealing.now.limit
        (length writers.old) (R.remaining reader.old.inner) (R.remaining reader.new.inner)
        (map (λ w. W.contents w.inner) writers.old) (map (λ w. W.contents w.inner) writers.new)) }
    ensures sound { OnOk result ((reader.new.failures ≡ reader.old.failures)
        × (reader.old.reads ≤ reader.new.reads)
        × (reader.new.reads < reader.old.reads + max_reads)) }
    ensures kept { OnOk result
        (map (λ w. w.failures) writers.new ≡ map (λ w. w.failures) writers.old) }
    ensures cause { IfErr result
        (IsCutError dealing.now.settings.format max_reads (R.remaining reader.old.inner)
        (R.remaining reader.new.inner)) }
    ensures read_counts { IfErr result
        (AreReadCounts (reader.old.reads + max_reads) reader.old.reads reader.new.reads
        reader.old.failures reader.new.failures) }
    ensures write_counts { IfErr result
        (AreWriteCounts (map (λ w. w.failures) writers.old) (map (λ w. w.failures) writers.new)) }
    ensures left { IfErr result
        (IsLeft dealing.now.settings.format dealing.now.settings.shape dealing.now.limit
        (length writers.old) (R.remaining reader.old.inner) (R.remaining reader.new.inner)
        (map (λ w. W.contents w.inner) writers.old) (map (λ w. W.contents w.inner) writers.new)) }
{
    merged_bins_hold_both();
    empty_bins_hold_no_reads();
    let shape = dealing.settings.shape;
    match begin_files(writers, counts, shape) {
        Ok(()) => {}
        Err(s) => return Err(CutError::Write(s)),
    }
    cut_rounds(rt, reader, writers, counts, dealing, max_reads)?;
    match end_files(writers, counts) {
        Ok(()) => Ok(()),
        Err(s) => Err(CutError::Write(s)),
    }
}

/// As many noughts.
fn noughts(alloc: Global, many: usize) -> Result<Vec<u64>, AllocError>
    ensures { IfOk result (λ v. length v.items ≡ many) }
{
    let mut out = Vec::new(alloc);
    for _ in 0..many {
        out.push(0)?;
    }
    Ok(out)
}

/// All that the reader gives, cut to the files of slices, of which each writer gets one: writer s the file of slice s of as
/// many slices as there are writers, 1 to 65535. The bins of the files, taken together, hold the reads of the text, long ones
/// as pieces of at most [`PIECE_SYMBOLS`] symbols. In memory are, whatever the input's length, two rounds of reads and the
/// bins of one. A round is `batch` reads for each splitter: with a greater `batch` there are fewer and longer frames. Strands and
/// limits play no part.
///
/// A faulty text is refused once its first faulty line was read, and an input of which 2^32 reads give bytes as too long. A
/// refusal leaves files without an end, which are taken for no slice; but where the end of a file is not written or its
/// flush fails, the files before it are whole.
pub fn cut_slices<T: Threads + Wait + Sync, R: Read, W: Write>(
    rt: &T,
    alloc: Global,
    reader: &mut Counted<R>,
    writers: &mut [Counted<W>],
    params: &Params,
) -> Result<(), CutError>
    requires reads { reader.old.reads + 2 ^ 32 < 2 ^ 64 }
    requires some { 1 ≤ length writers.old }
    requires few { length writers.old < 2 ^ 16 }
    ensures { IsCutting R.remaining W.contents params.now PIECE_SYMBOLS (2 ^ 32) reader.old reader.new writers.old writers.new result }
{
    cut_slices_with(rt, alloc, reader, writers, params, &NoGate, MOST_READS)
}

/// [`cut_slices`] of a reader of which fewer than `max_reads` reads may give bytes. The gate is told of the points that the parts
/// of the reads pass. Tests give a gate and a small number.
pub fn cut_slices_with<T: Threads + Wait + Sync, R: Read, W: Write, G: Gate + Sync>(
    rt: &T,
    alloc: Global,
    reader: &mut Counted<R>,
    writers: &mut [Counted<W>],
    params: &Params,
    gate: &G,
    max_reads: u64,
) -> Result<(), CutError>
    requires reads { reader.old.reads + max_reads < 2 ^ 64 }
    requires most { max_reads ≤ 2 ^ 32 }
    requires some { 1 ≤ length writers.old }
    requires few { length writers.old < 2 ^ 16 }
    ensures { IsCutting R.remaining W.contents params.now PIECE_SYMBOLS max_reads reader.old reader.new writers.old writers.new result }
{
    let mut counts = noughts(alloc, writers.len())?;
    let dealing = Dealing {
        alloc,
        settings: round_settings(params),
        limit: PIECE_SYMBOLS,
        symbols: ROUND,
        gate,
    };
    cut_files(
        rt,
        reader,
        writers,
        counts.as_mut_slice(),
        &dealing,
        max_reads,
    )
}
