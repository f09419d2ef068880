//! From the bytes of a reader to the lists of their dump.
ghost use Rattle.std.specs.Prelude.{◌+◌, ◌^◌, ◌<◌, ◌≤◌};
ghost use Rattle.kmc_tool.specs.Run.{IsCountedInput};

use crate::stages::{round_settings, stage_two};
use kmc_count::laws::pieces_are_counted_as_reads;
use kmc_device::Counted;
use kmc_lists::BinLists;
use kmc_options::Params;
use kmc_partqueue::{Gate, NoGate};
use kmc_reads::InputError;
use kmc_stage_one::{MOST_READS, PIECE_SYMBOLS, bins_of_input};
use kmc_stage_two::laws::{cut_reads_are_counted, held_reads_are_counted};
use std::alloc::Global;
use std::io::Read;
use std::sync::Wait;
use std::thread::Threads;

/// Reads all that the reader gives and counts its reads: lists of bins whose pairs, in the order of the words, are the dump
/// of the direct count. A faulty text is refused once its first faulty line was read.
pub fn count_input<T: Threads + Wait + Sync, R: Read>(
    rt: &T,
    alloc: Global,
    reader: &mut Counted<R>,
    params: &Params,
) -> Result<BinLists, InputError>
    requires reads { reader.old.reads + 2 ^ 32 < 2 ^ 64 }
    ensures { IsCountedInput R.remaining params.now (2 ^ 32) reader.old reader.new result }
{
    count_input_with(rt, alloc, reader, params, &NoGate, MOST_READS)
}

/// [`count_input`] of a reader of which at most `max_reads` reads may give bytes. The gate is told of the points that the
/// parts pass. Tests give a gate and a small number.
pub fn count_input_with<T: Threads + Wait + Sync, R: Read, G: Gate + Sync>(
    rt: &T,
    alloc: Global,
    reader: &mut Counted<R>,
    params: &Params,
    gate: &G,
    max_reads: u64,
) -> Result<BinLists, InputError>
    requires reads { reader.old.reads + max_reads < 2 ^ 64 }
    requires most { max_reads ≤ 2 ^ 32 }
    ensures { IsCountedInput R.remaining params.now max_reads reader.old reader.new result }
{
    held_reads_are_counted();
    cut_reads_are_counted();
    pieces_are_counted_as_reads();
    let settings = round_settings(params);
    let bins = bins_of_input(rt, alloc, reader, &settings, gate, max_reads, PIECE_SYMBOLS)?;
    Ok(stage_two(rt, alloc, bins, params)?)
}
