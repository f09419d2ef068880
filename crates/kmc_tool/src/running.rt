//! A run: from the bytes of a reader to the dump on a writer.
ghost use Rattle.std.specs.Prelude.{◌≡◌, ◌+◌, ◌^◌, ◌<◌};
ghost use Rattle.kmc_tool.specs.Errors.{write_error};
ghost use Rattle.kmc_tool.specs.Run.{IsRunAnswer};

use crate::input::count_input_with;
use kmc_device::Counted;
use kmc_dump::{DumpError, write_bins};
use kmc_options::{Params, RunError};
use kmc_partqueue::{Gate, NoGate};
use kmc_reads::laws::memory_is_no_fault;
use kmc_stage_one::MOST_READS;
use std::alloc::Global;
use std::io::{Read, Write};
use std::sync::Wait;
use std::thread::Threads;

/// Why a run gave up whose dump was not written.
fn told(error: DumpError) -> RunError
    ensures { result ≡ write_error error }
{
    match error {
        DumpError::Memory => RunError::Memory,
        DumpError::Write => RunError::Write,
    }
}

/// Reads all that the reader gives, and writes the dump of its direct count and nothing else. Nothing is
/// written before all was read and counted, so after every refusal but `Write` nothing was written; a faulty text is
/// refused once its first faulty line was read. The answer is the number of lines. The words are counted by way of bins.
pub fn run<T: Threads + Wait + Sync, R: Read, W: Write>(
    rt: &T,
    alloc: Global,
    reader: &mut Counted<R>,
    writer: &mut Counted<W>,
    params: &Params,
) -> Result<u64, RunError>
    requires reads { reader.old.reads + 2 ^ 32 < 2 ^ 64 }
    ensures { IsRunAnswer R.remaining W.contents params.now reader.old reader.new writer.old writer.new result }
{
    run_with_gate(rt, alloc, reader, writer, params, &NoGate)
}

/// [`run`] with a gate that is told of the points that the parts pass. Tests hold a worker there.
pub fn run_with_gate<T: Threads + Wait + Sync, R: Read, W: Write, G: Gate + Sync>(
    rt: &T,
    alloc: Global,
    reader: &mut Counted<R>,
    writer: &mut Counted<W>,
    params: &Params,
    gate: &G,
) -> Result<u64, RunError>
    requires reads { reader.old.reads + 2 ^ 32 < 2 ^ 64 }
    ensures { IsRunAnswer R.remaining W.contents params.now reader.old reader.new writer.old writer.new result }
{
    memory_is_no_fault();
    let lists = count_input_with(rt, alloc, reader, params, gate, MOST_READS)?;
    match write_bins(rt, alloc, writer, &lists, params.k, params.counters) {
        Ok(lines) => Ok(lines),
        Err(error) => Err(told(error)),
    }
}
