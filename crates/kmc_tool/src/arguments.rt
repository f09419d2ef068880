//! The program: from its arguments to the dump and the exit status.
ghost use Rattle.std.specs.Prelude.{◌≡◌, ◌≢◌, ◌+◌, ◌^◌, ◌<◌, ◌≤◌, ◌⊎◌, List, map, string_bytes};
ghost use Rattle.std.specs.Process.{exit_status};
ghost use Rattle.kmc_options.specs.Words.{Word};
ghost use Rattle.kmc_options.specs.Glued.{long_forms};
ghost use Rattle.kmc_options.specs.Options.{Explains};
ghost use Rattle.kmc_tool.specs.Program.{IsCount, IsDone, LeavesFront};

use crate::running::run;
use kmc_device::Counted;
use kmc_options::{Fault, ParamsError, Program, arguments, ended, settings};
use std::alloc::{AllocError, Global};
use std::io::{Read, Write};
use std::process::ExitCode;
use std::rt::Env;
use std::sync::Wait;
use std::thread::Threads;

/// Counts the reads of the reader by the settings that the arguments give, and writes their dump. The answer is its
/// number of lines. Where the arguments give no settings nothing is read; after every fault but a failed write nothing
/// was written.
pub fn count<T: Threads + Wait + Sync, R: Read, W: Write>(
    rt: &T,
    alloc: Global,
    argv: Vec<String>,
    reader: &mut Counted<R>,
    writer: &mut Counted<W>,
) -> Result<u64, Fault>
    requires reads { reader.old.reads + 2 ^ 32 < 2 ^ 64 }
    ensures { IsCount (long_forms (map string_bytes argv.items)) R.remaining W.contents reader.old reader.new writer.old writer.new result }
{
    let params = match settings(alloc, Program::Kmc, argv) {
        Ok(params) => params,
        Err(error) => return Err(Fault::Options(error)),
    };
    match run(rt, alloc, reader, writer, &params) {
        Ok(lines) => Ok(lines),
        Err(error) => Err(Fault::Run(error)),
    }
}

/// The program over the words behind its name: counts the reads of the reader by the settings that they give, and writes
/// their dump; a fault is shown in one line on standard error, but for a write to a pipe whose other end is closed, of which
/// the status alone tells. The exit status is 0 where the dump was written and no device failed, 2 where the words are at
/// fault, and else 1; then nothing was written, or a write failed and a front of the dump is out.
pub fn program_of<T: Threads + Wait + Sync + Eprint + Alloc<A = Global>, R: Read, W: Write>(
    rt: &T,
    argv: Vec<String>,
    reader: &mut Counted<R>,
    writer: &mut Counted<W>,
) -> ExitCode
    requires reads { reader.old.reads + 2 ^ 32 < 2 ^ 64 }
    ensures done { exit_status result ≡ 0
        → IsDone (long_forms (map string_bytes argv.items)) R.remaining W.contents reader.old reader.new writer.old writer.new }
    ensures failed { exit_status result ≡ 1 → (writer.new ≡ writer.old)
        ⊎ LeavesFront (long_forms (map string_bytes argv.items)) R.remaining W.contents reader.old reader.new writer.old writer.new }
    ensures misused { exit_status result ≡ 2 → ((e : ParamsError) × (e ≢ ParamsError.Memory)
        × Explains Program.Kmc (long_forms (map string_bytes argv.items)) e)
        × (reader.new ≡ reader.old) × (writer.new ≡ writer.old) }
    ensures statuses { exit_status result ≤ 2 }
{
    match count(rt, rt.alloc(), argv, reader, writer) {
        Ok(_) => ExitCode::from(0),
        Err(fault) => ended(rt, fault, writer.is_pipe_closed()),
    }
}

/// The whole program: [`program_of`] over the process's arguments. Where they cannot be read, they are no usage. No contract says
/// which words the process was given.
pub fn program<T: Threads + Wait + Sync + Env + Eprint + Alloc<A = Global>, R: Read, W: Write>(
    rt: &T,
    reader: &mut Counted<R>,
    writer: &mut Counted<W>,
) -> ExitCode
    requires reads { reader.old.reads + 2 ^ 32 < 2 ^ 64 }
    ensures done { exit_status result ≡ 0 → (words : List Word)
        × IsDone words R.remaining W.contents reader.old reader.new writer.old writer.new }
    ensures failed { exit_status result ≡ 1 → (writer.new ≡ writer.old)
        ⊎ ((words : List Word) × LeavesFront words R.remaining W.contents reader.old reader.new writer.old writer.new) }
    ensures misused { exit_status result ≡ 2 → (reader.new ≡ reader.old)
        × (writer.new ≡ writer.old) }
    ensures statuses { exit_status result ≤ 2 }
{
    match arguments(rt) {
        Ok(Some(argv)) => program_of(rt, argv, reader, writer),
        Ok(None) => ended(rt, Fault::Options(ParamsError::Usage), false),
        Err(AllocError) => ended(rt, Fault::Options(ParamsError::Memory), false),
    }
}
