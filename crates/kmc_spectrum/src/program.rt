//! The program: from the words of a command line to the spectrum and the exit status.
ghost use Rattle.std.specs.Prelude.{◌≡◌, ◌≢◌, ◌+◌, ◌^◌, ◌<◌, ◌≤◌, ◌⊎◌, map, string_bytes};
ghost use Rattle.std.specs.Process.{exit_status};
ghost use Rattle.kmc_options.specs.Glued.{long_forms};
ghost use Rattle.kmc_options.specs.Options.{Explains};
ghost use Rattle.kmc_spectrum.specs.Program.{IsSpectrumByWords, IsSpectrumDone, LeavesSpectrumFront};

use crate::message::SpectrumMessage;
use crate::running::spectrum;
use kmc_device::Counted;
use kmc_options::{Fault, ParamsError, Program, ended, settings};
use std::alloc::Global;
use std::io::{Read, Write};
use std::process::ExitCode;
use std::sync::Wait;
use std::thread::Threads;

/// [`spectrum`] by the settings that the words give, which are those of `kmc`. Where they give none nothing is read; after every fault but
/// a failed write nothing was written.
pub fn spectrum_by_words<T: Threads + Wait + Sync, R: Read, W: Write>(
    rt: &T,
    alloc: Global,
    argv: Vec<String>,
    reader: &mut Counted<R>,
    writer: &mut Counted<W>,
) -> Result<(), Fault>
    requires reads { reader.old.reads + 2 ^ 32 < 2 ^ 64 }
    ensures { IsSpectrumByWords (long_forms (map string_bytes argv.items)) R.remaining W.contents
        reader.old reader.new writer.old writer.new result }
{
    let params = match settings(alloc, Program::Kmc, argv) {
        Ok(params) => params,
        Err(error) => return Err(Fault::Options(error)),
    };
    match spectrum(rt, alloc, reader, writer, &params) {
        Ok(()) => Ok(()),
        Err(error) => Err(Fault::Run(error)),
    }
}

/// The program over the words behind `spectrum`: writes how many k-mers of the reader's reads have each count, by the settings that they
/// give; a fault is shown in one line on standard error, but for a write to a pipe whose other end is closed, of which the status alone
/// tells. The exit status is 0 where the spectrum was written and no device failed, 2 where the words are at fault, and else 1; then
/// nothing was written, or a write failed and a front of the spectrum is out.
pub fn spectrum_of<T: Threads + Wait + Sync + Eprint + Alloc<A = Global>, R: Read, W: Write>(
    rt: &T,
    argv: Vec<String>,
    reader: &mut Counted<R>,
    writer: &mut Counted<W>,
) -> ExitCode
    requires reads { reader.old.reads + 2 ^ 32 < 2 ^ 64 }
    ensures done { exit_status result ≡ 0
        → IsSpectrumDone (long_forms (map string_bytes argv.items)) R.remaining W.contents reader.old reader.new writer.old writer.new }
    ensures failed { exit_status result ≡ 1 → (writer.new ≡ writer.old) ⊎ LeavesSpectrumFront
        (long_forms (map string_bytes argv.items)) R.remaining W.contents reader.old reader.new writer.old writer.new }
    ensures misused { exit_status result ≡ 2 → ((e : ParamsError) × (e ≢ ParamsError.Memory)
        × Explains Program.Kmc (long_forms (map string_bytes argv.items)) e)
        × (reader.new ≡ reader.old) × (writer.new ≡ writer.old) }
    ensures statuses { exit_status result ≤ 2 }
{
    match spectrum_by_words(rt, rt.alloc(), argv, reader, writer) {
        Ok(()) => ExitCode::from(0),
        Err(fault) => ended(rt, SpectrumMessage(fault), writer.is_pipe_closed()),
    }
}
