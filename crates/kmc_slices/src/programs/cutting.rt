//! The program that cuts reads into slices.
ghost use Rattle.std.specs.Prelude.{◌≡◌, ℕ, ◌+◌, ◌^◌, ◌<◌, ◌≤◌, ◌⊎◌, List, length, map, slice_index, string_bytes, true, false, IfOk, IfErr, OnOk};
ghost use Rattle.std.specs.Process.{exit_status};
ghost use Rattle.kmc_options.specs.Words.{Word};
ghost use Rattle.kmc_options.specs.Requests.{IsCutRequest};
ghost use Rattle.kmc_options.specs.declared.slices.cutting.CutRequest.{CutRequest};
ghost use Rattle.kmc_slice_files.specs.Opening.{IsCreateFault};
ghost use Rattle.kmc_slice_files.specs.declared.opening.CreateFault.{CreateFault};
ghost use Rattle.kmc_options.specs.About.{is_asked, text_asked, Shows, ShowsFront};
ghost use Rattle.kmc_slices.specs.CutProgram.{AsksForNoCut, FailsToCut, IsCutFault, IsCutTo, IsFaultOfCut, WroteFiles};
ghost use Rattle.kmc_slices.specs.declared.programs.cut_fault.CutFault.{CutFault};
ghost use Rattle.kmc_slices.specs.declared.programs.cutting.TheConstants.{HELP};

use crate::programs::cut_fault::{CutFault, CutMessage, unnamed};
use crate::slicing::cut_slices;
use kmc_device::Counted;
use kmc_options::{
    CutRequest, CutRequestError, Params, arguments, asked_text, cut_request, ended, shown,
};
use kmc_slice_files::create_files;
use std::alloc::{AllocError, Global};
use std::io::{Read, Write};
use std::process::ExitCode;
use std::rt::{Env, Files};
use std::sync::Wait;
use std::thread::Threads;

const HELP: &'static str =
    "kmc_cut: reads on standard input, cut into the records of slices that kmc_list lists one by one

usage: kmc_cut [-fa|-fq|-fm] [-k<len>] [-p<len>] [-n<bins>] [-sp<n>] -slices<S> [--force] <prefix>

  -fq -fa -fm  FASTQ, FASTA, FASTA whose sequences take several lines; FASTQ where none is given
  -k<len>      the length of words, 1 to 64; 25
  -p<len>      the most symbols of a signature, 5 to 11; 9
  -n<bins>     bins, 1 to 2000; 512
  -sp<n>       threads that cut, 1 to 16; 2
  -slices<S>   slices, 1 to 1000 and at most the bins
  --force      files that are there are written over
  <prefix>     the files are <prefix>.0, <prefix>.1 and so on

Reads may be cut in parts, each with a prefix of its own. Then for each slice kmc_list lists the files of all parts.
";

/// Cuts what the reader gives to the writers, one for each slice.
fn cut_through<T: Threads + Wait + Sync + Alloc<A = Global>, R: Read, W: Write>(
    rt: &T,
    params: &Params,
    reader: &mut Counted<R>,
    writers: &mut [Counted<W>],
) -> Result<(), CutFault>
    requires reads { reader.old.reads + 2 ^ 32 < 2 ^ 64 }
    requires some { 1 ≤ length writers.old }
    requires few { length writers.old < 2 ^ 16 }
    ensures ok { OnOk result (IsCutTo R.remaining W.contents params.now reader.old reader.new writers.old writers.new) }
    ensures fault { IfErr result (IsFaultOfCut R.remaining W.contents params.now reader.old reader.new writers.old writers.new) }
{
    match cut_slices(rt, rt.alloc(), reader, writers, params) {
        Ok(()) => Ok(()),
        Err(error) => Err(CutFault::Cut(error)),
    }
}

/// Cuts what the reader gives to the writers of the files of this prefix, one for each slice. A fault is shown in one line on standard
/// error. The exit status is 0 where each writer got its file and no device failed, and else 1.
pub fn cut_to<T: Threads + Wait + Sync + Eprint + Alloc<A = Global>, R: Read, W: Write>(
    rt: &T,
    prefix: &str,
    params: &Params,
    reader: &mut Counted<R>,
    writers: &mut [Counted<W>],
) -> ExitCode
    requires reads { reader.old.reads + 2 ^ 32 < 2 ^ 64 }
    requires some { 1 ≤ length writers.old }
    requires few { length writers.old < 2 ^ 16 }
    ensures done { exit_status result ≡ 0
        → IsCutTo R.remaining W.contents params.now reader.old reader.new writers.old writers.new }
    ensures failed { exit_status result ≡ 1 → (fault : CutFault)
        × IsFaultOfCut R.remaining W.contents params.now reader.old reader.new writers.old writers.new fault }
    ensures statuses { exit_status result ≤ 1 }
{
    match cut_through(rt, params, reader, writers) {
        Ok(()) => ExitCode::from(0),
        Err(fault) => ended(rt, CutMessage { prefix, fault }, false),
    }
}

/// The files that are asked for, made to be written.
fn files_made<T: Files + Alloc<A = Global>>(
    rt: &T,
    request: &CutRequest,
) -> Result<Vec<Counted<T::File>>, CutFault>
    ensures ok { IfOk result (λ writers. (length writers.items ≡ request.now.slices)
        × ((s : ℕ) → slice_index (map (λ w. w.failures) writers.items) s ≡ 0)) }
    ensures fault { IfErr result (λ fault. (e : CreateFault) × (fault ≡ CutFault.NotMade e) × IsCreateFault request.now.slices e) }
{
    match create_files(rt, &request.prefix, request.slices as usize, request.force) {
        Ok(writers) => Ok(writers),
        Err(fault) => Err(CutFault::NotMade(fault)),
    }
}

/// Makes the files that are asked for, and cuts what the reader gives to them by [`cut_to`].
fn cut<T: Threads + Wait + Sync + Files + Eprint + Alloc<A = Global>, R: Read>(
    rt: &T,
    request: &CutRequest,
    reader: &mut Counted<R>,
) -> ExitCode
    requires some { 1 ≤ request.now.slices }
    requires few { request.now.slices < 2 ^ 16 }
    requires reads { reader.old.reads + 2 ^ 32 < 2 ^ 64 }
    ensures done { exit_status result ≡ 0 → WroteFiles request.now.params request.now.slices
        (R.remaining reader.old.inner) (R.remaining reader.new.inner)
        × (reader.new.failures ≡ reader.old.failures) }
    ensures failed { exit_status result ≡ 1 → (fault : CutFault)
        × IsCutFault R.remaining request.now.params request.now.slices reader.old reader.new fault }
    ensures statuses { exit_status result ≤ 1 }
{
    let mut writers = match files_made(rt, request) {
        Ok(writers) => writers,
        Err(fault) => {
            let prefix = request.prefix.as_str();
            return ended(rt, CutMessage { prefix, fault }, false);
        }
    };
    cut_to(
        rt,
        &request.prefix,
        &request.params,
        reader,
        writers.as_mut_slice(),
    )
}

/// Does what the words ask for: shows help or the version on the writer, or cuts what the reader gives to the files of slices. A fault
/// is shown in one line on standard error. The exit status is 0 where all was done and no device failed, 2 where the words ask for
/// nothing, and then nothing is read and no file is made, and else 1.
pub fn cut_words<T: Threads + Wait + Sync + Files + Eprint + Alloc<A = Global>, R: Read, W: Write>(
    rt: &T,
    words: Vec<String>,
    reader: &mut Counted<R>,
    writer: &mut Counted<W>,
) -> ExitCode
    requires reads { reader.old.reads + 2 ^ 32 < 2 ^ 64 }
    ensures done { exit_status result ≡ 0 → is_asked (map string_bytes words.items) ≡ false
        → (r : CutRequest) × IsCutRequest (map string_bytes words.items) r
        × WroteFiles r.params r.slices (R.remaining reader.old.inner) (R.remaining reader.new.inner)
        × (reader.new.failures ≡ reader.old.failures) }
    ensures failed { exit_status result ≡ 1 → is_asked (map string_bytes words.items) ≡ false
        → FailsToCut R.remaining (map string_bytes words.items) reader.old reader.new }
    ensures misused { exit_status result ≡ 2 → AsksForNoCut (map string_bytes words.items)
        × (reader.new ≡ reader.old) × (writer.new ≡ writer.old) }
    ensures unshown_misuse { exit_status result ≡ 2 → is_asked (map string_bytes words.items) ≡ false }
    ensures unasked { is_asked (map string_bytes words.items) ≡ false → writer.new ≡ writer.old }
    ensures unread { is_asked (map string_bytes words.items) ≡ true → reader.new ≡ reader.old }
    ensures shown { exit_status result ≡ 0 → is_asked (map string_bytes words.items) ≡ true
        → Shows W.contents (text_asked HELP.now (map string_bytes words.items)) writer.old writer.new }
    ensures unshown { exit_status result ≡ 1 → is_asked (map string_bytes words.items) ≡ true
        → ShowsFront W.contents (text_asked HELP.now (map string_bytes words.items)) writer.old writer.new }
    ensures statuses { exit_status result ≤ 2 }
{
    if let Some(text) = asked_text(&words, HELP) {
        return shown(text, writer);
    }
    match cut_request(rt.alloc(), words) {
        Ok(request) => cut(rt, &request, reader),
        Err(error) => ended(rt, unnamed(error), false),
    }
}

/// The whole program: [`cut_words`] of the words that the process was given.
pub fn cut_program<
    T: Threads + Wait + Sync + Files + Env + Eprint + Alloc<A = Global>,
    R: Read,
    W: Write,
>(rt: &T, reader: &mut Counted<R>, writer: &mut Counted<W>) -> ExitCode
    requires reads { reader.old.reads + 2 ^ 32 < 2 ^ 64 }
    ensures done { exit_status result ≡ 0 → (words : List Word) × (is_asked words ≡ false
        → (r : CutRequest) × IsCutRequest words r
        × WroteFiles r.params r.slices (R.remaining reader.old.inner) (R.remaining reader.new.inner)
        × (reader.new.failures ≡ reader.old.failures))
        × (is_asked words ≡ true → Shows W.contents (text_asked HELP.now words) writer.old writer.new) }
    ensures failed { exit_status result ≡ 1 → ((reader.new ≡ reader.old) × (writer.new ≡ writer.old))
        ⊎ ((words : List Word)
        × (is_asked words ≡ false → FailsToCut R.remaining words reader.old reader.new × (writer.new ≡ writer.old))
        × (is_asked words ≡ true → ShowsFront W.contents (text_asked HELP.now words) writer.old writer.new
        × (reader.new ≡ reader.old))) }
    ensures misused { exit_status result ≡ 2 → (reader.new ≡ reader.old) × (writer.new ≡ writer.old) }
    ensures statuses { exit_status result ≤ 2 }
{
    match arguments(rt) {
        Ok(Some(words)) => cut_words(rt, words, reader, writer),
        Ok(None) => ended(rt, unnamed(CutRequestError::Usage), false),
        Err(AllocError) => ended(rt, unnamed(CutRequestError::Memory), false),
    }
}
