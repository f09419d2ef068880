//! The program that lists a slice.
ghost use Rattle.std.specs.Prelude.{◌≡◌, ◌≢◌, ◌≤◌, ◌⊎◌, List, length, map, string_bytes, true, false, IfOk, IfErr};
ghost use Rattle.std.specs.Process.{exit_status};
ghost use Rattle.kmc_options.specs.Words.{Word};
ghost use Rattle.kmc_options.specs.Requests.{IsListRequest};
ghost use Rattle.kmc_options.specs.declared.slices.listing.ListRequest.{ListRequest};
ghost use Rattle.kmc_options.specs.declared.slices.listing.ListRequestError.{ListRequestError};
ghost use Rattle.kmc_options.specs.About.{is_asked, text_asked, Shows, ShowsFront};
ghost use Rattle.kmc_slices.specs.ListProgram.{AsksForNothing, FailsToList, IsListed, IsListFault, of_files, opened_by};
ghost use Rattle.kmc_slices.specs.declared.programs.list_fault.ListFault.{ListFault};
ghost use Rattle.kmc_slices.specs.declared.programs.listing.TheConstants.{HELP};

use crate::listing::list_records;
use crate::programs::gathering::{gather_readers, opened};
use crate::programs::list_fault::{ListFault, ListMessage, unnamed};
use kmc_device::Counted;
use kmc_options::{
    ListRequest, ListRequestError, Params, arguments, asked_text, ended, list_request, shown,
};
use std::alloc::{AllocError, Global};
use std::io::{Read, Write};
use std::process::ExitCode;
use std::rt::{Env, Files};
use std::sync::Wait;
use std::thread::Threads;

const HELP: &'static str = "kmc_list: the dump of one slice of reads that kmc_cut has cut

usage: kmc_list [-ci<n>] [-cx<n>] [-cs<n>] [-sr<n>] [-b] <file> ..

  -ci<n>     words that occur less often are not listed; 2 where it is not given
  -cx<n>     words that occur more often are not listed; 10^9
  -cs<n>     greater counts are shown as this; 255
  -sr<n>     threads that count, 1 to 16; 2
  -b         words are counted as read, not together with their reverse complements
  <file>     the files of one slice, of all parts of the reads

The dumps of all slices are merged by
  kmc_merge -ci1 -cx9223372036854775808 -cs9223372036854775808 <dump> ..
";

/// Writes the dump of the records of so many readers.
fn listed<
    T: Threads + Wait + Sync + Alloc<A = Global>,
    R: Read + Drop,
    W: Write,
    F: Fn(usize) -> Option<Counted<R>>,
>(
    rt: &T,
    count: usize,
    params: &Params,
    opener: &F,
    writer: &mut Counted<W>,
) -> Result<u64, ListFault>
    requires some { 1 ≤ count }
    requires opener { F.IsAlwaysCallable opener.now }
    ensures ok { IfOk result (λ lines. IsListed (opened_by R.remaining (F.post opener.now)) count params.now
        (W.contents writer.old.inner) (W.contents writer.new.inner)
        × (writer.new.failures ≡ writer.old.failures)) }
    ensures sound { IfErr result (λ e. (r : ListRequestError) → e ≢ ListFault.Request r) }
    ensures fault { IfErr result
        (IsListFault (opened_by R.remaining (F.post opener.now)) count params.now W.contents writer.old writer.new) }
{
    let records = gather_readers(rt.alloc(), count, opener)?;
    match list_records(rt, rt.alloc(), records, params, writer) {
        Ok(lines) => Ok(lines),
        Err(error) => Err(ListFault::Dump(error)),
    }
}

/// Reads a reader for each of the files, which `opener` opens by their numbers one after the other; they must be of one slice. Writes the
/// dump of their records by the settings. A fault is shown in one line on standard error, but for a write to a pipe whose other end is
/// closed. The exit status is 0 where the dump was written and no device failed, and else 1; then a reader or the records are at fault
/// or memory was refused, and nothing was written, or one write failed and a front of the dump is out.
pub fn list_readers<
    T: Threads + Wait + Sync + Eprint + Alloc<A = Global>,
    R: Read + Drop,
    W: Write,
    F: Fn(usize) -> Option<Counted<R>>,
>(rt: &T, files: &[String], params: &Params, opener: &F, writer: &mut Counted<W>) -> ExitCode
    requires some { 1 ≤ length files.now }
    requires opener { F.IsAlwaysCallable opener.now }
    ensures done { exit_status result ≡ 0 → IsListed (opened_by R.remaining (F.post opener.now)) (length files.now) params.now
        (W.contents writer.old.inner) (W.contents writer.new.inner)
        × (writer.new.failures ≡ writer.old.failures) }
    ensures failed { exit_status result ≡ 1 → (fault : ListFault)
        × IsListFault (opened_by R.remaining (F.post opener.now)) (length files.now) params.now W.contents writer.old writer.new fault }
    ensures statuses { exit_status result ≤ 1 }
{
    match listed(rt, files.len(), params, opener, writer) {
        Ok(_) => ExitCode::from(0),
        Err(fault) => ended(rt, ListMessage { files, fault }, writer.is_pipe_closed()),
    }
}

/// [`list_readers`] of the files that are asked for.
pub fn list_files<T: Threads + Wait + Sync + Files + Eprint + Alloc<A = Global>, W: Write>(
    rt: &T,
    request: &ListRequest,
    writer: &mut Counted<W>,
) -> ExitCode
    requires some { 1 ≤ length request.now.files.items }
    ensures done { exit_status result ≡ 0 → IsListed of_files (length request.now.files.items) request.now.params
        (W.contents writer.old.inner) (W.contents writer.new.inner)
        × (writer.new.failures ≡ writer.old.failures) }
    ensures failed { exit_status result ≡ 1 → (fault : ListFault)
        × IsListFault of_files (length request.now.files.items) request.now.params W.contents writer.old writer.new fault }
    ensures statuses { exit_status result ≤ 1 }
{
    let files = request.files.as_slice();
    let opener = |i: usize| opened(rt, files, i);
    list_readers(rt, files, &request.params, &opener, writer)
}

/// Does what the words ask for: shows help or the version, or lists the slice of the files that they name. The exit status is 2
/// where they ask for nothing, and else that of [`list_files`].
pub fn list_words<T: Threads + Wait + Sync + Files + Eprint + Alloc<A = Global>, W: Write>(
    rt: &T,
    words: Vec<String>,
    writer: &mut Counted<W>,
) -> ExitCode
    ensures done { exit_status result ≡ 0 → is_asked (map string_bytes words.items) ≡ false
        → (r : ListRequest) × IsListRequest (map string_bytes words.items) r
        × IsListed of_files (length r.files.items) r.params (W.contents writer.old.inner) (W.contents writer.new.inner)
        × (writer.new.failures ≡ writer.old.failures) }
    ensures misused { exit_status result ≡ 2 → AsksForNothing (map string_bytes words.items) × (writer.new ≡ writer.old) }
    ensures unshown_misuse { exit_status result ≡ 2 → is_asked (map string_bytes words.items) ≡ false }
    ensures shown { exit_status result ≡ 0 → is_asked (map string_bytes words.items) ≡ true
        → Shows W.contents (text_asked HELP.now (map string_bytes words.items)) writer.old writer.new }
    ensures unshown { exit_status result ≡ 1 → is_asked (map string_bytes words.items) ≡ true
        → ShowsFront W.contents (text_asked HELP.now (map string_bytes words.items)) writer.old writer.new }
    ensures failed { exit_status result ≡ 1 → is_asked (map string_bytes words.items) ≡ false
        → FailsToList W.contents (map string_bytes words.items) writer.old writer.new }
    ensures statuses { exit_status result ≤ 2 }
{
    if let Some(text) = asked_text(&words, HELP) {
        return shown(text, writer);
    }
    match list_request(rt.alloc(), words) {
        Ok(request) => list_files(rt, &request, writer),
        Err(error) => ended(rt, unnamed(error), false),
    }
}

/// The whole program: [`list_words`] of the words that the process was given.
pub fn list_program<T: Threads + Wait + Sync + Files + Env + Eprint + Alloc<A = Global>, W: Write>(
    rt: &T,
    writer: &mut Counted<W>,
) -> ExitCode
    ensures done { exit_status result ≡ 0 → (words : List Word) × (is_asked words ≡ false
        → (r : ListRequest) × IsListRequest words r
        × IsListed of_files (length r.files.items) r.params (W.contents writer.old.inner) (W.contents writer.new.inner)
        × (writer.new.failures ≡ writer.old.failures))
        × (is_asked words ≡ true → Shows W.contents (text_asked HELP.now words) writer.old writer.new) }
    ensures failed { exit_status result ≡ 1 → (writer.new ≡ writer.old) ⊎ ((words : List Word)
        × (is_asked words ≡ false → FailsToList W.contents words writer.old writer.new)
        × (is_asked words ≡ true → ShowsFront W.contents (text_asked HELP.now words) writer.old writer.new)) }
    ensures misused { exit_status result ≡ 2 → writer.new ≡ writer.old }
    ensures statuses { exit_status result ≤ 2 }
{
    match arguments(rt) {
        Ok(Some(words)) => list_words(rt, words, writer),
        Ok(None) => ended(rt, unnamed(ListRequestError::Usage), false),
        Err(AllocError) => ended(rt, unnamed(ListRequestError::Memory), false),
    }
}
