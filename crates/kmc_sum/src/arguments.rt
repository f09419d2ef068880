//! The program: from its arguments to the dump of the sum, or help, and the exit status.
ghost use Rattle.std.specs.Prelude.{◌≡◌, ◌≢◌, ℕ, ◌<◌, ◌≤◌, ◌⊎◌, List, length, map, MatchResult, string_bytes, true, false};
ghost use Rattle.std.specs.Process.{exit_status};
ghost use Rattle.kmc_options.specs.About.{is_asked, text_asked, Shows, ShowsFront};
ghost use Rattle.kmc_options.specs.Words.{Word};
ghost use Rattle.kmc_sum.specs.Answer.{IsCause};
ghost use Rattle.kmc_sum.specs.Request.{Explains};
ghost use Rattle.kmc_sum.specs.Numbers.{most_sources};
ghost use Rattle.kmc_sum.specs.Program.{IsAnswered, IsGivenUp};
ghost use Rattle.kmc_sum.specs.Sources.{failures_of, lefts_of};
ghost use Rattle.kmc_sum.specs.State.{IsBegun, IsSumWritten};
ghost use Rattle.kmc_sum.specs.declared.arguments.TheConstants.{HELP};

use crate::error::SumError;
use crate::fault::{Fault, Message, unnamed};
use crate::line_read::{LineRead, TextReader};
use crate::merging::{MOST_SOURCES, merge};
use crate::request::{RequestError, asked_for};
use kmc_count::Limits;
use kmc_device::Counted;
use kmc_options::{arguments, asked_text, ended, shown};
use std::alloc::Global;
use std::fs;
use std::io::Write;
use std::process::ExitCode;
use std::rt::{Env, Files};

const HELP: &'static str = "kmc_merge: the dump of the sum of dumps

usage: kmc_merge [-ci<n>] [-cx<n>] [-cs<n>] a.dump b.dump ..

  -ci<n>     words whose sum is less are not listed; 2 where it is not given
  -cx<n>     words whose sum is greater are not listed; 10^9
  -cs<n>     greater sums are shown as this; 255
  a.dump ..  the files of 1 to 1000 sorted dumps

Dumps of parts of the reads are made with all counts, and dumps of slices are merged with all counts, by
  -ci1 -cx9223372036854775808 -cs9223372036854775808
";

/// A reader for each file, or why there are none: the first file that cannot be opened, or want of memory.
fn opened<T: Files + Alloc<A = Global>>(
    rt: &T,
    files: &[String],
) -> Result<Vec<Counted<TextReader<T::File>>>, Fault>
    ensures { MatchResult result (λ readers. length readers.items ≡ length files.now)
        (λ fault. (fault ≡ Fault.Sum SumError.Memory)
        ⊎ ((i : ℕ) × (i < length files.now) × (fault ≡ Fault.NotOpened i))) }
{
    let mut readers = Vec::new(rt.alloc());
    for i in 0..files.len() {
        let Ok(file) = fs::open(rt, files[i].as_str()) else {
            return Err(Fault::NotOpened(i));
        };
        if readers.push(Counted::new(TextReader(file))).is_err() {
            return Err(Fault::Sum(SumError::Memory));
        }
    }
    Ok(readers)
}

/// Reads the readers of the files to their ends, and writes the dump of the sum of what they list, within the limits. A fault
/// is shown in one line on standard error, but for a write to a pipe whose other end is closed. The exit status is 0 where
/// the dump was written and no device failed, and else 1; then a front of the dump is out.
pub fn sum_readers<T: Eprint + Alloc<A = Global>, R: LineRead, W: Write>(
    rt: &T,
    files: &[String],
    limits: &Limits,
    readers: &mut [Counted<R>],
    writer: &mut Counted<W>,
) -> ExitCode
    requires some { 1 ≤ length readers.old }
    requires most { length readers.old ≤ most_sources }
    requires each { length readers.old ≡ length files.now }
    ensures done { exit_status result ≡ 0 → ((lines : ℕ) × IsSumWritten limits.now
        (lefts_of R.remaining readers.old) (lefts_of R.remaining readers.new) lines
        (W.contents writer.old.inner) (W.contents writer.new.inner))
        × (failures_of readers.new ≡ failures_of readers.old)
        × (writer.new.failures ≡ writer.old.failures) }
    ensures failed { exit_status result ≡ 1
        → (error : SumError) × IsCause (lefts_of R.remaining readers.old)
        (lefts_of R.remaining readers.new) (failures_of readers.old) (failures_of readers.new)
        writer.old.failures writer.new.failures error
        × (k : ℕ) × IsBegun k limits.now (lefts_of R.remaining readers.old)
        (lefts_of R.remaining readers.new)
        (W.contents writer.old.inner) (W.contents writer.new.inner) }
    ensures statuses { exit_status result ≤ 1 }
{
    match merge(rt.alloc(), readers, limits, writer) {
        Ok(_) => ExitCode::from(0),
        Err(error) => {
            let fault = Fault::Sum(error);
            ended(rt, Message { files, fault }, writer.is_pipe_closed())
        }
    }
}

/// Reads the files that the words name, and writes the dump of the sum of what they list, within the limits of the words.
/// A fault is shown in one line on standard error, but for a write to a pipe whose other end is closed. The exit status is 0
/// where the dump was written, 2 where the words ask for nothing, and else 1.
pub fn sum_files<T: Files + Eprint + Alloc<A = Global>, W: Write>(
    rt: &T,
    words: Vec<String>,
    writer: &mut Counted<W>,
) -> ExitCode
    ensures done { exit_status result ≡ 0
        → IsAnswered (map string_bytes words.items) (W.contents writer.old.inner)
        (W.contents writer.new.inner)
        × (writer.new.failures ≡ writer.old.failures) }
    ensures misused { exit_status result ≡ 2
        → ((e : RequestError) × (e ≢ RequestError.Memory)
        × Explains most_sources (map string_bytes words.items) e)
        × (writer.new ≡ writer.old) }
    ensures failed { exit_status result ≡ 1 → (writer.new ≡ writer.old)
        ⊎ IsGivenUp (map string_bytes words.items) W.contents writer.old writer.new }
    ensures statuses { exit_status result ≤ 2 }
{
    let asked = match asked_for(rt.alloc(), words, MOST_SOURCES) {
        Ok(asked) => asked,
        Err(error) => return ended(rt, unnamed(Fault::Request(error)), false),
    };
    let mut readers = match opened(rt, &asked.files) {
        Ok(readers) => readers,
        Err(fault) => {
            let files = asked.files.as_slice();
            return ended(rt, Message { files, fault }, false);
        }
    };
    sum_readers(
        rt,
        &asked.files,
        &asked.limits,
        readers.as_mut_slice(),
        writer,
    )
}

/// Does what the words ask for: shows help or the version on the writer, and opens no file then, or merges the files that they name. The
/// exit status of a text is 0 where it was written, and else 1, with no line of a fault; else it is that of [`sum_files`].
pub fn sum_words<T: Files + Eprint + Alloc<A = Global>, W: Write>(
    rt: &T,
    words: Vec<String>,
    writer: &mut Counted<W>,
) -> ExitCode
    ensures done { exit_status result ≡ 0 → is_asked (map string_bytes words.items) ≡ false
        → IsAnswered (map string_bytes words.items) (W.contents writer.old.inner)
        (W.contents writer.new.inner)
        × (writer.new.failures ≡ writer.old.failures) }
    ensures misused { exit_status result ≡ 2 → (is_asked (map string_bytes words.items) ≡ false)
        × ((e : RequestError) × (e ≢ RequestError.Memory)
        × Explains most_sources (map string_bytes words.items) e)
        × (writer.new ≡ writer.old) }
    ensures failed { exit_status result ≡ 1 → is_asked (map string_bytes words.items) ≡ false
        → (writer.new ≡ writer.old)
        ⊎ IsGivenUp (map string_bytes words.items) W.contents writer.old writer.new }
    ensures shown { exit_status result ≡ 0 → is_asked (map string_bytes words.items) ≡ true
        → Shows W.contents (text_asked HELP.now (map string_bytes words.items)) writer.old writer.new }
    ensures unshown { exit_status result ≡ 1 → is_asked (map string_bytes words.items) ≡ true
        → ShowsFront W.contents (text_asked HELP.now (map string_bytes words.items)) writer.old writer.new }
    ensures statuses { exit_status result ≤ 2 }
{
    match asked_text(&words, HELP) {
        Some(text) => shown(text, writer),
        None => sum_files(rt, words, writer),
    }
}

/// The whole program: [`sum_words`] of the words that the process was given.
pub fn program<T: Files + Env + Eprint + Alloc<A = Global>, W: Write>(
    rt: &T,
    writer: &mut Counted<W>,
) -> ExitCode
    ensures done { exit_status result ≡ 0 → (words : List Word) × (is_asked words ≡ false
        → IsAnswered words (W.contents writer.old.inner) (W.contents writer.new.inner)
        × (writer.new.failures ≡ writer.old.failures))
        × (is_asked words ≡ true → Shows W.contents (text_asked HELP.now words) writer.old writer.new) }
    ensures misused { exit_status result ≡ 2 → writer.new ≡ writer.old }
    ensures failed { exit_status result ≡ 1 → (writer.new ≡ writer.old) ⊎ ((words : List Word)
        × (is_asked words ≡ false → (writer.new ≡ writer.old) ⊎ IsGivenUp words W.contents writer.old writer.new)
        × (is_asked words ≡ true → ShowsFront W.contents (text_asked HELP.now words) writer.old writer.new)) }
    ensures statuses { exit_status result ≤ 2 }
{
    match arguments(rt) {
        Ok(Some(words)) => sum_words(rt, words, writer),
        Ok(None) => ended(rt, unnamed(Fault::Request(RequestError::Usage)), false),
        Err(error) => ended(rt, unnamed(Fault::from(error)), false),
    }
}
