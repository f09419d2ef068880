//! The program: from its arguments to the dump of the join, the histogram or help, and the exit status.
ghost use Rattle.std.specs.Prelude.{◌≡◌, ◌≢◌, ℕ, ◌≤◌, ◌⊎◌, List, length, map, Some, string_bytes, true, false};
ghost use Rattle.std.specs.Process.{exit_status};
ghost use Rattle.kmc_options.specs.About.{is_asked, text_asked, Shows, ShowsFront};
ghost use Rattle.kmc_options.specs.Words.{Word};
ghost use Rattle.kmc_sum.specs.Answer.{IsCause};
ghost use Rattle.kmc_sum.specs.Sources.{failures_of, left_at, lefts_of};
ghost use Rattle.kmc_sum.specs.declared.error.SumError.{SumError};
ghost use Rattle.kmc_join.specs.Request.{Explains};
ghost use Rattle.kmc_join.specs.Histogram.{IsHistogramWritten};
ghost use Rattle.kmc_join.specs.Operand.{full_names};
ghost use Rattle.kmc_join.specs.Program.{AskForNothing, IsAnswered, IsDone, IsGivenUp, IsHistogramAnswered, IsHistogramGivenUp, IsLeft, IsTableAnswered, IsTableGivenUp};
ghost use Rattle.kmc_join.specs.State.{IsBegun, IsJoinWritten};
ghost use Rattle.kmc_join.specs.Table.{IsTableWritten};
ghost use Rattle.kmc_join.specs.TableWords.{table_cap};
ghost use Rattle.kmc_join.specs.Tabulation.{IsTableCause};
ghost use Rattle.kmc_join.specs.Tally.{IsHistogramCause};
ghost use Rattle.kmc_join.specs.Words.{asks_for_histogram};
ghost use Rattle.kmc_join.specs.declared.help.TheConstants.{HELP};

use crate::fault::{JoinFault, Message, unnamed};
use crate::help::HELP;
use crate::histograms::histogram;
use crate::joining::join;
use crate::opening::{full_names, opened};
use crate::query_words::query_strands;
use crate::querying::query_file;
use crate::request::{JoinRequestError, asked_for};
use crate::rule::JoinRule;
use crate::table_words::table_cap;
use crate::tables::table;
use crate::words::asks_for_histogram;
use kmc_count::Limits;
use kmc_device::Counted;
use kmc_options::{arguments, asked_text, ended, shown};
use kmc_sum::LineRead;
use std::alloc::Global;
use std::io::{Read, Write};
use std::process::ExitCode;
use std::rt::{Env, Files};

/// Reads the readers of the two files to their ends, and writes the dump of the join of what they list, within the limits. A fault
/// is shown in one line on standard error, but for a write to a pipe whose other end is closed. The exit status is 0 where
/// the dump was written and no device failed, and else 1; then a front of the dump is out.
pub fn join_readers<T: Eprint + Alloc<A = Global>, R: LineRead, W: Write>(
    rt: &T,
    files: &[String],
    rule: JoinRule,
    limits: &Limits,
    readers: &mut [Counted<R>],
    writer: &mut Counted<W>,
) -> ExitCode
    requires two { length readers.old ≡ 2 }
    requires each { length readers.old ≡ length files.now }
    ensures done { exit_status result ≡ 0 → ((lines : ℕ) × IsJoinWritten rule limits.now
        (lefts_of R.remaining readers.old) (lefts_of R.remaining readers.new) lines
        (W.contents writer.old.inner) (W.contents writer.new.inner))
        × (failures_of readers.new ≡ failures_of readers.old)
        × (writer.new.failures ≡ writer.old.failures) }
    ensures failed { exit_status result ≡ 1
        → (error : SumError) × IsCause (lefts_of R.remaining readers.old)
        (lefts_of R.remaining readers.new) (failures_of readers.old) (failures_of readers.new)
        writer.old.failures writer.new.failures error
        × (k : ℕ) × IsBegun k rule limits.now (lefts_of R.remaining readers.old)
        (lefts_of R.remaining readers.new)
        (W.contents writer.old.inner) (W.contents writer.new.inner) }
    ensures statuses { exit_status result ≤ 1 }
{
    match join(rt.alloc(), readers, rule, limits, writer) {
        Ok(_) => ExitCode::from(0),
        Err(error) => {
            let fault = JoinFault::Join(error);
            ended(rt, Message { files, fault }, writer.is_pipe_closed())
        }
    }
}

/// Reads the two files that the words name, the input in place of `/dev/stdin`, and writes the dump of the join of what they list, by the
/// operation and within the limits of the words. A fault is shown in one line on standard error, but for a write to a pipe whose other end
/// is closed. The exit status is 0 where the dump was written, 2 where the words ask for nothing, and else 1.
pub fn join_files<T: Files + Eprint + Alloc<A = Global>, I: Read + Drop, W: Write>(
    rt: &T,
    words: Vec<String>,
    input: I,
    writer: &mut Counted<W>,
) -> ExitCode
    ensures done { exit_status result ≡ 0
        → IsAnswered (map string_bytes words.items) (W.contents writer.old.inner)
        (W.contents writer.new.inner)
        × (writer.new.failures ≡ writer.old.failures) }
    ensures misused { exit_status result ≡ 2
        → ((e : JoinRequestError) × (e ≢ JoinRequestError.Memory)
        × Explains (map string_bytes words.items) e)
        × (writer.new ≡ writer.old) }
    ensures failed { exit_status result ≡ 1 → (writer.new ≡ writer.old)
        ⊎ IsGivenUp (map string_bytes words.items) W.contents writer.old writer.new }
    ensures statuses { exit_status result ≤ 2 }
{
    let asked = match asked_for(rt.alloc(), words) {
        Ok(asked) => asked,
        Err(error) => return ended(rt, unnamed(JoinFault::Request(error)), false),
    };
    let mut readers = match opened(rt, &asked.files, input) {
        Ok(readers) => readers,
        Err(fault) => {
            let files = asked.files.as_slice();
            return ended(rt, Message { files, fault }, false);
        }
    };
    join_readers(
        rt,
        &asked.files,
        asked.rule,
        &asked.limits,
        readers.as_mut_slice(),
        writer,
    )
}

/// Reads the reader of one file to its end, and writes the histogram of the dump that it lists. A fault is shown in one line on standard
/// error, but for a write to a pipe whose other end is closed. The exit status is 0 where the histogram was written and no device failed,
/// and else 1.
pub fn histogram_reader<T: Eprint + Alloc<A = Global>, R: LineRead, W: Write>(
    rt: &T,
    files: &[String],
    readers: &mut [Counted<R>],
    writer: &mut Counted<W>,
) -> ExitCode
    requires one { length readers.old ≡ 1 }
    ensures done { exit_status result ≡ 0 → IsHistogramWritten (left_at (lefts_of R.remaining readers.old) 0)
        (left_at (lefts_of R.remaining readers.new) 0) (W.contents writer.old.inner) (W.contents writer.new.inner)
        × (failures_of readers.new ≡ failures_of readers.old)
        × (writer.new.failures ≡ writer.old.failures) }
    ensures failed { exit_status result ≡ 1
        → (error : SumError) × IsHistogramCause W.contents (lefts_of R.remaining readers.old)
        (lefts_of R.remaining readers.new) (failures_of readers.old) (failures_of readers.new)
        writer.old writer.new error }
    ensures statuses { exit_status result ≤ 1 }
{
    match histogram(rt.alloc(), readers, writer) {
        Ok(()) => ExitCode::from(0),
        Err(error) => {
            let fault = JoinFault::Join(error);
            ended(rt, Message { files, fault }, writer.is_pipe_closed())
        }
    }
}

/// Reads the file that the words name, and writes the histogram of the dump that it lists. The exit status is 0 where it was written, and
/// else 1.
fn histogram_file<T: Files + Eprint + Alloc<A = Global>, I: Read + Drop, W: Write>(
    rt: &T,
    words: &[String],
    input: I,
    writer: &mut Counted<W>,
) -> ExitCode
    requires asks { asks_for_histogram (map string_bytes words.now) ≡ true }
    ensures done { exit_status result ≡ 0
        → IsHistogramAnswered (map string_bytes words.now) (W.contents writer.old.inner)
        (W.contents writer.new.inner)
        × (writer.new.failures ≡ writer.old.failures) }
    ensures failed { exit_status result ≡ 1 → (writer.new ≡ writer.old)
        ⊎ IsHistogramGivenUp (map string_bytes words.now) W.contents writer.old writer.new }
    ensures statuses { exit_status result ≤ 1 }
{
    let files = &words[1..];
    let mut readers = match opened(rt, files, input) {
        Ok(readers) => readers,
        Err(fault) => return ended(rt, Message { files, fault }, false),
    };
    histogram_reader(rt, files, readers.as_mut_slice(), writer)
}

/// Reads the readers of the two files to their ends, and writes the table of the dumps that they list. A fault is shown in one line on
/// standard error, but for a write to a pipe whose other end is closed. The exit status is 0 where the table was written and no device
/// failed, and else 1.
pub fn table_readers<T: Eprint + Alloc<A = Global>, R: LineRead, W: Write>(
    rt: &T,
    files: &[String],
    cap: u64,
    readers: &mut [Counted<R>],
    writer: &mut Counted<W>,
) -> ExitCode
    requires two { length readers.old ≡ 2 }
    ensures done { exit_status result ≡ 0 → IsTableWritten cap (lefts_of R.remaining readers.old)
        (lefts_of R.remaining readers.new) (W.contents writer.old.inner) (W.contents writer.new.inner)
        × (failures_of readers.new ≡ failures_of readers.old)
        × (writer.new.failures ≡ writer.old.failures) }
    ensures failed { exit_status result ≡ 1
        → (error : SumError) × IsTableCause W.contents cap (lefts_of R.remaining readers.old)
        (lefts_of R.remaining readers.new) (failures_of readers.old) (failures_of readers.new)
        writer.old writer.new error }
    ensures statuses { exit_status result ≤ 1 }
{
    match table(rt.alloc(), readers, cap, writer) {
        Ok(()) => ExitCode::from(0),
        Err(error) => {
            let fault = JoinFault::Join(error);
            ended(rt, Message { files, fault }, writer.is_pipe_closed())
        }
    }
}

/// Reads the two files that the words name last, and writes the table of the dumps that they list. The exit status is 0 where it was
/// written, and else 1.
fn table_files<T: Files + Eprint + Alloc<A = Global>, I: Read + Drop, W: Write>(
    rt: &T,
    words: &[String],
    cap: u64,
    input: I,
    writer: &mut Counted<W>,
) -> ExitCode
    requires asks { table_cap (map string_bytes words.now) ≡ Some cap }
    requires long { 3 ≤ length words.now }
    ensures done { exit_status result ≡ 0
        → IsTableAnswered (map string_bytes words.now) (W.contents writer.old.inner)
        (W.contents writer.new.inner)
        × (writer.new.failures ≡ writer.old.failures) }
    ensures failed { exit_status result ≡ 1 → (writer.new ≡ writer.old)
        ⊎ IsTableGivenUp (map string_bytes words.now) W.contents writer.old writer.new }
    ensures statuses { exit_status result ≤ 1 }
{
    let files = &words[words.len() - 2..];
    let mut readers = match opened(rt, files, input) {
        Ok(readers) => readers,
        Err(fault) => return ended(rt, Message { files, fault }, false),
    };
    table_readers(rt, files, cap, readers.as_mut_slice(), writer)
}

/// Does what the words, with the full name of standard input, ask for. The exit status is 0 where it was written, 2 where they ask for
/// nothing, and else 1.
fn run_named<T: Files + Eprint + Alloc<A = Global>, I: Read + Drop, W: Write>(
    rt: &T,
    words: Vec<String>,
    input: I,
    writer: &mut Counted<W>,
) -> ExitCode
    ensures done { exit_status result ≡ 0
        → IsDone (map string_bytes words.items) (W.contents writer.old.inner)
        (W.contents writer.new.inner)
        × (writer.new.failures ≡ writer.old.failures) }
    ensures misused { exit_status result ≡ 2
        → ((e : JoinRequestError) × AskForNothing (map string_bytes words.items) e)
        × (writer.new ≡ writer.old) }
    ensures failed { exit_status result ≡ 1 → (writer.new ≡ writer.old)
        ⊎ IsLeft (map string_bytes words.items) W.contents writer.old writer.new }
    ensures statuses { exit_status result ≤ 2 }
{
    if asks_for_histogram(&words) {
        return histogram_file(rt, &words, input, writer);
    }
    if let Some(cap) = table_cap(&words) {
        return table_files(rt, &words, cap, input, writer);
    }
    if let Some(strands) = query_strands(&words) {
        return query_file(rt, &words, strands, input, writer);
    }
    join_files(rt, words, input, writer)
}

/// Does what the words ask for: a join, the histogram of a file where they are `histogram` and its name, the table of two where they are
/// `table` and their names, or the counts that a file has for the words of the input where they are `query` and its name. Else the input is
/// read in place of a file that is named `-` or `/dev/stdin`, and no second time. A fault is shown in one line on standard error, but for
/// a write to a pipe whose other end is closed. The exit status is 0 where what they ask for was written, 2 where they ask for nothing, and
/// else 1.
pub fn run_words<T: Files + Eprint + Alloc<A = Global>, I: Read + Drop, W: Write>(
    rt: &T,
    words: Vec<String>,
    input: I,
    writer: &mut Counted<W>,
) -> ExitCode
    ensures done { exit_status result ≡ 0
        → IsDone (full_names (map string_bytes words.items)) (W.contents writer.old.inner)
        (W.contents writer.new.inner)
        × (writer.new.failures ≡ writer.old.failures) }
    ensures misused { exit_status result ≡ 2
        → ((e : JoinRequestError) × AskForNothing (full_names (map string_bytes words.items)) e)
        × (writer.new ≡ writer.old) }
    ensures failed { exit_status result ≡ 1 → (writer.new ≡ writer.old)
        ⊎ IsLeft (full_names (map string_bytes words.items)) W.contents writer.old writer.new }
    ensures statuses { exit_status result ≤ 2 }
{
    match full_names(rt.alloc(), words) {
        Ok(named) => run_named(rt, named, input, writer),
        Err(error) => ended(rt, unnamed(JoinFault::from(error)), false),
    }
}

/// Does what the words ask for: shows help or the version on the writer, and opens no file and reads nothing of the input then, or what
/// [`run_words`] does. The exit status of a text is 0 where it was written, and else 1, with no line of a fault; else it is that of
/// [`run_words`].
pub fn program_words<T: Files + Eprint + Alloc<A = Global>, I: Read + Drop, W: Write>(
    rt: &T,
    words: Vec<String>,
    input: I,
    writer: &mut Counted<W>,
) -> ExitCode
    ensures done { exit_status result ≡ 0 → is_asked (map string_bytes words.items) ≡ false
        → IsDone (full_names (map string_bytes words.items)) (W.contents writer.old.inner)
        (W.contents writer.new.inner)
        × (writer.new.failures ≡ writer.old.failures) }
    ensures misused { exit_status result ≡ 2 → (is_asked (map string_bytes words.items) ≡ false)
        × ((e : JoinRequestError) × AskForNothing (full_names (map string_bytes words.items)) e)
        × (writer.new ≡ writer.old) }
    ensures failed { exit_status result ≡ 1 → is_asked (map string_bytes words.items) ≡ false
        → (writer.new ≡ writer.old)
        ⊎ IsLeft (full_names (map string_bytes words.items)) W.contents writer.old writer.new }
    ensures shown { exit_status result ≡ 0 → is_asked (map string_bytes words.items) ≡ true
        → Shows W.contents (text_asked HELP.now (map string_bytes words.items)) writer.old writer.new }
    ensures unshown { exit_status result ≡ 1 → is_asked (map string_bytes words.items) ≡ true
        → ShowsFront W.contents (text_asked HELP.now (map string_bytes words.items)) writer.old writer.new }
    ensures statuses { exit_status result ≤ 2 }
{
    match asked_text(&words, HELP) {
        Some(text) => shown(text, writer),
        None => run_words(rt, words, input, writer),
    }
}

/// The whole program: [`program_words`] of the words that the process was given.
pub fn program<T: Files + Env + Eprint + Alloc<A = Global>, I: Read + Drop, W: Write>(
    rt: &T,
    input: I,
    writer: &mut Counted<W>,
) -> ExitCode
    ensures done { exit_status result ≡ 0 → (words : List Word) × (is_asked words ≡ false
        → IsDone (full_names words) (W.contents writer.old.inner) (W.contents writer.new.inner)
        × (writer.new.failures ≡ writer.old.failures))
        × (is_asked words ≡ true → Shows W.contents (text_asked HELP.now words) writer.old writer.new) }
    ensures misused { exit_status result ≡ 2 → writer.new ≡ writer.old }
    ensures failed { exit_status result ≡ 1 → (writer.new ≡ writer.old) ⊎ ((words : List Word)
        × (is_asked words ≡ false → (writer.new ≡ writer.old) ⊎ IsLeft (full_names words) W.contents writer.old writer.new)
        × (is_asked words ≡ true → ShowsFront W.contents (text_asked HELP.now words) writer.old writer.new)) }
    ensures statuses { exit_status result ≤ 2 }
{
    match arguments(rt) {
        Ok(Some(words)) => program_words(rt, words, input, writer),
        Ok(None) => ended(
            rt,
            unnamed(JoinFault::Request(JoinRequestError::Usage)),
            false,
        ),
        Err(error) => ended(rt, unnamed(JoinFault::from(error)), false),
    }
}
