//! The program's query: from its words to the counts of the words on standard input, and the exit status.
ghost use Rattle.std.specs.Prelude.{◌≡◌, ◌≤◌, ◌⊎◌, ℕ, Some, length, map, string_bytes};
ghost use Rattle.std.specs.Process.{exit_status};
ghost use Rattle.kmc_join.specs.Program.{IsQueryAnswered, IsQueryGivenUp};
ghost use Rattle.kmc_join.specs.Query.{IsQueryWritten};
ghost use Rattle.kmc_join.specs.QueryAnswer.{AreSound, IsQueryCause, inputs_of};
ghost use Rattle.kmc_join.specs.QueryWords.{query_strands};

use crate::fault::{JoinFault, Message};
use crate::opening::dump_named;
use crate::queries::query;
use crate::query_error::QueryError;
use kmc_base::Strands;
use kmc_device::Counted;
use kmc_options::ended;
use kmc_sum::LineRead;
use std::alloc::Global;
use std::io::{Read, Write};
use std::process::ExitCode;
use std::rt::Files;

/// Reads words and a dump to their ends, and writes the words with their counts there. A fault is shown in one line on standard error, but
/// for a write to a pipe whose other end is closed. The exit status is 0 where the counts were written and no device failed, and else 1.
pub fn query_readers<T: Eprint + Alloc<A = Global>, D: LineRead, Q: Read, W: Write>(
    rt: &T,
    files: &[String],
    strands: Strands,
    dump: &mut Counted<D>,
    words: &mut Counted<Q>,
    writer: &mut Counted<W>,
) -> ExitCode
    ensures done { let before = inputs_of D.remaining Q.remaining dump.old words.old in
        let after = inputs_of D.remaining Q.remaining dump.new words.new in exit_status result ≡ 0
        → ((lines : ℕ) × IsQueryWritten strands before.dump after.dump before.words after.words
        lines (W.contents writer.old.inner) (W.contents writer.new.inner))
        × AreSound before after × (writer.new.failures ≡ writer.old.failures) }
    ensures failed { exit_status result ≡ 1 → (error : QueryError) × IsQueryCause W.contents strands
        (inputs_of D.remaining Q.remaining dump.old words.old)
        (inputs_of D.remaining Q.remaining dump.new words.new) writer.old writer.new error }
    ensures statuses { exit_status result ≤ 1 }
{
    match query(rt.alloc(), dump, words, strands, writer) {
        Ok(_) => ExitCode::from(0),
        Err(error) => {
            let fault = JoinFault::Query(error);
            ended(rt, Message { files, fault }, writer.is_pipe_closed())
        }
    }
}

/// Reads the words that the input gives and the file that the words of the command line name last, and writes the counts. The exit status
/// is 0 where they were written, and else 1.
pub(crate) fn query_file<T: Files + Eprint + Alloc<A = Global>, I: Read + Drop, W: Write>(
    rt: &T,
    words: &[String],
    strands: Strands,
    input: I,
    writer: &mut Counted<W>,
) -> ExitCode
    requires asks { query_strands (map string_bytes words.now) ≡ Some strands }
    requires some { 1 ≤ length words.now }
    ensures done { exit_status result ≡ 0
        → IsQueryAnswered (map string_bytes words.now) (W.contents writer.old.inner)
        (W.contents writer.new.inner)
        × (writer.new.failures ≡ writer.old.failures) }
    ensures failed { exit_status result ≡ 1 → (writer.new ≡ writer.old)
        ⊎ IsQueryGivenUp (map string_bytes words.now) W.contents writer.old writer.new }
    ensures statuses { exit_status result ≤ 1 }
{
    let files = &words[words.len() - 1..];
    let Some(mut dump) = dump_named(rt, files[0].as_str()) else {
        let fault = JoinFault::NotOpened(0);
        return ended(rt, Message { files, fault }, false);
    };
    let mut asked = Counted::new(input);
    query_readers(rt, files, strands, &mut dump, &mut asked, writer)
}
