//! A database queried for a user, who is told of a refusal.
ghost use Rattle.std.specs.Prelude.{◌≡◌, ◌≤◌, ℕ, List, Some};
ghost use Rattle.std.specs.Process.{exit_status};
ghost use Rattle.kmc_database.specs.Files.{IsDatabase};
ghost use Rattle.kmc_database.specs.Queried.{AreCounted, IsQueried, IsQueryCause};
ghost use Rattle.kmc_database.specs.Searched.{search_of};
ghost use Rattle.kmc_database.specs.declared.form.Form.{Form};

use crate::places::Places;
use crate::querying::query_database;
use crate::search_error::SearchError;
use crate::search_message::SearchMessage;
use kmc_device::Counted;
use kmc_options::ended;
use std::alloc::Global;
use std::io::{Read, Write};
use std::process::ExitCode;

/// Queries a database as [`query_database`] does. A refusal is shown in one line on standard error, with the database's name, but for a
/// write to a pipe whose other end is closed. The exit status is 0 where the counts were written and no device failed, and else 1.
pub fn query_places<T: Eprint + Alloc<A = Global>, P: Places, S: Places, Q: Read, W: Write>(
    rt: &T,
    name: &str,
    apart: bool,
    prefix: &mut P,
    suffix: &mut S,
    words: &mut Counted<Q>,
    writer: &mut Counted<W>,
) -> ExitCode
    ensures done { let before = search_of P.bytes P.failures S.bytes S.failures Q.remaining W.contents
        prefix.old suffix.old words.old writer.old in
        let after = search_of P.bytes P.failures S.bytes S.failures Q.remaining W.contents
        prefix.new suffix.new words.new writer.new in
        exit_status result ≡ 0 → (lines : ℕ) × IsQueried apart before after lines }
    ensures database { let before = search_of P.bytes P.failures S.bytes S.failures Q.remaining W.contents
        prefix.old suffix.old words.old writer.old in
        let after = search_of P.bytes P.failures S.bytes S.failures Q.remaining W.contents
        prefix.new suffix.new words.new writer.new in
        exit_status result ≡ 0 → (f : Form) (pairs : List (List ℕ × ℕ)) (p s : List ℕ)
        → P.bytes prefix.old ≡ Some p → S.bytes suffix.old ≡ Some s → IsDatabase f pairs p s
        → (lines : ℕ) × AreCounted f pairs before after lines }
    ensures failed { let before = search_of P.bytes P.failures S.bytes S.failures Q.remaining W.contents
        prefix.old suffix.old words.old writer.old in
        let after = search_of P.bytes P.failures S.bytes S.failures Q.remaining W.contents
        prefix.new suffix.new words.new writer.new in
        exit_status result ≡ 1 → (error : SearchError) × IsQueryCause apart before after error }
    ensures statuses { exit_status result ≤ 1 }
{
    match query_database(rt.alloc(), apart, prefix, suffix, words, writer) {
        Ok(_) => ExitCode::from(0),
        Err(error) => {
            let message = SearchMessage {
                database: name,
                error,
            };
            ended(rt, message, writer.is_pipe_closed())
        }
    }
}
