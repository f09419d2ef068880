//! A query of a database: it is opened, and words are looked up in it.
ghost use Rattle.std.specs.Prelude.{◌≡◌, ℕ, List, IfErr, IfOk, Some};
ghost use Rattle.kmc_database.specs.Files.{IsDatabase};
ghost use Rattle.kmc_database.specs.Queried.{AreCounted, IsQueried, IsQueryCause};
ghost use Rattle.kmc_database.specs.Searched.{search_of};
ghost use Rattle.kmc_database.specs.declared.form.Form.{Form};

use crate::opening::open_database;
use crate::places::Places;
use crate::search_error::SearchError;
use crate::searching::query_opened;
use kmc_base::Strands;
use kmc_device::Counted;
use std::alloc::Global;
use std::io::{Read, Write};

/// Opens a database by [`open_database`], and then reads words and writes them with their counts as [`query_opened`] does; says how many
/// words there are. Where each strand is asked for by itself, a database that counts both together is refused. Where it is given up, a
/// front of the answers is out if a look-up or a write failed, and else nothing.
pub fn query_database<P: Places, S: Places, Q: Read, W: Write>(
    alloc: Global,
    apart: bool,
    prefix: &mut P,
    suffix: &mut S,
    words: &mut Counted<Q>,
    writer: &mut Counted<W>,
) -> Result<u64, SearchError>
    ensures prefix { P.bytes prefix.new ≡ P.bytes prefix.old }
    ensures suffix { S.bytes suffix.new ≡ S.bytes suffix.old }
    ensures ok { let before = search_of P.bytes P.failures S.bytes S.failures Q.remaining W.contents
        prefix.old suffix.old words.old writer.old in
        let after = search_of P.bytes P.failures S.bytes S.failures Q.remaining W.contents
        prefix.new suffix.new words.new writer.new in
        IfOk result (IsQueried apart before after) }
    ensures database { let before = search_of P.bytes P.failures S.bytes S.failures Q.remaining W.contents
        prefix.old suffix.old words.old writer.old in
        let after = search_of P.bytes P.failures S.bytes S.failures Q.remaining W.contents
        prefix.new suffix.new words.new writer.new in
        IfOk result (λ lines. (f : Form) (pairs : List (List ℕ × ℕ)) (p s : List ℕ)
        → P.bytes prefix.old ≡ Some p → S.bytes suffix.old ≡ Some s → IsDatabase f pairs p s
        → AreCounted f pairs before after lines) }
    ensures cause { let before = search_of P.bytes P.failures S.bytes S.failures Q.remaining W.contents
        prefix.old suffix.old words.old writer.old in
        let after = search_of P.bytes P.failures S.bytes S.failures Q.remaining W.contents
        prefix.new suffix.new words.new writer.new in
        IfErr result (IsQueryCause apart before after) }
{
    let database = match open_database(prefix, suffix) {
        Ok(database) => database,
        Err(error) => return Err(SearchError::Open(error)),
    };
    if apart && database.strands == Strands::Joined {
        return Err(SearchError::OneStrand);
    }
    query_opened(alloc, &database, prefix, suffix, words, writer)
}
