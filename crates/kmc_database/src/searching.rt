//! Words looked up in a database, and written with their counts.
ghost use Rattle.std.specs.Prelude.{◌≡◌, ℕ, List, Option, Contains, IfErr, IfOk, OnErr, OnOk};
ghost use Rattle.kmc_base.specs.Lemmas.Keys.{IsWord};
ghost use Rattle.kmc_database.specs.LookedUp.{IsReach};
ghost use Rattle.kmc_database.specs.Searched.{AreBegun, AreWritten, IsFindingCause, IsSearchCause, IsSearched, search_of};

use crate::looking_up::look_up;
use crate::opening::OpenDatabase;
use crate::places::Places;
use crate::search_error::SearchError;
use kmc_base::Kmer;
use kmc_device::Counted;
use kmc_join::{asked_words, length_of};
use kmc_sum::OutputBuffer;
use std::alloc::Global;
use std::io::{Read, Write};

/// Writes a line for each word: the word, a tab, the count that the database has for its key.
fn put_found<P: Places, S: Places, W: Write>(
    database: &OpenDatabase,
    prefix: &mut P,
    suffix: &mut S,
    words: &[Kmer],
    writer: &mut Counted<W>,
) -> Result<(), SearchError>
    requires reach { IsReach database.now.header }
    requires each { (w : List ℕ) → Contains words.now w → IsWord database.now.header.layout.k w }
    ensures prefix { P.bytes prefix.new ≡ P.bytes prefix.old }
    ensures suffix { S.bytes suffix.new ≡ S.bytes suffix.old }
    ensures ok { OnOk result (AreWritten database.now (P.bytes prefix.old) (S.bytes suffix.old)
        words.now (W.contents writer.old.inner) (W.contents writer.new.inner)) }
    ensures sound { OnOk result ((P.failures prefix.new ≡ P.failures prefix.old)
        × (S.failures suffix.new ≡ S.failures suffix.old)
        × (writer.new.failures ≡ writer.old.failures)) }
    ensures cause { IfErr result (λ e. (asked left : Option (List ℕ)) (failed : ℕ)
        → IsFindingCause database.now words.now (record {
          prefix = P.bytes prefix.old;
          suffix = S.bytes suffix.old;
          words = asked;
          written = W.contents writer.old.inner;
          reads = record { prefix = P.failures prefix.old; suffix = S.failures suffix.old };
          words_failures = failed;
          writer_failures = writer.old.failures;
        })
        (record {
          prefix = P.bytes prefix.new;
          suffix = S.bytes suffix.new;
          words = left;
          written = W.contents writer.new.inner;
          reads = record { prefix = P.failures prefix.new; suffix = S.failures suffix.new };
          words_failures = failed;
          writer_failures = writer.new.failures;
        }) e) }
    ensures begun { OnErr result (AreBegun database.now (P.bytes prefix.old) (S.bytes suffix.old)
        words.now (W.contents writer.old.inner) (W.contents writer.new.inner)) }
{
    let mut buffer = OutputBuffer::new();
    for word in words {
        let key = word.key(database.strands);
        let count = match look_up(&database.header, prefix, suffix, &key) {
            Ok(count) => count,
            Err(error) => return Err(SearchError::LookUp(error)),
        };
        match buffer.put_line(writer, word, count) {
            Ok(()) => {}
            Err(_) => return Err(SearchError::Write),
        }
    }
    match buffer.flush_into(writer) {
        Ok(()) => Ok(()),
        Err(_) => Err(SearchError::Write),
    }
}

/// Reads words, a line each, to their end, and writes for each, in its order, the word, a tab and the count that an opened database has for
/// it, which is 0 where it does not list it; says how many words there are. Where the database counts a word and its reverse complement
/// together, a word is looked up under the lesser of the two. All words are as long as those of the database, or else refused. They are
/// held in memory, some 32 bytes each; of the files little more is read than the rows that are asked for.
pub fn query_opened<P: Places, S: Places, Q: Read, W: Write>(
    alloc: Global,
    database: &OpenDatabase,
    prefix: &mut P,
    suffix: &mut S,
    words: &mut Counted<Q>,
    writer: &mut Counted<W>,
) -> Result<u64, SearchError>
    requires reach { IsReach database.now.header }
    ensures prefix { P.bytes prefix.new ≡ P.bytes prefix.old }
    ensures suffix { S.bytes suffix.new ≡ S.bytes suffix.old }
    ensures ok { let before = search_of P.bytes P.failures S.bytes S.failures Q.remaining W.contents
        prefix.old suffix.old words.old writer.old in
        let after = search_of P.bytes P.failures S.bytes S.failures Q.remaining W.contents
        prefix.new suffix.new words.new writer.new in
        IfOk result (IsSearched database.now before after) }
    ensures cause { let before = search_of P.bytes P.failures S.bytes S.failures Q.remaining
        W.contents prefix.old suffix.old words.old writer.old in
        let after = search_of P.bytes P.failures S.bytes S.failures Q.remaining W.contents
        prefix.new suffix.new words.new writer.new in
        IfErr result (IsSearchCause database.now before after) }
{
    let asked = match asked_words(alloc, words) {
        Ok(asked) => asked,
        Err(error) => return Err(SearchError::Words(error)),
    };
    let length = length_of(&asked);
    if length != 0 && length != database.header.layout.k {
        return Err(SearchError::OtherLength);
    }
    put_found(database, prefix, suffix, &asked, writer)?;
    Ok(asked.len() as u64)
}
