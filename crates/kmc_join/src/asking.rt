//! The words that are asked for, a word a line, read to their end.
ghost use Rattle.std.specs.Prelude.{◌≡◌, ◌≢◌, ◌≤◌, ℕ, [], List, length, ◌++◌, IfErr, IfOk, MatchOption, OnOk, IsErrOf, map};
ghost use Rattle.std.specs.Io.KnownBytes.{IsAtEnd};
ghost use Rattle.kmc_base.specs.Words.{IsKmer};
ghost use Rattle.kmc_device.specs.Device.{GaveAll};
ghost use Rattle.kmc_sum.specs.Source.{GoesOn, IsEnough, IsRoom, unread};
ghost use Rattle.kmc_join.specs.Asking.{AreAsked, BeginsNoWord, IsWordFault, IsWordsCause, length_of, word_line, words_text};

use crate::query_error::QueryError;
use crate::word_lines::word_at;
use kmc_base::{Kmer, MAX_K};
use kmc_device::Counted;
use kmc_sum::{Room, fill};
use std::alloc::Global;
use std::io::Read;

/// Takes the next word, which has a line of this number, where there is one.
fn next_word<Q: Read>(
    reader: &mut Counted<Q>,
    room: &mut Room,
    line: u64,
) -> Result<Option<Kmer>, QueryError>
    requires { IsRoom room.old }
    ensures room { IsRoom room.new }
    ensures ok { IfOk result (λ answer. (rest : List ℕ)
        × GoesOn (Q.remaining reader.old.inner) (Q.remaining reader.new.inner)
        (unread room.old) rest
        × MatchOption answer
        ((rest ≡ []) × IsAtEnd (Q.remaining reader.new.inner))
        (λ w. IsKmer w × (rest ≡ word_line w ++ unread room.new))) }
    ensures kept { OnOk result (reader.new.failures ≡ reader.old.failures) }
    ensures cause { IfErr result (λ e. IsWordFault line (Q.remaining reader.old.inner)
        (Q.remaining reader.new.inner) (unread room.old) reader.old.failures reader.new.failures
        e) }
{
    match fill(reader, room) {
        Ok(()) => {}
        Err(_) => return Err(QueryError::ReadWords),
    }
    if room.from == room.to {
        return Ok(None);
    }
    match word_at(&room.bytes[room.from..room.to]) {
        Some(word) => {
            room.from += word.k() + 1;
            Ok(Some(word))
        }
        None => Err(QueryError::NoWord(line)),
    }
}

/// How long the words are; 0 where there is none.
pub fn length_of(words: &[Kmer]) -> usize
    ensures is { result ≡ length_of words.now }
    ensures most { result ≤ MAX_K }
{
    match words {
        [] => 0,
        [first, ..] => first.k(),
    }
}

/// The words that a reader gives to its end, a line each of 1 to 64 upper-case letters, in their order, all of one length. They are held in
/// memory, some 32 bytes each.
pub fn asked_words<Q: Read>(alloc: Global, reader: &mut Counted<Q>) -> Result<Vec<Kmer>, QueryError>
    ensures gave { IfOk result (λ words. GaveAll (Q.remaining reader.old.inner)
        (Q.remaining reader.new.inner) (words_text words.items)) }
    ensures each { IfOk result (λ words. AreAsked (length_of words.items) words.items) }
    ensures kept { OnOk result (reader.new.failures ≡ reader.old.failures) }
    ensures cause { IfErr result (IsWordsCause (Q.remaining reader.old.inner)
        (Q.remaining reader.new.inner) reader.old.failures reader.new.failures) }
{
    let mut room = match Room::new(alloc) {
        Ok(room) => room,
        Err(_) => return Err(QueryError::Memory),
    };
    let mut words = Vec::new(alloc);
    for step in 0..u64::MAX {
        let Some(word) = next_word(reader, &mut room, step + 1)? else {
            return Ok(words);
        };
        let length = length_of(&words);
        if length != 0 && word.k() != length {
            return Err(QueryError::OtherLength(step + 1));
        }
        match words.push(word) {
            Ok(()) => {}
            Err(_) => return Err(QueryError::Memory),
        }
    }
    Err(QueryError::Memory)
}
