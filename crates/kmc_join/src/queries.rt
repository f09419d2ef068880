//! The counts that a dump has for given words.
ghost use Rattle.std.specs.Prelude.{◌≡◌, ℕ, List, Contains, IsSorted, OnErr, OnOk, length, map};
ghost use Rattle.std.specs.Io.KnownBytes.{Appends};
ghost use Rattle.kmc_base.specs.Strands.{key};
ghost use Rattle.kmc_base.specs.Words.{kmer_cmp};
ghost use Rattle.kmc_device.specs.Device.{AppendsFront, RisesByOne};
ghost use Rattle.kmc_lists.specs.Line.{text_of};
ghost use Rattle.kmc_join.specs.KeyCounts.{AreCounts};
ghost use Rattle.kmc_join.specs.QueryAnswer.{IsQueryAnswer, inputs_of};

use crate::asking::{asked_words, length_of};
use crate::key_counts::{count_of, keys_of};
use crate::looking_up::looked_up;
use crate::query_error::QueryError;
use kmc_base::{Kmer, Strands};
use kmc_device::{Counted, WriteFault};
use kmc_sum::{LineRead, OutputBuffer};
use std::alloc::Global;
use std::io::{Read, Write};

/// Writes a line for each word: the word, a tab, the count of its key.
fn put_answers<W: Write>(
    words: &[Kmer],
    strands: Strands,
    keys: &[Kmer],
    counts: &[u64],
    writer: &mut Counted<W>,
) -> Result<(), WriteFault>
    requires each { length counts.now ≡ length keys.now }
    requires sorted { IsSorted kmer_cmp keys.now }
    requires there { (w : List ℕ) → Contains words.now w → Contains keys.now (key strands w) }
    ensures ok { OnOk result ((count : List ℕ → ℕ) → AreCounts count keys.now counts.now
        → Appends (W.contents writer.old.inner) (W.contents writer.new.inner)
        (text_of (map (λ w. (w, count (key strands w))) words.now))) }
    ensures kept { OnOk result (writer.new.failures ≡ writer.old.failures) }
    ensures failed { OnErr result (RisesByOne writer.old.failures writer.new.failures) }
    ensures front { OnErr result ((count : List ℕ → ℕ) → AreCounts count keys.now counts.now
        → AppendsFront (W.contents writer.old.inner) (W.contents writer.new.inner)
        (text_of (map (λ w. (w, count (key strands w))) words.now))) }
{
    let mut buffer = OutputBuffer::new();
    for word in words {
        let count = count_of(keys, counts, &word.key(strands));
        buffer.put_line(writer, word, count)?;
    }
    buffer.flush_into(writer)
}

/// Reads words, a line each, and then a dump, and writes for each word, in its order, the word, a tab and its count in the dump, which is 0
/// where the dump does not list it; says how many words there are. Where strands are joined, a word is looked up under the lesser of it and
/// its reverse complement. All words are as long as those of the dump, or else refused; the dump is read once, a block of 64 KiB at a time,
/// and all words are held in memory, some 72 bytes each. Where it is given up, a front of the answers is out if a write failed, and else
/// nothing.
pub fn query<D: LineRead, Q: Read, W: Write>(
    alloc: Global,
    dump: &mut Counted<D>,
    words: &mut Counted<Q>,
    strands: Strands,
    writer: &mut Counted<W>,
) -> Result<u64, QueryError>
    ensures { IsQueryAnswer W.contents strands
        (inputs_of D.remaining Q.remaining dump.old words.old)
        (inputs_of D.remaining Q.remaining dump.new words.new) writer.old writer.new result }
{
    let asked = asked_words(alloc, words)?;
    let Ok(keys) = keys_of(alloc, &asked, strands) else {
        return Err(QueryError::Memory);
    };
    let counts = looked_up(alloc, dump, length_of(&asked), &keys)?;
    match put_answers(&asked, strands, &keys, &counts, writer) {
        Ok(()) => Ok(asked.len() as u64),
        Err(_) => Err(QueryError::Write),
    }
}
