//! Sorted keys and their counts, noted word by word in the order of a dump.
ghost use Rattle.std.specs.Prelude.{◌≡◌, ◌<◌, ◌≤◌, ℕ, List, IfOk, IsSorted, Contains, length, cond, slice_index, slice_index_or, []};
ghost use Rattle.kmc_base.specs.Strands.{key};
ghost use Rattle.kmc_base.specs.Words.{kmer_cmp};
ghost use Rattle.kmc_count.specs.Occurrences.{same_word};
ghost use Rattle.kmc_join.specs.KeyCounts.{AreBelow, AreCounts, key_at};

use kmc_base::{Kmer, Strands};
use std::alloc::{AllocError, Global};
use std::cmp::Ordering;

/// The keys of the words, sorted; those of equal words each stand there.
pub(crate) fn keys_of(
    alloc: Global,
    words: &[Kmer],
    strands: Strands,
) -> Result<Vec<Kmer>, AllocError>
    ensures sorted { IfOk result (λ keys. IsSorted kmer_cmp keys.items) }
    ensures all { IfOk result (λ keys. (w : List ℕ) → Contains words.now w
        → Contains keys.items (key strands w)) }
{
    let mut keys = Vec::new(alloc);
    for word in words {
        keys.push(word.key(strands))?;
    }
    keys.sort()?;
    Ok(keys)
}

/// Notes the count of a word at each key that is the word, from a place on before which keys are below it, and says how many are.
pub(crate) fn note_count(
    keys: &[Kmer],
    counts: &mut [u64],
    from: usize,
    word: &Kmer,
    count: u64,
) -> usize
    requires within { from ≤ length keys.now }
    requires long { length counts.old ≡ length keys.now }
    requires sorted { IsSorted kmer_cmp keys.now }
    requires below { AreBelow keys.now from word.now }
    ensures within { result ≤ length keys.now }
    ensures below { AreBelow keys.now result word.now }
    ensures counts { (j : ℕ) → j < length keys.now → slice_index counts.new j
        ≡ cond (same_word word.now (key_at keys.now j)) count (slice_index counts.old j) }
{
    let mut below = from;
    for j in from..keys.len() {
        match keys[j].cmp(word) {
            Ordering::Less => below = j + 1,
            Ordering::Equal => counts[j] = count,
            Ordering::Greater => return below,
        }
    }
    below
}

/// The count of a key that stands there.
pub(crate) fn count_of(keys: &[Kmer], counts: &[u64], key: &Kmer) -> u64
    requires long { length counts.now ≡ length keys.now }
    requires sorted { IsSorted kmer_cmp keys.now }
    requires there { Contains keys.now key.now }
    ensures { (count : List ℕ → ℕ) → AreCounts count keys.now counts.now → result ≡ count key.now }
{
    match keys.binary_search(key) {
        Ok(place) => counts[place],
        Err(_) => 0,
    }
}
