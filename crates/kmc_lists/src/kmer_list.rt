//! A list of pairs in packed form: words in one vector, what is shown of their counts in another.
ghost use Rattle.std.specs.Prelude.{◌≡◌, ℕ, ◌+◌, ◌^◌, ◌<◌, ◌≤◌, List, [], ◌∷◌, ◌++◌, length, map, All, ◌*◌, ◌/◌, OnOk, OnErr, IfOk, slice_index_or};
ghost use Rattle.kmc_lists.specs.Ordered.{Climbs, IsCutOfList};

use crate::count_width::CountWidth;
use crate::pair_list::PairList;
use kmc_base::{KeyRule, MAX_K, PackedKmer};
use std::alloc::{AllocError, Global};
use std::marker::Model;

/// A list of words of k codes and what is shown of their counts, in as many bytes as the two numbers have. Contracts see k and
/// the list of the pairs of numbers; `pairs_of` spells the words.
#[derive(Drop)]
pub struct KmerList<W: PackedKmer, C: CountWidth> {
    k: usize,
    words: Vec<W>,
    counts: Vec<C>,
}

impl<W: PackedKmer, C: CountWidth> Model for KmerList<W, C> {
    ghost use Rattle.std.specs.Prelude.{map};
    ghost use Rattle.std.specs.List.{zip};
    ghost use Rattle.kmc_lists.specs.Listed.{Listed, AreBeside};

    ghost Value = { Listed };

    ghost view = { λ c. record { k = c.k; packed = zip (map W.number c.words.items) (map C.count c.counts.items) } };

    ghost invariant = { λ c. AreBeside c.k (map W.number c.words.items) (map C.count c.counts.items) };
}

impl<W: PackedKmer + Drop, C: CountWidth + Drop> KmerList<W, C> {
    /// A list with no pair, which takes no memory.
    pub fn new(alloc: Global, k: usize) -> KmerList<W, C>
        requires some { 1 ≤ k }
        requires most { k ≤ MAX_K }
        ensures { result ≡ record { k = k; packed = [] } }
    {
        KmerList {
            k,
            words: Vec::new(alloc),
            counts: Vec::new(alloc),
        }
    }

    /// How many codes each word has.
    pub fn k(&self) -> usize
        ensures is { result ≡ self.now.k }
        ensures some { 1 ≤ result }
        ensures most { result ≤ MAX_K }
        ensures fit { All (λ p. p.0 < 4 ^ self.now.k) self.now.packed }
    {
        self.k
    }

    /// How many pairs.
    pub fn len(&self) -> usize
        ensures { result ≡ length self.now.packed }
    {
        self.words.len()
    }

    /// The word and the count at a place.
    pub fn get(&self, i: usize) -> (W, C)
        requires { i < length self.now.packed }
        ensures { (d : _) → (W.number result.0, C.count result.1)
            ≡ slice_index_or self.now.packed i d }
    {
        (self.words[i], self.counts[i])
    }

    /// How many pairs, from the first on, lie below a slot, by a binary search. The slot of a word is the word without its last
    /// `shift` bits.
    pub fn below(&self, shift: u32, slot: u128) -> usize
        requires rise { Climbs self.now.packed }
        requires shift { shift < 128 }
        ensures { IsCutOfList (2 ^ shift) slot result self.now.packed }
    {
        self.words
            .partition_point(|word| word.to_u128() >> shift < slot)
    }

    /// Appends a pair. Where a growth is refused the list stays as it was.
    pub fn push(&mut self, word: W, count: C) -> Result<(), AllocError>
        requires { W.number word < 4 ^ self.old.k }
        ensures ok { OnOk result (self.new
            ≡ record { k = self.old.k; packed = self.old.packed ++ (W.number word, C.count count) ∷ [] }) }
        ensures err { OnErr result (self.new ≡ self.old) }
    {
        self.words.push(word)?;
        match self.counts.push(count) {
            Ok(()) => Ok(()),
            Err(error) => {
                self.words.pop();
                Err(error.into())
            }
        }
    }

    /// The pairs of this list and behind them those of another of words of as many codes.
    pub fn joined(self, other: KmerList<W, C>) -> Result<KmerList<W, C>, AllocError>
        requires { other.k ≡ self.k }
        ensures { IfOk result (λ c. c ≡ record { k = self.k; packed = self.packed ++ other.packed }) }
    {
        let KmerList {
            k,
            mut words,
            mut counts,
        } = self;
        let KmerList {
            words: mut more_words,
            counts: mut more_counts,
            ..
        } = other;
        words.append(&mut more_words)?;
        counts.append(&mut more_counts)?;
        Ok(KmerList { k, words, counts })
    }

    /// Gives back the memory that the pairs do not need.
    pub fn shrink(&mut self)
        ensures { self.new ≡ self.old }
    {
        self.words.shrink_to_fit();
        self.counts.shrink_to_fit();
    }
}

impl<W: PackedKmer + Drop, C: CountWidth + Drop> PairList<W> for KmerList<W, C> {
    ghost use Rattle.kmc_lists.specs.Listed.{pairs_of, IsListOf};

    ghost pairs = { pairs_of };

    ghost takes = { IsListOf };

    ghost greatest = { C.greatest };

    fn push_pair(&mut self, word: W, _rule: KeyRule, shown: u64) -> Result<(), AllocError> {
        self.push(word, C::narrow(shown))?;
        Ok(())
    }
}
