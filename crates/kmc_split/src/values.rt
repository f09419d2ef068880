//! Super-k-mers.
ghost use Rattle.std.specs.Prelude.{◌≡◌, ◌+◌, ◌-◌, ◌<◌, ◌≤◌, ◌↔◌, length, MatchOption, IfOk, IsTrue};
ghost use Rattle.std.specs.List.{All};
ghost use Rattle.kmc_base.specs.Words.{window};
ghost use Rattle.kmc_split.specs.Signature.{bin_of};
ghost use Rattle.kmc_split.specs.SuperKmer.{IsSuperKmer, super_kmer_words};
ghost use Rattle.kmc_split.specs.SuperKmers.{super_kmer_of_run};

use crate::belonging::{BelongingRoom, words_in_bin};
use crate::runs::Run;
use crate::signatures::MAX_M;
use kmc_base::{Kmer, MAX_K};
use std::alloc::{AllocError, Global};
use std::marker::Model;

/// How many symbols a super-k-mer may have above k.
const MOST_ABOVE: usize = 255;

/// Overlapping words of k symbols, 1 to 256 of them, which contracts see as k and the codes that they stand in.
#[derive(Debug, Drop)]
pub struct SuperKmer {
    k: usize,
    codes: Vec<u8>,
}

impl Model for SuperKmer {
    ghost use Rattle.kmc_split.specs.SuperKmer.{SuperKmerValue, IsSuperKmer};

    ghost Value = { SuperKmerValue };

    ghost view = { λ a. record { k = a.k; codes = a.codes.items } };

    ghost invariant = { λ a. IsSuperKmer a.k a.codes.items };
}

impl SuperKmer {
    /// The super-k-mer of these codes, where k and their number are within the limits and none is above 3. The codes
    /// are dropped where there is none.
    pub fn new(codes: Vec<u8>, k: usize) -> Option<SuperKmer>
        ensures { MatchOption result (¬ (IsSuperKmer k codes.items))
            (λ s. (s.k ≡ k) × (s.codes ≡ codes.items) × IsSuperKmer k codes.items) }
    {
        let long = k <= codes.len() && codes.len() - k <= MOST_ABOVE;
        let fits = 1 <= k && k <= MAX_K && long;
        if fits && codes.iter().all(|c| *c < 4) {
            Some(SuperKmer { k, codes })
        } else {
            None
        }
    }

    /// How many symbols its words have.
    pub fn k(&self) -> usize
        ensures is { result ≡ self.now.k }
        ensures some { 1 ≤ result }
        ensures most { result ≤ MAX_K }
    {
        self.k
    }

    /// All its codes.
    pub fn codes(&self) -> &[u8]
        ensures are { result.now ≡ self.now.codes }
        ensures kept { IsSuperKmer self.now.k self.now.codes }
    {
        &self.codes
    }

    /// How many words it has, 1 to 256.
    pub fn words(&self) -> usize
        ensures is { result ≡ length (super_kmer_words self.now) }
        ensures count { result + self.now.k ≡ length self.now.codes + 1 }
        ensures some { 1 ≤ result }
        ensures most { result ≤ 256 }
    {
        self.codes.len() - self.k + 1
    }

    /// Whether the signature of each of its words has this bin, of n bins. The signatures are of m symbols, 0 to 11 and at most as
    /// many as a word has. It makes nothing in memory.
    pub fn in_bin(&self, m: usize, n: usize, bin: usize) -> bool
        requires most { m ≤ MAX_M }
        requires within { m ≤ self.now.k }
        requires bins { 1 ≤ n }
        ensures { IsTrue result ↔ All (λ w. bin_of m n w ≡ bin) (super_kmer_words self.now) }
    {
        words_in_bin(self.codes(), self.k(), m, n, bin, &mut BelongingRoom::new())
    }

    /// The word at a place.
    pub fn word_at(&self, i: usize) -> Kmer
        requires { i + self.now.k ≤ length self.now.codes }
        ensures { result ≡ window self.now.k self.now.codes i }
    {
        match Kmer::new(&self.codes[i..i + self.k]) {
            Some(w) => w,
            None => unreachable!(),
        }
    }
}

/// The super-k-mer of a run.
pub fn super_kmer(alloc: Global, codes: &[u8], k: usize, r: Run) -> Result<SuperKmer, AllocError>
    requires some { 1 ≤ k }
    requires limit { k ≤ MAX_K }
    requires codes { All (λ c. c < 4) codes.now }
    requires words { 1 ≤ r.words }
    requires most { r.words ≤ 256 }
    requires inside { r.start + (r.words + (k - 1)) ≤ length codes.now }
    ensures { IfOk result (λ s. s ≡ super_kmer_of_run k codes.now r) }
{
    let mut own = Vec::new(alloc);
    own.extend_from_slice(&codes[r.start..r.start + (r.words + (k - 1))])?;
    Ok(SuperKmer { k, codes: own })
}
