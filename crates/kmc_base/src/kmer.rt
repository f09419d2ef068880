//! K-mers: words over the four bases, packed in one number.
ghost use Rattle.std.specs.Prelude.{◌≡◌, ℕ, ◌+◌, ◌*◌, ◌^◌, ◌<◌, ◌≤◌, List, length, drop, MatchOption, slice_index, ◌++◌, map, OnOk, OnErr};
ghost use Rattle.std.proofs.Common.{rules};
ghost use Rattle.std.specs.Cmp.{partial_order_from_own_ties};
ghost use Rattle.std.specs.Cmp.Rules.{comparing};
ghost use Rattle.std.specs.Ordering.{as_partial_cmp};
ghost use Rattle.kmc_base.specs.Words.{IsKmer, rev_comp, canonical, letter, kmer_cmp, window};
ghost use Rattle.kmc_base.specs.Strands.{key};
ghost use Rattle.kmc_base.specs.Packed.{unpack};

use crate::letters::write_four;
use crate::packed_kmer::PackedKmer;
use crate::strands::Strands;
use std::alloc::AllocError;
use std::cmp::Ordering;
use std::marker::Model;

/// The most symbols that a k-mer has; every limit on k in the program is this one.
pub const MAX_K: usize = 64;

/// A word of 1 to [`MAX_K`] codes, which contracts see as the list of its codes.
#[derive(Clone, Copy)]
pub struct Kmer {
    k: u8,
    packed: u128,
}

impl Model for Kmer {
    ghost use Rattle.std.specs.Prelude.{ℕ, List, length};
    ghost use Rattle.kmc_base.specs.Packed.{unpack, pack, IsPacked};
    ghost use Rattle.kmc_base.specs.Lemmas.Packing.{pack_unpack};

    ghost Value = { List ℕ };

    ghost view = { λ a. unpack a.k a.packed };

    ghost invariant = { IsPacked };

    ghost inverse = { λ w. record { k = length w; packed = pack w } };

    ghost inverse_ok = { pack_unpack };
}

impl PartialEq for Kmer {
    ghost use Rattle.std.specs.Prelude.{nat_eq};
    ghost use Rattle.std.specs.Cmp.Lexicographic.{pointwise};

    ghost eq = { pointwise nat_eq };

    ghost laws = { Prim.search (comparing, rules) };

    fn eq(&self, other: &Kmer) -> bool {
        self.k == other.k && self.packed == other.packed
    }
}

impl Eq for Kmer {
    ghost laws = { Prim.search (comparing, rules) };
}

impl PartialOrd for Kmer {
    ghost partial_cmp = { as_partial_cmp kmer_cmp };

    ghost laws = { partial_order_from_own_ties (Prim.search (comparing, rules)) (Prim.search (comparing, rules)) };

    fn partial_cmp(&self, other: &Kmer) -> Option<Ordering> {
        Some(self.cmp(other))
    }
}

impl Ord for Kmer {
    ghost cmp = { kmer_cmp };

    ghost total = { Prim.search (comparing, rules) };

    ghost matches_partial_cmp = { Prim.search (comparing, rules) };

    ghost matches_eq = { Prim.search (comparing, rules) };

    fn cmp(&self, other: &Kmer) -> Ordering {
        self.k.cmp(&other.k).then(self.packed.cmp(&other.packed))
    }
}

impl Kmer {
    /// The word of k codes that is packed in a number.
    pub fn of_packed(packed: u128, k: usize) -> Kmer
        requires some { 1 ≤ k }
        requires most { k ≤ MAX_K }
        requires fits { packed < 4 ^ k }
        ensures { result ≡ unpack k packed }
    {
        Kmer { k: k as u8, packed }
    }

    /// The word of these codes, where they are 1 to [`MAX_K`] and none is above 3.
    pub fn new(codes: &[u8]) -> Option<Kmer>
        ensures { MatchOption result (¬ (IsKmer codes.now))
            (λ w. (w ≡ codes.now) × IsKmer codes.now) }
    {
        if codes.is_empty() || codes.len() > MAX_K {
            return None;
        }
        let mut packed: u128 = 0;
        for c in codes {
            if *c > 3 {
                return None;
            }
            packed = packed * 4 + u128::from(*c);
        }
        Some(Kmer {
            k: codes.len() as u8,
            packed,
        })
    }

    /// How many codes.
    #[tactic(auto, using(crate::specs::Lemmas::Packing::length_unpack))]
    pub fn k(&self) -> usize
        ensures is { result ≡ length self.now }
        ensures some { 1 ≤ result }
        ensures most { result ≤ MAX_K }
    {
        self.k as usize
    }

    /// The code at a place.
    pub fn code_at(&self, i: usize) -> u8
        requires { i < length self.now }
        ensures is { result ≡ slice_index self.now i }
        ensures small { result < 4 }
    {
        let after = self.k as usize - 1 - i;
        ((self.packed >> (2 * after)) % 4) as u8
    }

    /// Writes the letters of the word to the front of a buffer.
    pub fn write_letters(&self, out: &mut [u8])
        requires { length self.now ≤ length out.old }
        ensures { out.new ≡ map letter self.now ++ drop (length self.now) out.old }
    {
        let k = self.k();
        let whole = k / 4;
        let mut rest = self.packed;
        'words: for j in 0..whole {
            write_four(out, k - 4 - 4 * j, (rest % 256) as u8);
            rest /= 256;
        }
        'head: for j in 4 * whole..k {
            out[k - 1 - j] = letter_of((rest % 4) as u8);
            rest /= 4;
        }
    }

    /// Appends the letters of the word.
    pub fn push_text(&self, out: &mut Vec<u8>) -> Result<(), AllocError>
        ensures ok { OnOk result (out.new.items ≡ out.old.items ++ map letter self.now) }
        ensures err { OnErr result (out.new.items ≡ out.old.items) }
    {
        let mut letters = [0; MAX_K];
        let k = self.k();
        self.write_letters(&mut letters);
        out.extend_from_slice(&letters[..k])
    }

    /// The complements of the codes, the last first.
    pub fn rev_comp(&self) -> Kmer
        ensures { result ≡ rev_comp self.now }
    {
        let mut rest = self.packed;
        let mut packed: u128 = 0;
        for _i in 0..self.k {
            packed = packed * 4 + (3 - rest % 4);
            rest /= 4;
        }
        Kmer { k: self.k, packed }
    }

    /// The m codes from place i on.
    pub fn sub(&self, i: usize, m: usize) -> Kmer
        requires some { 1 ≤ m }
        requires inside { i + m ≤ length self.now }
        ensures { result ≡ window m self.now i }
    {
        let after = self.k() - i - m;
        let packed = (self.packed >> (2 * after)) & u128::ones(m);
        Kmer { k: m as u8, packed }
    }

    /// The lesser of the word and its reverse complement.
    pub fn canon(&self) -> Kmer
        ensures { result ≡ canonical self.now }
    {
        let other = self.rev_comp();
        if other.packed < self.packed {
            other
        } else {
            *self
        }
    }

    /// The word under which this one is counted.
    pub fn key(&self, strands: Strands) -> Kmer
        ensures { result ≡ key strands self.now }
    {
        match strands {
            Strands::Joined => self.canon(),
            Strands::Apart => *self,
        }
    }
}

/// The upper-case letter of a code.
pub fn letter_of(c: u8) -> u8
    requires { c < 4 }
    ensures { result ≡ letter c }
{
    LETTERS[c as usize]
}

const LETTERS: [u8; 4] = *b"ACGT";
