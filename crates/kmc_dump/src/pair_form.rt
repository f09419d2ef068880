//! How a word and its count are written.
ghost use Rattle.std.specs.Prelude.{◌≡◌, ⊤, ℕ, ◌+◌, ◌^◌, ◌<◌, ◌≤◌, List, ◌++◌, length, take, decimal};
ghost use Rattle.kmc_base.specs.Packed.{unpack};
ghost use Rattle.kmc_lists.specs.Line.{line_of, line_room};
ghost use Rattle.kmc_dump.specs.Lemmas.Lines.{line_most};

use kmc_base::{Kmer, MAX_K};
use kmc_lists::{DIGITS, line_room, put_line};

/// How a word and its count are written: as a line of text, or as a row of bytes.
pub trait PairForm {
    // Words of so many codes are written in this form.
    ghost takes: { Self → ℕ → Type 0 };

    // The bytes of a word, given by its codes, and its count.
    ghost bytes: { Self → List ℕ × ℕ → List ℕ };

    // The most bytes of a word of so many codes and a count of so many digits.
    ghost most: { Self → ℕ → ℕ → ℕ };

    /// The most bytes of a word of `k` codes and a count of so many digits.
    fn room(&self, k: usize, digits: usize) -> usize
        requires long { k ≤ MAX_K }
        requires few { digits ≤ DIGITS }
        requires takes { takes self.now k }
        ensures { result ≡ most self.now k digits };

    /// Puts the bytes of a packed word and its count behind the first `at`, and says where they end.
    fn put(&self, text: &mut [u8], at: usize, packed: u128, k: usize, count: u64) -> usize
        requires some { 1 ≤ k }
        requires long { k ≤ MAX_K }
        requires fits { packed < 4 ^ k }
        requires takes { takes self.now k }
        requires room { at + length (bytes self.now (unpack k packed, count)) ≤ length text.old }
        ensures bytes { take result text.new ≡ take at text.old ++ bytes self.now (unpack k packed, count) }
        ensures end { result ≡ at + length (bytes self.now (unpack k packed, count)) };

    // No word and count of these sizes have more bytes.
    ghost enough: { (form : Self) (k digits : ℕ) (p : List ℕ × ℕ) → takes form k → length p.0 ≡ k → length (decimal p.1) ≤ digits
        → length (bytes form p) ≤ most form k digits };
}

/// Lines of a text: the letters of a word, a tab, the digits of its count, a line feed.
#[derive(Clone, Copy)]
pub struct Lines;

impl PairForm for Lines {
    ghost takes = { λ _ _. ⊤ };

    ghost bytes = { λ _. line_of };

    ghost most = { λ _. line_room };

    fn room(&self, k: usize, digits: usize) -> usize {
        line_room(k, digits)
    }

    #[inline(always)]
    fn put(&self, text: &mut [u8], at: usize, packed: u128, k: usize, count: u64) -> usize {
        put_line(text, at, &Kmer::of_packed(packed, k), count)
    }

    ghost enough = { λ _ k digits p _ long short. line_most k digits p long short };
}
