//! How reads are cut into parts.
ghost use Rattle.std.specs.Prelude.{◌≡◌, min, MatchOption};
ghost use Rattle.kmc_record.specs.Shapes.{Sizes, AreWithinLimits, IsShape};

use kmc_base::MAX_K;
use kmc_split::MAX_M;
use std::marker::Model;

/// The most bins; every limit on bins is this one.
pub const MOST_BINS: usize = 2000;

/// The fewest symbols that a signature may be asked to have.
pub const LEAST_P: usize = 5;

/// The number k of symbols of a word, the number m of symbols of the m-mers that signatures are made of, and the
/// number n of bins.
#[derive(Clone, Copy, Debug, PartialEq, Eq)]
pub struct Shape {
    k: usize,
    m: usize,
    n: usize,
}

impl Model for Shape {
    ghost use Rattle.kmc_record.specs.Shapes.{Sizes, IsShape};

    ghost Value = { Sizes };

    ghost view = { λ a. record { k = a.k; m = a.m; n = a.n } };

    ghost invariant = { λ a. IsShape a.k a.m a.n };

    ghost inverse = { λ s. record { k = s.k; m = s.m; n = s.n } };
}

impl Shape {
    /// The shape for words of 1 to 64 symbols, m-mers of p symbols, 5 to 11, or of k where that is less, and 1 to 2000
    /// bins; none beyond these limits.
    pub fn new(k: usize, p: usize, n: usize) -> Option<Shape>
        ensures { MatchOption result (¬ (AreWithinLimits k p n))
            (λ s. (s.k ≡ k) × (s.m ≡ min p k) × (s.n ≡ n) × AreWithinLimits k p n) }
    {
        let words = 1 <= k && k <= MAX_K;
        let mmers = LEAST_P <= p && p <= MAX_M;
        if words && mmers && 1 <= n && n <= MOST_BINS {
            Some(Shape { k, m: p.min(k), n })
        } else {
            None
        }
    }

    /// The shape for words of 1 to 64 symbols, m-mers of m symbols, 0 to 11 and at most k, and 1 to 2000 bins; none beyond these
    /// limits. A run that is not asked for a length of signatures takes one of its own, and a file that was cut before tells its own.
    pub fn of_signature_length(k: usize, m: usize, n: usize) -> Option<Shape>
        ensures { MatchOption result (¬ (IsShape k m n))
            (λ s. (s ≡ record { k = k; m = m; n = n }) × IsShape k m n) }
    {
        let words = 1 <= k && k <= MAX_K;
        let mmers = m <= MAX_M && m <= k;
        if words && mmers && 1 <= n && n <= MOST_BINS {
            Some(Shape { k, m, n })
        } else {
            None
        }
    }

    /// How many symbols a word has.
    pub fn k(&self) -> usize
        ensures is { result ≡ self.now.k }
        ensures shape { IsShape self.now.k self.now.m self.now.n }
    {
        self.k
    }

    /// How many symbols the m-mers have that signatures are made of, 0 to 11: with none all words are of one signature.
    pub fn m(&self) -> usize
        ensures is { result ≡ self.now.m }
        ensures shape { IsShape self.now.k self.now.m self.now.n }
    {
        self.m
    }

    /// How many bins there are.
    pub fn n(&self) -> usize
        ensures is { result ≡ self.now.n }
        ensures shape { IsShape self.now.k self.now.m self.now.n }
    {
        self.n
    }
}
