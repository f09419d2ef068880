//! One k-mer of a list of counts.
ghost use Rattle.std.specs.Prelude.{◌≢◌, IfSome, IsNone, All};
ghost use Rattle.std.specs.List.{Contains};

use kmc_base::Kmer;

/// What the list shows of a k-mer, or nothing where it is not listed.
pub fn shown_of(pairs: &[(Kmer, u64)], word: &Kmer) -> Option<u64>
    ensures listed { IfSome result (λ count. Contains pairs.now (word.now, count)) }
    ensures missing { IsNone result → All (λ p. p.0 ≢ word.now) pairs.now }
{
    for (listed, count) in pairs {
        if listed == word {
            return Some(*count);
        }
    }
    None
}
