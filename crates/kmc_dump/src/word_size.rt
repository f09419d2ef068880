//! How long words are.
ghost use Rattle.std.specs.Prelude.{◌≤◌};
ghost use Rattle.kmc_base.specs.declared.kmer.TheConstants.{MAX_K};

/// The k of k-mers.
#[derive(Clone, Copy)]
pub struct WordSize {
    /// The symbols of a word, 1 to [`kmc_base::MAX_K`].
    pub k: usize,
    pub ghost within: { (1 ≤ k) × (k ≤ MAX_K) },
}
