//! How words become keys.
ghost use Rattle.std.specs.Prelude.{◌≤◌};
ghost use Rattle.kmc_base.specs.declared.kmer.TheConstants.{MAX_K};

use crate::strands::Strands;

/// The rule by which the words of reads become the keys that are counted: how long the words are, and whether a word and
/// its reverse complement are one key.
#[derive(Clone, Copy)]
pub struct KeyRule {
    /// The symbols of a word, 1 to [`crate::kmer::MAX_K`].
    pub k: usize,
    /// Whether a word and its reverse complement are one key.
    pub strands: Strands,
    pub ghost within: { (1 ≤ k) × (k ≤ MAX_K) },
}
