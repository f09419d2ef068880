//! Laws over the definitions alone. Each call does nothing: its contract is the law, for the proofs of its callers.
ghost use Rattle.kmc_split.specs.Laws.{SignatureFits, StrandsShareSignature, CanonicalFixesSignature, CutExists, CutIsUnique, CutKeepsWords, CutHasRuns};

/// Each signature of m-mers is at most 4^m.
pub fn signature_fits()
    ensures { SignatureFits }
{}

/// A word and its reverse complement have one signature, and so one bin.
pub fn strands_share_signature()
    ensures { StrandsShareSignature }
{}

/// Words with one canonical form have one signature: so equal canonical words share a bin.
pub fn canonical_fixes_signature()
    ensures { CanonicalFixesSignature }
{}

/// A segment has a cut.
pub fn cut_exists()
    ensures { CutExists }
{}

/// Two lists of runs that are the cut of one segment are equal.
pub fn cut_is_unique()
    ensures { CutIsUnique }
{}

/// The words of the runs of a cut, one after another, are the words of the segment in the order of their places.
pub fn cut_keeps_words()
    ensures { CutKeepsWords }
{}

/// Each run of a cut lies within the segment, has 1 to 256 words, and its signature is that of each of them.
pub fn cut_has_runs()
    ensures { CutHasRuns }
{}
