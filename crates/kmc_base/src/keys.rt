//! Which of a word and its reverse complement is the key.
ghost use Rattle.std.specs.Prelude.{◌≡◌};
ghost use Rattle.kmc_base.specs.Strands.{packed_key};

use crate::packed_kmer::PackedKmer;
use crate::strands::Strands;

/// Which of a packed word and its packed reverse complement is the key.
pub fn packed_key<W: PackedKmer + Drop>(strands: Strands, forward: W, back: W) -> W
    ensures { W.number result ≡ packed_key strands (W.number forward) (W.number back) }
{
    match strands {
        Strands::Joined => forward.lesser(back),
        Strands::Apart => forward,
    }
}
