//! The keys of all words of a list of codes, from one pass.
ghost use Rattle.std.specs.Prelude.{◌≡◌, ◌<◌, ◌≤◌, ◌++◌, All, map, OnOk};
ghost use Rattle.kmc_base.specs.Packed.{pack};
ghost use Rattle.kmc_base.specs.Strands.{keys};

use crate::keys::packed_key;
use crate::packed_kmer::PackedKmer;
use crate::strands::Strands;
use std::alloc::AllocError;

/// Appends the packed keys of the words of k codes, in the order of their places; of fewer codes than k there
/// are none. The window rolls: each code costs the same few steps, whatever k is.
pub fn push_keys<W: PackedKmer + Drop>(
    words: &mut Vec<W>,
    codes: &[u8],
    k: usize,
    strands: Strands,
) -> Result<(), AllocError>
    requires some { 1 ≤ k }
    requires most { k ≤ W.most }
    requires codes { All (λ c. c < 4) codes.now }
    ensures { OnOk result (map W.number words.new.items
        ≡ map W.number words.old.items ++ map pack (keys strands k codes.now)) }
{
    let top = W::top(k);
    let mut forward = W::zero();
    let mut back = W::ones(k);
    for i in 0..codes.len() {
        let code = codes[i];
        forward = forward.ahead(code, top);
        back = back.behind(code, top);
        if i + 1 >= k {
            words.push(packed_key(strands, forward, back))?;
        }
    }
    Ok(())
}
