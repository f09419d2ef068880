//! The direct count: every word of every read in one list, sorted.
ghost use Rattle.std.specs.Prelude.{◌≡◌, ◌≤◌, ◌++◌, map, IfOk, OnOk};
ghost use Rattle.kmc_base.specs.Packed.{pack};
ghost use Rattle.kmc_base.specs.Places.{counted_words};
ghost use Rattle.kmc_base.specs.Strands.{placed_key};
ghost use Rattle.kmc_count.specs.Occurrences.{count_of};
ghost use Rattle.kmc_count.specs.Dump.{IsDump};

use crate::limits::Limits;
use crate::plain::words::tally_words;
use kmc_base::{KeyRule, Kmer, MAX_K, PackedKmer, Strands, push_keys, segments};
use std::alloc::{AllocError, Global};

/// The most symbols of a k-mer that 64 bits hold.
pub(crate) const NARROW_K: usize = 32;

/// Appends the packed keys of the words at the counted places of a read.
fn push_read<W: PackedKmer + Drop>(
    alloc: Global,
    words: &mut Vec<W>,
    read: &[u8],
    rule: KeyRule,
) -> Result<(), AllocError>
    requires { rule.k ≤ W.most }
    ensures { OnOk result (map W.number words.new.items
        ≡ map W.number words.old.items
        ++ map pack (map (placed_key rule.strands) (counted_words rule.k read.now))) }
{
    let stretches = segments(alloc, read, rule.k)?;
    for segment in &stretches {
        push_keys(words, &segment.codes, rule.k, rule.strands)?;
    }
    Ok(())
}

/// The dump of the reads, over words of one width.
fn count_at<W: PackedKmer + Drop>(
    alloc: Global,
    reads: &[Vec<u8>],
    rule: KeyRule,
    limits: &Limits,
) -> Result<Vec<(Kmer, u64)>, AllocError>
    requires { rule.k ≤ W.most }
    ensures { IfOk result (λ pairs. IsDump
        (count_of rule.strands rule.k (map (λ r. r.items) reads.now)) limits.now pairs.items) }
{
    let mut words: Vec<W> = Vec::new(alloc);
    for read in reads {
        push_read(alloc, &mut words, read, rule)?;
    }
    W::sort(&mut words);
    let mut pairs = Vec::new(alloc);
    tally_words(&mut pairs, &words, rule, limits)?;
    Ok(pairs)
}

/// The dump of the reads: each key of a word at a counted place, rising, with the number of those places as
/// far as the limits list it. This is the definition's own program; it takes 8 bytes a word, 16 above k = 32.
pub fn count_direct(
    alloc: Global,
    reads: &[Vec<u8>],
    k: usize,
    strands: Strands,
    limits: &Limits,
) -> Result<Vec<(Kmer, u64)>, AllocError>
    requires some { 1 ≤ k }
    requires most { k ≤ MAX_K }
    ensures { IfOk result (λ pairs. IsDump
        (count_of strands k (map (λ r. r.items) reads.now)) limits.now pairs.items) }
{
    let rule = KeyRule { k, strands };
    if k <= NARROW_K {
        count_at::<u64>(alloc, reads, rule, limits)
    } else {
        count_at::<u128>(alloc, reads, rule, limits)
    }
}
