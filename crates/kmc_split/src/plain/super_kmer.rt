//! The super-k-mers of a segment.
ghost use Rattle.std.specs.Prelude.{◌≡◌, ◌≤◌, length, IfOk};
ghost use Rattle.kmc_base.specs.Words.{windows};
ghost use Rattle.kmc_split.specs.CutSuperKmers.{IsCutInto, all_words};

use crate::cutting::{Scratch, cut};
use crate::signatures::MAX_M;
use crate::values::{SuperKmer, super_kmer};
use kmc_base::{MAX_K, Segment};
use std::alloc::{AllocError, Global};

/// The super-k-mers of a segment: the runs of its cut, in order.
pub fn super_kmers(
    alloc: Global,
    s: &Segment,
    k: usize,
    m: usize,
) -> Result<Vec<SuperKmer>, AllocError>
    requires some { 1 ≤ m }
    requires most { m ≤ MAX_M }
    requires within { m ≤ k }
    requires limit { k ≤ MAX_K }
    requires long { k ≤ length s.now.codes.items }
    ensures cut { IfOk result (λ found. IsCutInto k m s.now.codes.items found.items) }
    ensures words { IfOk result (λ found. all_words found.items ≡ windows k s.now.codes.items) }
{
    let mut scratch = Scratch::new(alloc);
    let mut runs = Vec::new(alloc);
    cut(&s.codes, k, m, &mut scratch, &mut runs)?;
    let mut found = Vec::new(alloc);
    for r in &runs {
        found.push(super_kmer(alloc, &s.codes, k, *r)?)?;
    }
    Ok(found)
}
