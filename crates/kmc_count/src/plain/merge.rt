//! The one list of the pairs of all bins.
ghost use Rattle.std.specs.Prelude.{◌≡◌, map, IfOk};
ghost use Rattle.std.specs.List.Sorted.{IsPermutation, IsSortedBy};
ghost use Rattle.std.specs.Ordering.{is_lt};
ghost use Rattle.kmc_base.specs.Words.{kmer_cmp};
ghost use Rattle.kmc_count.specs.Dump.{words_of};
ghost use Rattle.kmc_count.specs.Merge.{joined, AreApart, EachRises, IsMerged};

use kmc_base::Kmer;
use std::alloc::{AllocError, Global};

/// The pairs of the lists, one list after the other, in a vector that is reserved once. Each list is freed
/// when its pairs have moved.
fn join(alloc: Global, lists: Vec<Vec<(Kmer, u64)>>) -> Result<Vec<(Kmer, u64)>, AllocError>
    ensures { IfOk result (λ pairs. pairs.items ≡ joined (map (λ l. l.items) lists.items)) }
{
    let mut total: usize = 0;
    for list in &lists {
        total = total.saturating_add(list.len());
    }
    let mut pairs = Vec::with_capacity(alloc, total)?;
    for list in lists {
        let mut list = list;
        pairs.append(&mut list)?;
    }
    Ok(pairs)
}

/// Sorts the pairs by their words in place.
fn sort_pairs(pairs: &mut [(Kmer, u64)])
    ensures moved { IsPermutation pairs.old pairs.new }
    ensures sorted { IsSortedBy (λ p q. is_lt (kmer_cmp p.0 q.0)) pairs.new }
{
    pairs.sort_unstable_by(|a, b| a.0.cmp(&b.0));
}

/// All pairs of the lists, rising by their words. The lists are those of bins: each rises, and no word stands
/// in two of them. They are sorted in place, in the one vector that they have moved to. A dump is written without
/// such a list by kmc_dump.
pub fn merge_bins(
    alloc: Global,
    lists: Vec<Vec<(Kmer, u64)>>,
) -> Result<Vec<(Kmer, u64)>, AllocError>
    requires rise { EachRises (map (λ l. l.items) lists.items) }
    requires apart { AreApart (map words_of (map (λ l. l.items) lists.items)) }
    ensures { IfOk result (λ pairs. IsMerged (map (λ l. l.items) lists.items) pairs.items) }
{
    let mut pairs = join(alloc, lists)?;
    sort_pairs(&mut pairs);
    Ok(pairs)
}
