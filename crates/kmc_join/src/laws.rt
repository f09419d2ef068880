//! Laws of the definitions, each the contract of a function that does nothing.
ghost use Rattle.kmc_join.specs.Laws.{HistogramsAdd, NothingIsTallied, TallyIsHistogram, UnionBySumIsMerge};

/// The histogram of the pairs of two lists that share no word is, count by count, the sum of the histograms of each.
pub fn histograms_add()
    ensures { HistogramsAdd }
{}

/// The union of two dumps by the sum of their counts, of which each is taken, is what `kmc_merge` makes of the two.
pub fn union_by_sum_is_merge()
    ensures { UnionBySumIsMerge }
{}

/// An empty map has seen no count.
pub fn nothing_is_tallied()
    ensures { NothingIsTallied }
{}

/// The rows of a map that tells of each count how many of the pairs have it are their histogram.
pub fn tally_is_histogram()
    ensures { TallyIsHistogram }
{}
