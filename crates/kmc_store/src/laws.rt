//! Laws over the definitions alone. Each call does nothing: its contract is the law, for the proofs of its callers.
ghost use Rattle.kmc_store.specs.Laws.{MergedBinsHoldBoth, EmptyBinsHoldNoReads, GatheredPartsHoldReads, NoPartsAreAdded, AbsorbedPartIsAdded, MergedPartsAreAdded, HeldRecordsAreTheRuns};

use kmc_base::laws::body_has_one_list;
use kmc_split::laws::{cut_exists, cut_has_runs, cut_is_unique};

/// Bins that hold reads, merged with bins that hold more, hold both.
pub fn merged_bins_hold_both()
    ensures { MergedBinsHoldBoth }
{
    cut_exists();
    cut_is_unique();
}

/// Empty bins hold no reads.
pub fn empty_bins_hold_no_reads()
    ensures { EmptyBinsHoldNoReads }
{}

/// Bins that held other reads, with the bodies of what was got added, hold these reads too, where each writer has sent the
/// parts of its chunks, all of that was got once and nothing else, and the chunks are all these reads.
pub fn gathered_parts_hold_reads()
    ensures { GatheredPartsHoldReads }
{
    cut_exists();
    cut_is_unique();
    cut_has_runs();
}

/// Bins are themselves with the bodies of no parts added.
pub fn no_parts_are_added()
    ensures { NoPartsAreAdded }
{}

/// Where bins to which parts were added absorb one more, it is added behind them.
pub fn absorbed_part_is_added()
    ensures { AbsorbedPartIsAdded }
{}

/// Bins to which parts were added, merged with bins of other parts alone, are those to which both were added.
pub fn merged_parts_are_added()
    ensures { MergedPartsAreAdded }
{}

/// A byte list stands among the records of a bin as often as among the records of the runs of that bin.
pub fn held_records_are_the_runs()
    ensures { HeldRecordsAreTheRuns }
{
    body_has_one_list();
    cut_is_unique();
}
