//! Laws of packed lists, and of counting by bins, each the contract of a function that does nothing but call other laws.
ghost use Rattle.kmc_stage_two.specs.Laws.{WholeIsMerged, PackedDumpsAreOne, HeldReadsAreCounted, CutReadsAreCounted, BinsShareNoKey};

use kmc_base::laws::{body_has_one_list, keys_of_segments, segments_are_maximal};
use kmc_count::laws::{dumps_can_be_merged, keys_of_reads_are_counted, merged_dumps_are_one};
use kmc_split::laws::{canonical_fixes_signature, cut_keeps_words};

/// The pairs of lists that can be merged, in the order of their words, are their merged list.
pub fn whole_is_merged()
    ensures { WholeIsMerged }
{}

/// The dumps of lists of words that share none can be merged, and their whole is the dump of all the words.
pub fn packed_dumps_are_one()
    ensures { PackedDumpsAreOne }
{
    dumps_can_be_merged();
    merged_dumps_are_one();
}

/// In bins that hold reads a word has as many places as in the reads.
pub fn held_reads_are_counted()
    ensures { HeldReadsAreCounted }
{
    segments_are_maximal();
    keys_of_segments();
    cut_keeps_words();
    body_has_one_list();
    keys_of_reads_are_counted();
}

/// Reads and their pieces that overlap by k - 1 symbols have one direct count.
pub fn cut_reads_are_counted()
    ensures { CutReadsAreCounted }
{}

/// The keys of different bins differ: equal keys share a bin.
pub fn bins_share_no_key()
    ensures { BinsShareNoKey }
{
    canonical_fixes_signature();
    body_has_one_list();
}
