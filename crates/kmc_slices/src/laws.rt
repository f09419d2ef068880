//! Laws of slices, each the contract of a function that does nothing but call other laws.
ghost use Rattle.kmc_slices.specs.Laws.{FileTellsSlice, FilesAreWhole, OneSliceIsWhole, SlicesAreWhole, UnendedIsNoFile, WrittenSlicesAreCut, GatheredFilesAreRead};

use kmc_base::laws::body_has_one_list;
use kmc_count::laws::pieces_are_counted_as_reads;
use kmc_slice_files::laws::files_are_one;
use kmc_stage_two::laws::{bins_share_no_key, cut_reads_are_counted, held_reads_are_counted};
use kmc_store::laws::{empty_bins_hold_no_reads, merged_bins_hold_both};
use kmc_sum::laws::counts_add;

/// The merge of the dumps of all slices, each within the limits, is the dump of all the reads within the limits.
pub fn slices_are_whole()
    ensures { SlicesAreWhole }
{
    body_has_one_list();
    merged_bins_hold_both();
    empty_bins_hold_no_reads();
    held_reads_are_counted();
    bins_share_no_key();
}

/// The dump of the one slice of one is the dump of all the reads, as a plain run gives it.
pub fn one_slice_is_whole()
    ensures { OneSliceIsWhole }
{
    body_has_one_list();
    merged_bins_hold_both();
    empty_bins_hold_no_reads();
    held_reads_are_counted();
}

/// The same from the files: parts of reads, each cut to the files of slices, the files of each slice read and dumped, and the dumps
/// merged, give the dump of all the reads.
pub fn files_are_whole()
    ensures { FilesAreWhole }
{
    body_has_one_list();
    merged_bins_hold_both();
    empty_bins_hold_no_reads();
    held_reads_are_counted();
    bins_share_no_key();
    cut_reads_are_counted();
    pieces_are_counted_as_reads();
    counts_add();
    files_are_one();
}

/// A file tells its shape, the number of slices and its slice.
pub fn file_tells_slice()
    ensures { FileTellsSlice }
{
    files_are_one();
}

/// What a cut that is given up leaves without an end is no file of a slice.
pub fn unended_is_no_file()
    ensures { UnendedIsNoFile }
{
    files_are_one();
}

/// What [`cut_slices`](crate::slicing::cut_slices) wrote to files that were empty is the cut of the reads, of which `files_are_whole`
/// speaks.
pub fn written_slices_are_cut()
    ensures { WrittenSlicesAreCut }
{}

/// The records of files whose bytes are known, gathered by [`SliceRecords`](crate::gathering::SliceRecords), are what is read of these
/// files,
/// of which `files_are_whole` speaks.
pub fn gathered_files_are_read()
    ensures { GatheredFilesAreRead }
{}
