//! Laws of the definitions, each the contract of a function that does nothing but call other laws.
ghost use Rattle.kmc_sum.specs.Laws.{CountsAdd, LinesFit, MergedTextsAreWhole, SumOfPartsIsWhole, TextListsOne};

use kmc_count::laws::{keys_of_reads_are_counted, one_dump};

/// The direct count of reads and then others is, word by word, the sum of their direct counts.
pub fn counts_add()
    ensures { CountsAdd }
{}

/// Dumps of the parts of reads, made with each count listed, are summed to the dump of all of the reads.
pub fn sum_of_parts_is_whole()
    ensures { SumOfPartsIsWhole }
{}

/// Each line of a dump fits where a line is looked for, so that none is refused for its length.
pub fn lines_fit()
    ensures { LinesFit }
{}

/// A text lists one list of pairs.
pub fn text_lists_one()
    ensures { TextListsOne }
{}

/// The texts of dumps of the parts of reads, made with each count listed, are merged to the one text of the dump of all of
/// the reads.
pub fn merged_texts_are_whole()
    ensures { MergedTextsAreWhole }
{
    keys_of_reads_are_counted();
    one_dump();
}
