//! Packed lists of words and counts, and the lines of a dump. It stands on kmc_base for words and on kmc_device for what lines are
//! written to. The layers above use that a list is the pairs pushed, that a refused growth leaves it as it was, how many of its pairs
//! lie below a word, and that a line is the text of its pair.
#![tactic(auto)]

mod bin_lists;
mod count_width;
mod kmer_list;
mod line;
mod pair_list;

pub use bin_lists::{BinLists, SizedLists};
pub use count_width::CountWidth;
pub use kmer_list::KmerList;
pub use line::{DIGITS, LINE, ROOM, line_room, make_room, put_line};
pub use pair_list::PairList;
