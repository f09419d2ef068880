//! Stage two: bins become lists. Each bin is counted by the thread that took it, the largest first, and one that holds most of the
//! words by all threads together. It stands on kmc_count for the count of a body, on kmc_lists for lists, on kmc_store for what bins
//! hold. The layer above uses that the list of a bin is the dump of its words, and that the dumps of bins, which share no word, are one
//! dump in order; and it learns from `laws` that in bins that hold reads a word has as many places as in the reads.
#![tactic(auto)]

mod bins;
mod body;
mod count_rule;
mod giants;
mod group;
mod largest_first;
pub mod laws;
mod listing;
mod lists;
mod merging;
mod placed;
mod row;
mod share;
mod shared;
mod taking;

pub use bins::list_bodies;
pub use count_rule::CountRule;
pub use largest_first::LargestFirst;
pub use listing::{lists_of_bins, lists_of_bodies};
pub use lists::{list_asked, list_bins};
pub use placed::{Placed, in_order};
pub use row::list_row;
pub use shared::list_by_threads;
pub use taking::take_by_threads;
