//! Counts as lists of k-mers: the plain forms, with which tests compare those that a run uses.

mod bin_count;
mod direct;
mod merge;
mod words;

pub use bin_count::count_bin;
pub use direct::count_direct;
pub use merge::merge_bins;
