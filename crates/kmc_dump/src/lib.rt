//! The dump that is written from packed lists by ranges of words, each pair as a line of text or in another form. It stands on
//! kmc_lists for lists and lines and on kmc_device for devices whose failures are counted. The layer above uses that the pairs of all
//! lists are written in the order of their words, whole, or the device failed and a front of them is out; that want of memory is told
//! before anything is written; and how many pairs lie in each slot.
#![tactic(auto)]

mod bins;
mod buffers;
mod desk;
mod fill;
mod filling;
mod keys;
mod lane;
pub mod laws;
mod output;
mod pair_form;
mod parting;
mod plain;
mod range;
mod ranges;
mod slot_range;
mod slots;
mod word_size;
mod write;

pub use bins::{bin_sizes, write_bins, write_pairs};
pub use pair_form::{Lines, PairForm};
pub use plain::write_dump;
pub use write::DumpError;
