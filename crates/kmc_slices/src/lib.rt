//! Slices: parts of a count, of which each is the records of some of the bins, of all parts of the reads. Reads are cut, a round at a
//! time, to the files of all slices; the files of one slice are gathered, judged and counted. It stands on kmc_stage_one,
//! kmc_stage_two and kmc_dump for that, on kmc_slice_files for files and on kmc_options for words. The layer above calls the
//! programs, and learns from `laws` that the dumps of all slices, merged, are the dump of all the reads.
#![tactic(auto)]

mod bin_fault;
mod cutting;
mod error;
mod gathering;
mod judging;
pub mod laws;
mod listing;
mod programs;
mod round;
mod slicing;
mod writing;

pub use bin_fault::{BinFault, JudgeError};
pub use error::CutError;
pub use gathering::{GatherError, SliceRecords};
pub use judging::judged_lists;
pub use listing::{ListError, list_records};
pub use programs::{
    CutFault, CutMessage, ListFault, ListMessage, cut_program, cut_to, cut_words, gather_readers,
    list_files, list_program, list_readers, list_words,
};
pub use slicing::{cut_slices, cut_slices_with};
