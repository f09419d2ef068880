//! Bins in memory. It stands on kmc_record for shapes and parts. The layer above uses that the type of [`Bins`] keeps of each bin that
//! it is whole records of words of this bin, that a part's body is appended to its bin and nothing else changes, and from `laws` that
//! bins which got the parts of all chunks hold the reads.
#![tactic(auto)]

mod bins;
mod growth;
pub mod laws;

pub use bins::Bins;
