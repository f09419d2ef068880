//! How many k-mers of reads have each count: the histogram of the dump that a run would write, straight from the lists of its bins, with
//! no dump between. It stands on kmc_tool, which counts a reader into lists, on kmc_join for the tally and its rows, and on kmc_options
//! for settings and faults. The layer above calls [`spectrum_of`] with the words of a command line, or [`spectrum`] with settings of its
//! own.
#![tactic(auto)]

mod message;
mod program;
mod running;
mod tallying;

pub use message::SpectrumMessage;
pub use program::{spectrum_by_words, spectrum_of};
pub use running::spectrum;
