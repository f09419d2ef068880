//! The sum of dumps: lines of many files side by side, the least first, within limits; and the program that merges. It stands on
//! kmc_device for files, on kmc_count for limits and on kmc_options for words. The layer above calls [`program`], and learns from
//! `laws` that the dumps of parts are summed to the dump of all reads.
#![tactic(auto)]

mod arguments;
mod error;
mod fault;
mod heads;
pub mod laws;
mod line;
mod line_read;
mod merging;
mod opening;
mod output;
mod request;
mod source;
mod sources;
mod writing;

pub use arguments::{program, sum_files, sum_readers, sum_words};
pub use error::{LineFault, SourceError, SourceFault, SumError};
pub use fault::{Fault, Message};
pub use heads::{Head, build};
pub use line::Line;
pub use line_read::{LineRead, TextReader};
pub use merging::{MOST_SOURCES, merge};
pub use opening::{first_head, heads_for, open, rooms_for};
pub use output::OutputBuffer;
pub use request::{Request, RequestError, asked_for};
pub use source::{Room, fill};
pub use sources::{advance, next_head};
pub use writing::put_pair;
