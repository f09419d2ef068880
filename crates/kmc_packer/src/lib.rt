//! The two files of a database straight from the lists of bins that a count makes, with no dump between. It stands on kmc_tool, which
//! counts a reader into lists, on kmc_dump, which writes their pairs by ranges in several threads, and on kmc_database for the form of a
//! database. The layer above calls [`pack_reads_told`] for the exit status of a program, [`pack_reads`] for an answer, or [`pack_lists`]
//! for lists that it has.
#![tactic(auto)]

mod counts;
mod error;
mod lists;
mod lists_error;
mod message;
mod reads;
mod rows;
mod suffix;
mod table;
mod telling;

pub use error::PackReadsError;
pub use lists::pack_lists;
pub use lists_error::PackListsError;
pub use message::PackReadsMessage;
pub use reads::pack_reads;
pub use rows::Rows;
pub use telling::pack_reads_told;
