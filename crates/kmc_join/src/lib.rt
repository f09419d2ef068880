//! Two dumps joined word by word: what both list, what either lists, what the first lists and the second does not; the table of their
//! counts; the histogram of a dump; the counts that a dump has for given words; and the program. It stands on kmc_sum, which reads dumps
//! side by side, on kmc_count for limits and on kmc_options for words. The layers above call [`program`], or tally counts of their own by
//! [`see_count`] and write the rows.
#![tactic(auto)]

mod arguments;
mod asking;
mod fault;
mod help;
mod histograms;
mod joining;
mod key_counts;
pub mod laws;
mod looking_up;
mod opening;
mod operation;
mod queries;
mod query_error;
mod query_message;
mod query_words;
mod querying;
mod range_words;
mod request;
mod rows;
mod rule;
mod table_words;
mod tables;
mod tabulating;
mod taking;
mod tally;
mod tallying;
mod word_lines;
mod words;

pub use arguments::{
    histogram_reader, join_files, join_readers, program, program_words, run_words, table_readers,
};
pub use asking::{asked_words, length_of};
pub use fault::{JoinFault, Message};
pub use histograms::histogram;
pub use joining::join;
pub use opening::{INPUT, Operand, full_names};
pub use operation::{Choice, Operation};
pub use queries::query;
pub use query_error::QueryError;
pub use query_message::QueryMessage;
pub use query_words::query_strands;
pub use querying::query_readers;
pub use request::{JoinRequest, JoinRequestError, asked_for};
pub use rows::{put_text, rows as histogram_rows};
pub use rule::{CountRange, EVERY_COUNT, JoinRule};
pub use table_words::table_cap;
pub use tables::table;
pub use tally::{Tally, none_small, put_small, see_count};
