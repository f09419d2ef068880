//! The tests, by what they call.
mod answers;
mod calls;
mod open_reads;
mod plain;
mod random_texts;
mod rows;
