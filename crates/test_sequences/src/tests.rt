//! The tests, by what they call.
mod belonging;
mod bins;
mod codes_and_words;
mod copied_records;
mod given;
mod keys;
mod reads;
mod records_and_parts;
mod signatures_and_cuts;
