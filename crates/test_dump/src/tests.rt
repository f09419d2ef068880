//! The tests, by what they call.
mod bodies;
mod compared;
mod equal_records;
mod failing;
mod large_bodies;
mod letters;
mod listed;
mod prefixes;
mod rows;
mod taken;
