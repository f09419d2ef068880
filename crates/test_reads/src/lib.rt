//! Tests of texts that come in blocks, by public calls alone: worked rows, and random texts in random blocks against a plain reader
//! of whole lines; and of an input that is read in rounds: readers that give few bytes at a time, that fail or never end. Nothing
//! stands on this crate. Each call is made once more where memory was refused, so the tests also pass where one growth is
//! refused, whichever it is (`rt try --test --fail-alloc N`).
#![tactic(auto)]

#[cfg(test)]
mod given;
#[cfg(test)]
mod inputs;
#[cfg(test)]
mod pieces;
#[cfg(test)]
mod tests;
