//! Tests of packed lists and of the dump that is written from them by ranges: worked rows over threads, widths of words and
//! of counts, the plain count as a model, devices that fail, refused memory. Nothing stands on this crate.
#![tactic(auto)]

#[cfg(test)]
mod tests;
