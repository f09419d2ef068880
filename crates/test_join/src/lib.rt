//! Tests of joins, of histograms, of tables and of queries, by public calls alone: each operation on two worked dumps, limits of
//! the result and of each dump, dumps at fault, lines of each length, devices
//! that fail, and the command line. Nothing stands on this crate.
#![tactic(auto)]

#[cfg(test)]
mod devices;
#[cfg(test)]
mod histograms;
#[cfg(test)]
mod lines;
#[cfg(test)]
mod operations;
#[cfg(test)]
mod queries;
#[cfg(test)]
mod ranges;
#[cfg(test)]
mod tables;
#[cfg(test)]
mod words;
