//! Tests of databases, by public calls alone: worked bytes, words and counts of many widths, dumps and databases at fault, and devices
//! that fail.
//! Nothing stands on this crate.
#![tactic(auto)]

#[cfg(test)]
mod damaged;
#[cfg(test)]
mod databases;
#[cfg(test)]
mod devices;
#[cfg(test)]
mod files;
#[cfg(test)]
mod handed_lines;
#[cfg(test)]
mod headers;
#[cfg(test)]
mod packs;
#[cfg(test)]
mod queries;
#[cfg(test)]
mod readings;
#[cfg(test)]
mod refusals;
#[cfg(test)]
mod searches;
#[cfg(test)]
mod source_joins;
#[cfg(test)]
mod unanswered;
#[cfg(test)]
mod unpacks;
