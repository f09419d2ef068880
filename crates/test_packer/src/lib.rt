//! Tests of reads that are counted straight into a database, by public calls alone: worked bytes, the files of the dump of the same reads
//! packed, for words of 1 to 64 symbols, texts at fault, devices that fail, memory that is refused, and the line and the status of a
//! refusal. Nothing stands on this crate.
#![tactic(auto)]

#[cfg(test)]
mod devices;
#[cfg(test)]
mod failing;
#[cfg(test)]
mod plainly;
#[cfg(test)]
mod texts;
#[cfg(test)]
mod told;
#[cfg(test)]
mod worked;
