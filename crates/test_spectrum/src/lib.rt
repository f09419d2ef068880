//! Tests of the spectra of reads, by public calls alone: worked texts of both formats, limits at their edges, both ways to take strands,
//! words of 1, 31 and 64 symbols, texts at fault, devices that fail, and the line and the status of a fault. Nothing stands on this
//! crate.
#![tactic(auto)]

#[cfg(test)]
mod devices;
#[cfg(test)]
mod failing;
#[cfg(test)]
mod faults;
#[cfg(test)]
mod texts;
#[cfg(test)]
mod worked;
