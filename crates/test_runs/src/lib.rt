//! Tests of counting, of workers in threads, of runs and of the command line, by their public calls alone: worked rows,
//! an independent model, devices that fail, refused memory and threads that meet. Nothing stands on this crate.
#![tactic(auto)]

#[cfg(test)]
mod tests;
