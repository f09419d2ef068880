//! What crates of tests share: readers and writers over memory that fail, numbers that look random, and a queue's gathering.
//! It stands on `kmc_partqueue` alone, and only tests and programs that try others stand on it.
#![tactic(auto)]

mod devices;
mod dice;
mod queue;

pub use devices::{BlockReader, FlushCounter, Full, NarrowWriter};
pub use dice::Dice;
pub use queue::gathered;
