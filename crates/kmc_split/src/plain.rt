//! Signatures and the cut as values, one word at a time: the plain forms, with which tests compare those that a run uses.

mod minima;
mod signatures;
mod super_kmer;

pub use minima::lowest;
pub use signatures::{allowed, signature};
pub use super_kmer::super_kmers;
