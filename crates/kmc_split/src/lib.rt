//! Signatures and the cut of a segment into super-k-mers, exactly. It stands on kmc_base for words, canonical forms and segments.
//! The layer above takes the cut of a segment from [`cut`], as runs in a vector that is used again; it asks for the candidates of codes,
//! and which m-mers may be signatures; and it learns from `laws` that a word and its reverse complement share a
//! signature, that a segment has one cut, and that the cut loses and doubles no word. [`SuperKmer`] holds one as a value.
#![tactic(auto)]

mod belonging;
mod cutting;
pub mod laws;
mod marking;
mod minima;
mod mmer;
mod offering;
mod plain;
mod quads;
mod remainders;
mod rolling;
mod rooms;
mod runs;
mod signatures;
mod values;

pub use belonging::{BelongingRoom, words_in_bin};
pub use cutting::{Scratch, cut};
pub use marking::{candidates, marks_for};
pub use mmer::{MOST_SHORT, Mmer};
pub use plain::{allowed, lowest, signature, super_kmers};
pub use remainders::remainder;
pub use runs::Run;
pub use signatures::{MAX_M, Sig};
pub use values::{SuperKmer, super_kmer};
