//! Codes, k-mers of up to 64 symbols, packed words, stretches of bases, and how a super-k-mer is spelled as a record, codes four to a
//! byte. It stands on nothing. The layers above use that packed words unpack to themselves and rise as the words do, that equal
//! words of the two strands have one key, that no spelling of a record begins another, and from `laws` that reads in pieces which
//! overlap have each counted place once.
#![tactic(auto)]

mod base;
mod copying;
mod key_rule;
mod keys;
mod kmer;
pub mod laws;
mod letters;
mod number_bytes;
mod other_strand;
mod packed_kmer;
mod plain;
mod segment;
mod spell;
mod strands;
mod stretch;
mod weight;

pub use copying::push_record_from;
pub use key_rule::KeyRule;
pub use keys::packed_key;
pub use kmer::{Kmer, MAX_K, letter_of};
pub use number_bytes::high_bytes_first;
pub use packed_kmer::{MOST_WEIGHT_BITS, PackedKmer};
pub use plain::{code, push_keys, segments};
pub use segment::Segment;
pub use spell::{pack_codes, push_packed};
pub use strands::Strands;
pub use stretch::leading_codes;
pub use weight::Weight;
