//! Records of super-k-mers and parts of chunks: the shape of a run's bins, the parts of reads, whose records are copied out of packed
//! codes, and records as they are read again: their codes, their numbers, the first that is at fault. It stands on kmc_base for the
//! spelling and on kmc_split for the cut. The layer above uses that the parts of reads are, for each bin that is not empty, the
//! records of its runs in the order of reads and places; that a body of whole records has no fault; and that [`Part::from_body`] takes
//! exactly the bodies whose words belong to their bin.
#![tactic(auto)]

mod belong;
mod fault;
pub mod laws;
mod packed;
mod part;
mod part_error;
mod parts;
mod plain;
mod record;
mod record_keys;
mod shape;

pub use belong::{JudgingRoom, count_words, key_belongs};
pub use fault::{BodyError, RecordFault};
pub use part::Part;
pub use part_error::PartError;
pub use parts::parts_of_reads;
pub use plain::{Chunk, RecordError, decode, encode, parts_of, push_body, push_record_of};
pub use record::{code_at, code_bytes, first_record, push_record};
pub use record_keys::{MOST_KEY_SYMBOLS, key_bytes, record_key};
pub use shape::{LEAST_P, MOST_BINS, Shape};
