//! FASTQ and FASTA texts in blocks: their reads, or the first fault with its line. It stands on `memchr`. The layer above feeds a
//! text to a [`Feeder`], block by block, and takes reads as they end: for every way to cut a text they are the reads of the text, or
//! exactly the refusal of its first faulty line. [`read_all`] takes a text whole, and [`InputError`] tells why an input was not
//! read to its end.
#![tactic(auto)]

mod error;
mod feeder;
mod format;
mod input_error;
pub mod laws;
mod line;
mod line_kind;
mod message;
mod reads;
mod scan;
mod vectors;
mod whole_text;

pub use error::ReadsError;
pub use feeder::Feeder;
pub use format::Format;
pub use input_error::InputError;
pub use message::ReadsMessage;
pub use reads::Reads;
pub use vectors::{slices_of, to_vecs};
pub use whole_text::read_all;
