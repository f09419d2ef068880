//! Chunks and records as values, one at a time: the plain forms, with which tests compare those that a run uses.

mod body;
mod chunk;
mod decoding;
mod encoding;

pub use body::push_body;
pub use chunk::{Chunk, parts_of};
pub use decoding::{RecordError, decode};
pub use encoding::{encode, push_record_of};
