//! Codes, stretches and keys as values, one at a time: the plain forms, with which tests compare those that a run uses.

mod base;
mod keys;
mod stretch;

pub use base::code;
pub use keys::push_keys;
pub use stretch::segments;
