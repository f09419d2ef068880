//! The dump of a list of k-mers, line by line: the plain form, with which tests compare the one that a run uses.

mod dump;

pub use dump::write_dump;
