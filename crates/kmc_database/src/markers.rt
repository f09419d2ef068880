//! The markers at both ends of the two files of a database.

/// `KMCP` as a number.
pub(crate) const PREFIX_MARKER: u64 = 1346587979;

/// `KMCS` as a number.
pub(crate) const SUFFIX_MARKER: u64 = 1396919627;
