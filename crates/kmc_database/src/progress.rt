//! How far the two files of a database are read.
ghost use Rattle.std.specs.Prelude.{◌≡◌, ◌-◌, ◌^◌, ◌<◌};
ghost use Rattle.kmc_database.specs.DumpText.{entry_fault, row_fault};

use crate::reading::Header;
use crate::row_reading::Row;
use crate::unpack_error::UnpackError;

/// How far the two files are read: whether the markers are taken, how many entries of the table and how many rows, the row at which the
/// last entry ends a first part, and the packed word of the last row.
#[derive(Clone, Copy)]
pub(crate) struct Progress {
    pub begun: bool,
    pub entries: u64,
    pub row: u64,
    pub to: u64,
    pub last: u128,
}

/// What is at fault with the row behind those that were read: its word is not above the last one, or its count is 0.
pub(crate) fn row_fault(at: &Progress, row: &Row) -> Option<UnpackError>
    requires { at.now.row < 2 ^ 64 - 1 }
    ensures { result ≡ row_fault at.now row.now }
{
    if at.row > 0 && row.packed <= at.last {
        return Some(UnpackError::NotRising(at.row + 1));
    }
    if row.count == 0 {
        return Some(UnpackError::ZeroCount(at.row + 1));
    }
    None
}

/// What is at fault with the next entry of the table: it is less than the one before, or more than there are rows, or the first and not 0.
pub(crate) fn entry_fault(header: &Header, at: &Progress, entry: u64) -> Option<UnpackError>
    ensures { result ≡ entry_fault header.now at.now entry }
{
    let most = if at.entries == 0 { 0 } else { header.rows };
    if entry < at.row || entry > most {
        return Some(UnpackError::Entry(at.entries));
    }
    None
}
