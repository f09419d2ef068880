//! What stands next in a file of a database.
ghost use Rattle.std.specs.Prelude.{◌≡◌, ◌+◌, ◌^◌, ◌<◌, ◌≤◌, length};
ghost use Rattle.kmc_database.specs.DumpText.{has_form, has_layout, is_header};
ghost use Rattle.kmc_database.specs.Layout.{IsLayout};
ghost use Rattle.kmc_database.specs.Numbers.{low_first};
ghost use Rattle.kmc_database.specs.Numerals.{has_at};

use crate::header::HEADER;
use crate::layout::Layout;
use crate::markers::PREFIX_MARKER;
use crate::next_bytes::NextBytes;
use crate::number::number_at;
use crate::reading::Header;
use crate::row_reading::{Row, row_at};
use std::io;
use std::io::Read;

/// Whether this number stands at a place of bytes, the lowest byte first.
fn has_number(bytes: &[u8], place: usize, size: usize, number: u64) -> bool
    requires few { size ≤ 8 }
    requires inside { place + size ≤ length bytes.now }
    requires fits { number < 256 ^ size }
    ensures { result ≡ has_at bytes.now place (low_first size number) }
{
    number_at(bytes, place, size) == number
}

/// Whether bytes are this header; the limits and the strands may be any.
fn is_header(bytes: &[u8], header: &Header) -> bool
    requires { IsLayout header.now.layout }
    ensures { result ≡ is_header header.now bytes.now }
{
    if bytes.len() != HEADER {
        return false;
    }
    has_layout(bytes, &header.layout) && has_number(bytes, 24, 8, header.rows) && has_form(bytes)
}

/// Whether this layout stands in the end of a prefix file.
fn has_layout(bytes: &[u8], layout: &Layout) -> bool
    requires layout { IsLayout layout.now }
    requires long { length bytes.now ≡ 72 }
    ensures { result ≡ has_layout layout.now bytes.now }
{
    has_number(bytes, 0, 4, layout.k as u64)
        && has_number(bytes, 8, 4, layout.counter as u64)
        && has_number(bytes, 12, 4, layout.prefix as u64)
}

/// Whether the form of a header stands there: mode 0, version 0, how long the header is, the marker.
fn has_form(bytes: &[u8]) -> bool
    requires { length bytes.now ≡ 72 }
    ensures { result ≡ has_form bytes.now }
{
    has_number(bytes, 4, 4, 0)
        && has_number(bytes, 60, 4, 0)
        && has_number(bytes, 64, 4, 64)
        && has_number(bytes, 68, 4, PREFIX_MARKER)
}

impl<R: Read> NextBytes<R> {
    ghost use Rattle.std.specs.Prelude.{ℕ, ◌-◌, ◌/◌, List, Some, true, false, take, bytes_eq, IfOk, IfSome, MatchOption};
    ghost use Rattle.kmc_database.specs.DumpText.{row_in};
    ghost use Rattle.kmc_database.specs.LeftOf.{held_of, left_of, StaysKnown};
    ghost use Rattle.kmc_database.specs.Numerals.{low_number};
    ghost use Rattle.kmc_database.specs.Rows.{row_long, row_of};
    ghost use Rattle.kmc_database.specs.TakenRow.{pair_of_row};

    /// Whether this marker stands next.
    pub fn begins_with(&mut self, marker: u64) -> io::Result<bool>
        requires { marker < 256 ^ 4 }
        ensures same { StaysKnown (left_of R.remaining self.old) (left_of R.remaining self.new) }
        ensures held { IfOk result (λ begins. begins ≡ true → 4 ≤ length (held_of self.new)) }
        ensures told { IfOk result (λ begins. (bytes : List ℕ)
            → left_of R.remaining self.new ≡ Some bytes
            → begins ≡ has_at bytes 0 (low_first 4 marker)) }
    {
        if !self.fill(4)? {
            return Ok(false);
        }
        Ok(has_number(self.held(), 0, 4, marker))
    }

    /// Whether this marker is all that is left.
    pub fn ends_with(&mut self, marker: u64) -> io::Result<bool>
        requires { marker < 256 ^ 4 }
        ensures same { StaysKnown (left_of R.remaining self.old) (left_of R.remaining self.new) }
        ensures told { IfOk result (λ ends. (bytes : List ℕ)
            → left_of R.remaining self.new ≡ Some bytes
            → ends ≡ bytes_eq bytes (low_first 4 marker)) }
    {
        if self.fill(5)? || self.held().len() != 4 {
            return Ok(false);
        }
        Ok(has_number(self.held(), 0, 4, marker))
    }

    /// Whether this header is all that is left.
    pub fn ends_in(&mut self, header: &Header) -> io::Result<bool>
        requires { IsLayout header.now.layout }
        ensures same { StaysKnown (left_of R.remaining self.old) (left_of R.remaining self.new) }
        ensures told { IfOk result (λ ends. (bytes : List ℕ)
            → left_of R.remaining self.new ≡ Some bytes → ends ≡ is_header header.now bytes) }
    {
        if self.fill(HEADER + 1)? {
            return Ok(false);
        }
        Ok(is_header(self.held(), header))
    }

    /// The next entry of a table; none where fewer bytes are left.
    pub fn next_entry(&mut self) -> io::Result<Option<u64>>
        ensures same { StaysKnown (left_of R.remaining self.old) (left_of R.remaining self.new) }
        ensures held { IfOk result (λ answer. IfSome answer
            (λ entry. 8 ≤ length (held_of self.new))) }
        ensures told { IfOk result (λ answer. (bytes : List ℕ)
            → left_of R.remaining self.new ≡ Some bytes → MatchOption answer
            (has_at bytes 0 (low_first 8 (low_number (take 8 bytes))) ≡ false)
            (λ entry. (low_number (take 8 bytes) ≡ entry)
            × (has_at bytes 0 (low_first 8 entry) ≡ true))) }
    {
        if !self.fill(8)? {
            return Ok(None);
        }
        Ok(Some(number_at(self.held(), 0, 8)))
    }

    /// The next row, of a word with this first part; none where fewer bytes are left.
    pub fn next_row(&mut self, layout: &Layout, part: u64) -> io::Result<Option<Row>>
        requires layout { IsLayout layout.now }
        requires part { part < 4 ^ layout.now.prefix }
        ensures same { StaysKnown (left_of R.remaining self.old) (left_of R.remaining self.new) }
        ensures held { IfOk result (λ answer. IfSome answer (λ row.
            (row_long layout.now ≤ length (held_of self.new)) × (row.packed < 4 ^ layout.now.k))) }
        ensures told { IfOk result (λ answer. (bytes : List ℕ)
            → left_of R.remaining self.new ≡ Some bytes → MatchOption answer
            (has_at bytes 0 (row_of layout.now (pair_of_row layout.now
            (row_in layout.now part bytes))) ≡ false)
            (λ row. (row_in layout.now part bytes ≡ row)
            × (has_at bytes 0 (row_of layout.now (pair_of_row layout.now row)) ≡ true))) }
    {
        if !self.fill((layout.k - layout.prefix) / 4 + layout.counter)? {
            return Ok(None);
        }
        Ok(Some(row_at(layout, part, self.held())))
    }
}
