//! A database as a dump.
ghost use Rattle.std.specs.Prelude.{◌≡◌, ℕ, ◌+◌, ◌-◌, ◌^◌, ◌<◌, ◌≤◌, ◌⊎◌, ◌++◌, [], List, Option, OnOk, IfOk, IfErr};
ghost use Rattle.kmc_sum.specs.Source.{GoesOn, IsRoom, unread};
ghost use Rattle.kmc_database.specs.Files.{prefix_marker, suffix_marker};
ghost use Rattle.kmc_database.specs.Given.{EndsAt, IsUnpackBegun, Starts};
ghost use Rattle.kmc_database.specs.Layout.{IsLayout};
ghost use Rattle.kmc_database.specs.UnpackAnswer.{IsStepAnswer, IsUnpackAnswer, starts_of};
ghost use Rattle.kmc_database.specs.UnpackCauses.{IsRefusedWith};
ghost use Rattle.kmc_database.specs.Unpacked.{IsReadOut};
ghost use Rattle.kmc_database.specs.UnpackState.{AreAllUnpacked, IsBeforeRow, IsPartAnswer, IsRowRead, IsRowRefused, IsUnpackedSoFar};

use crate::checking::{begins_with, ends_in, ends_with, next_entry};
use crate::last_header::last_header;
use crate::markers::{PREFIX_MARKER, SUFFIX_MARKER};
use crate::reading::Header;
use crate::row_reading::{Row, next_row};
use crate::unpack_error::UnpackError;
use kmc_base::Kmer;
use kmc_device::Counted;
use kmc_sum::{OutputBuffer, Room};
use std::alloc::Global;
use std::io::{Read, Write};

/// A first part, as a number, and the rows of its words, numbered from 0.
#[derive(Clone, Copy)]
struct Part {
    number: u64,
    from: u64,
    to: u64,
}

/// The next row, of a word with this first part, which is to be above the `last` word and to have a count. So many `rows` were read
/// before.
fn checked_row<R: Read>(
    reader: &mut Counted<R>,
    room: &mut Room,
    header: &Header,
    part: u64,
    rows: u64,
    last: u128,
) -> Result<Row, UnpackError>
    requires room { IsRoom room.old }
    requires layout { IsLayout header.now.layout }
    requires part { part < 4 ^ header.now.layout.prefix }
    requires few { rows < 2 ^ 64 - 1 }
    ensures room { IsRoom room.new }
    ensures fits { IfOk result (λ row. row.packed < 4 ^ header.now.layout.k) }
    ensures kept { OnOk result (reader.new.failures ≡ reader.old.failures) }
    ensures ok { IfOk result (λ row. (s : Starts) (prefix_now : Option (List ℕ))
        (table_rest : List ℕ) (pairs : List (List ℕ × ℕ))
        → IsBeforeRow header.now s part prefix_now table_rest (R.remaining reader.old.inner)
        (unread room.old) rows last pairs
        → IsRowRead header.now s part prefix_now table_rest (R.remaining reader.new.inner)
        (unread room.new) pairs row) }
    ensures cause { IfErr result (λ e. (s : Starts) (prefix_now : Option (List ℕ))
        (table_rest : List ℕ) (pairs : List (List ℕ × ℕ))
        → IsBeforeRow header.now s part prefix_now table_rest (R.remaining reader.old.inner)
        (unread room.old) rows last pairs
        → IsRowRefused R.remaining header.now s part prefix_now table_rest reader.old reader.new
        pairs e) }
{
    match next_row(reader, room, &header.layout, part) {
        Ok(Some(row)) => {
            if rows > 0 && row.packed <= last {
                return Err(UnpackError::NotRising(rows + 1));
            }
            if row.count == 0 {
                return Err(UnpackError::ZeroCount(rows + 1));
            }
            Ok(row)
        }
        Ok(None) => Err(UnpackError::Cut(rows + 1)),
        Err(_) => Err(UnpackError::ReadSuffix),
    }
}

/// Reads the rows of one first part behind the `last` word, and writes their lines. Says which word is the last then.
fn unpack_part<R: Read, W: Write>(
    header: &Header,
    part: Part,
    last: u128,
    reader: &mut Counted<R>,
    room: &mut Room,
    writer: &mut Counted<W>,
    buffer: &mut OutputBuffer,
) -> Result<u128, UnpackError>
    requires room { IsRoom room.old }
    requires layout { IsLayout header.now.layout }
    requires part { part.number < 4 ^ header.now.layout.prefix }
    requires order { part.from ≤ part.to }
    ensures room { IsRoom room.new }
    ensures read { OnOk result (reader.new.failures ≡ reader.old.failures) }
    ensures kept { OnOk result (writer.new.failures ≡ writer.old.failures) }
    ensures answer { (s : Starts) (prefix_now : Option (List ℕ)) (table_rest : List ℕ)
        → IsUnpackedSoFar header.now.layout s (part.number + 1) (part.number + 1) prefix_now
        table_rest (R.remaining reader.old.inner) (unread room.old)
        (W.contents writer.old.inner) buffer.old part.from last
        → EndsAt header.now.layout header.now.rows part.number part.to table_rest
        → IsPartAnswer R.remaining W.contents header.now s part.number part.to prefix_now
        table_rest reader.old reader.new room.new writer.old writer.new buffer.new result }
{
    let Part { number, from, to } = part;
    let mut above = last;
    for row in from..to {
        let found = checked_row(reader, room, header, number, row, above)?;
        let word = Kmer::of_packed(found.packed, header.layout.k);
        match buffer.put_line(writer, &word, found.count) {
            Ok(()) => above = found.packed,
            Err(_) => return Err(UnpackError::Write),
        }
    }
    Ok(above)
}

/// Takes the markers at the beginnings of the two files.
fn take_markers<R: Read>(
    prefix: &mut Counted<R>,
    table: &mut Room,
    suffix: &mut Counted<R>,
    body: &mut Room,
) -> Result<(), UnpackError>
    requires table { IsRoom table.old × (unread table.old ≡ []) }
    requires body { IsRoom body.old × (unread body.old ≡ []) }
    ensures table { IsRoom table.new }
    ensures body { IsRoom body.new }
    ensures prefix { OnOk result (GoesOn (R.remaining prefix.old.inner)
        (R.remaining prefix.new.inner) [] (prefix_marker ++ unread table.new)
        × (prefix.new.failures ≡ prefix.old.failures)) }
    ensures suffix { OnOk result (GoesOn (R.remaining suffix.old.inner)
        (R.remaining suffix.new.inner) [] (suffix_marker ++ unread body.new)
        × (suffix.new.failures ≡ suffix.old.failures)) }
    ensures cause { IfErr result (λ e. (h : Header) (written : Option (List ℕ)) (first writer : ℕ)
        → IsRefusedWith h (record {
          prefix = R.remaining prefix.old.inner;
          suffix = R.remaining suffix.old.inner;
          written = written;
        })
        (R.remaining prefix.new.inner) (R.remaining suffix.new.inner)
        (record {
          first = first;
          prefix = prefix.old.failures;
          suffix = suffix.old.failures;
          writer = writer;
        })
        (record {
          first = first;
          prefix = prefix.new.failures;
          suffix = suffix.new.failures;
          writer = writer;
        }) e) }
{
    match begins_with(prefix, table, PREFIX_MARKER) {
        Ok(true) => {}
        Ok(false) => return Err(UnpackError::PrefixMarker),
        Err(_) => return Err(UnpackError::ReadPrefix),
    }
    match begins_with(suffix, body, SUFFIX_MARKER) {
        Ok(true) => Ok(()),
        Ok(false) => Err(UnpackError::SuffixMarker),
        Err(_) => Err(UnpackError::ReadSuffix),
    }
}

/// Reads the table and the rows behind the markers, and writes the lines of the rows.
fn unpack_parts<R: Read, W: Write>(
    header: &Header,
    prefix: &mut Counted<R>,
    table: &mut Room,
    suffix: &mut Counted<R>,
    body: &mut Room,
    writer: &mut Counted<W>,
    buffer: &mut OutputBuffer,
) -> Result<(), UnpackError>
    requires layout { IsLayout header.now.layout }
    requires table { IsRoom table.old }
    requires body { IsRoom body.old }
    ensures table { IsRoom table.new }
    ensures body { IsRoom body.new }
    ensures kept { OnOk result (writer.new.failures ≡ writer.old.failures) }
    ensures answer { (s : Starts)
        → IsUnpackedSoFar header.now.layout s 0 0 (R.remaining prefix.old.inner)
        (unread table.old) (R.remaining suffix.old.inner) (unread body.old)
        (W.contents writer.old.inner) buffer.old 0 0
        → IsStepAnswer R.remaining W.contents header.now s prefix.old prefix.new suffix.old
        suffix.new writer.old writer.new result
        (AreAllUnpacked header.now.layout s (R.remaining prefix.new.inner) (unread table.new)
        (R.remaining suffix.new.inner) (unread body.new) (W.contents writer.new.inner) buffer.new
        header.now.rows) (IsUnpackBegun s (R.remaining prefix.new.inner)
        (R.remaining suffix.new.inner) (W.contents writer.new.inner)) }
{
    let parts: u64 = 1 << (2 * header.layout.prefix);
    let mut row = next_entry(prefix, table, 0, 0, 0)?;
    let mut last = 0;
    for number in 0..parts - 1 {
        let to = next_entry(prefix, table, number + 1, row, header.rows)?;
        let from = row;
        let part = Part { number, from, to };
        last = unpack_part(header, part, last, suffix, body, writer, buffer)?;
        row = to;
    }
    let part = Part {
        number: parts - 1,
        from: row,
        to: header.rows,
    };
    match unpack_part(header, part, last, suffix, body, writer, buffer) {
        Ok(_) => Ok(()),
        Err(error) => Err(error),
    }
}

/// Sees that both files end as they are to behind the rows and the table, and writes what the buffer holds.
fn end_unpacking<R: Read, W: Write>(
    header: &Header,
    prefix: &mut Counted<R>,
    table: &mut Room,
    suffix: &mut Counted<R>,
    body: &mut Room,
    writer: &mut Counted<W>,
    buffer: OutputBuffer,
) -> Result<(), UnpackError>
    requires table { IsRoom table.old }
    requires body { IsRoom body.old }
    ensures { (s : Starts) → AreAllUnpacked header.now.layout s (R.remaining prefix.old.inner)
        (unread table.old) (R.remaining suffix.old.inner) (unread body.old)
        (W.contents writer.old.inner) buffer header.now.rows
        → IsStepAnswer R.remaining W.contents header.now s prefix.old prefix.new suffix.old
        suffix.new writer.old writer.new result (IsReadOut header.now s
        (R.remaining prefix.new.inner) (R.remaining suffix.new.inner)
        (W.contents writer.new.inner)) (IsUnpackBegun s (R.remaining prefix.new.inner)
        (R.remaining suffix.new.inner) (W.contents writer.new.inner)) }
{
    match ends_with(suffix, body, SUFFIX_MARKER) {
        Ok(true) => {}
        Ok(false) => return Err(UnpackError::SuffixEnd),
        Err(_) => return Err(UnpackError::ReadSuffix),
    }
    match ends_in(prefix, table, header) {
        Ok(true) => {}
        Ok(false) => return Err(UnpackError::Changed),
        Err(_) => return Err(UnpackError::ReadPrefix),
    }
    match buffer.flush_into(writer) {
        Ok(()) => Ok(()),
        Err(_) => Err(UnpackError::Write),
    }
}

/// Reads both files with their header, and writes their dump.
fn unpack_with<R: Read, W: Write>(
    header: &Header,
    prefix: &mut Counted<R>,
    table: &mut Room,
    suffix: &mut Counted<R>,
    body: &mut Room,
    writer: &mut Counted<W>,
) -> Result<(), UnpackError>
    requires layout { IsLayout header.now.layout }
    requires table { IsRoom table.old × (unread table.old ≡ []) }
    requires body { IsRoom body.old × (unread body.old ≡ []) }
    ensures { let s = starts_of R.remaining W.contents prefix.old suffix.old writer.old in
        IsStepAnswer R.remaining W.contents header.now s prefix.old prefix.new suffix.old
        suffix.new writer.old writer.new result (IsReadOut header.now s
        (R.remaining prefix.new.inner) (R.remaining suffix.new.inner)
        (W.contents writer.new.inner)) ((writer.new ≡ writer.old) ⊎ IsUnpackBegun s
        (R.remaining prefix.new.inner) (R.remaining suffix.new.inner)
        (W.contents writer.new.inner)) }
{
    take_markers(prefix, table, suffix, body)?;
    let mut buffer = OutputBuffer::new();
    unpack_parts(header, prefix, table, suffix, body, writer, &mut buffer)?;
    end_unpacking(header, prefix, table, suffix, body, writer, buffer)
}

/// Reads the two files of a database in KMC 1's sorted form and writes its dump, a line for each row, and says how many. The prefix file
/// is read twice: `first` once to its end, where its header stands, and then `prefix` beside the `suffix` file, from their beginnings to
/// their ends. It takes a block of 64 KiB for each file and a buffer of 16 KiB, however large the table and however many the rows are.
/// Files that are no database are refused by the first place that tells; limits and strands in the header may be any.
pub fn unpack<R: Read, W: Write>(
    alloc: Global,
    first: &mut Counted<R>,
    prefix: &mut Counted<R>,
    suffix: &mut Counted<R>,
    writer: &mut Counted<W>,
) -> Result<u64, UnpackError>
    ensures { IsUnpackAnswer R.remaining W.contents first.old first.new prefix.old prefix.new
        suffix.old suffix.new writer.old writer.new result }
{
    let mut table = match Room::new(alloc) {
        Ok(room) => room,
        Err(_) => return Err(UnpackError::Memory),
    };
    let mut body = match Room::new(alloc) {
        Ok(room) => room,
        Err(_) => return Err(UnpackError::Memory),
    };
    let told = last_header(first, &mut table)?;
    let header = told.header;
    match unpack_with(&header, prefix, &mut table, suffix, &mut body, writer) {
        Ok(()) => Ok(header.rows),
        Err(error) => Err(error),
    }
}
