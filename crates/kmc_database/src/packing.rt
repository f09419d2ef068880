//! A dump as a database.
ghost use Rattle.std.specs.Prelude.{◌^◌, ◌<◌, List, ℕ, Option, OnOk, IfOk, IfErr};
ghost use Rattle.kmc_sum.specs.Source.{IsRoom};
ghost use Rattle.kmc_sum.specs.Sources.{IsFresh};
ghost use Rattle.kmc_database.specs.Answer.{IsPackAnswer};
ghost use Rattle.kmc_database.specs.Beginning.{IsAsked, IsBeginning, IsNoBeginning};
ghost use Rattle.kmc_database.specs.Ending.{IsEnded, IsNotEnded};
ghost use Rattle.kmc_database.specs.Form.{IsOptions};
ghost use Rattle.kmc_database.specs.Layout.{IsLayout};

use crate::byte_buffer::ByteBuffer;
use crate::error::PackError;
use crate::form::{Form, PackOptions};
use crate::header::header_bytes;
use crate::layout::layout_for;
use crate::row::{first_part, holds_count, put_row};
use crate::table::put_entries;
use kmc_device::Counted;
use kmc_sum::{Head, LineRead, Room, first_head, next_head};
use std::alloc::Global;
use std::io::Write;

/// The first line of the dump, and the form of its database.
fn begin<R: LineRead>(
    options: &PackOptions,
    reader: &mut Counted<R>,
    room: &mut Room,
) -> Result<(Head, Form), PackError>
    requires options { IsOptions options.now }
    requires fresh { IsFresh room.old }
    ensures room { IsRoom room.new }
    ensures ok { IfOk result (λ r. IsBeginning R.remaining options.now reader.old reader.new
        room.new r.0 r.1) }
    ensures cause { IfErr result (IsNoBeginning R.remaining options.now reader.old reader.new) }
{
    let asked = options.k.unwrap_or(0);
    let (head, found) = first_head(reader, room, 0, asked)?;
    if asked == 0 && !head.live {
        return Err(PackError::Empty);
    }
    let k = found.max(1);
    match layout_for(k, options.prefix, options.counter) {
        Some(layout) => Ok((head, options.form(layout))),
        None => Err(PackError::Prefix(k)),
    }
}

/// Writes the ends of the two files behind what their buffers hold, that of the prefix file last.
fn end<W: Write>(
    form: &Form,
    rows: u64,
    prefix: &mut Counted<W>,
    table: ByteBuffer,
    suffix: &mut Counted<W>,
    body: ByteBuffer,
) -> Result<(), PackError>
    requires layout { IsLayout form.now.layout }
    ensures ok { OnOk result (IsEnded W.contents form.now rows prefix.old prefix.new table suffix.old
        suffix.new body) }
    ensures err { IfErr result (IsNotEnded W.contents form.now rows prefix.old prefix.new table
        suffix.old suffix.new body) }
{
    match body.flush_with(suffix, b"KMCS") {
        Ok(()) => {}
        Err(_) => return Err(PackError::WriteSuffix),
    }
    match table.flush_with(prefix, &header_bytes(form, rows)) {
        Ok(()) => Ok(()),
        Err(_) => Err(PackError::WritePrefix),
    }
}

/// Packs the line of the first head and those behind it.
fn pack_rows<R: LineRead, W: Write>(
    reader: &mut Counted<R>,
    room: &mut Room,
    first: Head,
    form: &Form,
    prefix: &mut Counted<W>,
    suffix: &mut Counted<W>,
) -> Result<u64, PackError>
    requires room { IsRoom room.old }
    requires layout { IsLayout form.now.layout }
    requires fits { first.packed < 4 ^ form.now.layout.k }
    ensures { (o : PackOptions) (start : Option (List ℕ))
        → IsAsked o start (R.remaining reader.old.inner) room.old first form.now
        → IsPackAnswer R.remaining W.contents o start reader.old reader.new prefix.old prefix.new
        suffix.old suffix.new result }
{
    let mut table = ByteBuffer::new(b"KMCP");
    let mut body = ByteBuffer::new(b"KMCS");
    let mut head = first;
    let mut entries: u64 = 0;
    let mut rows: u64 = 0;
    for _step in 0..u64::MAX - 1 {
        if !head.live {
            break;
        }
        if !holds_count(&form.layout, head.count) {
            return Err(PackError::TooGreat(rows + 1));
        }
        let word = head;
        head = next_head(reader, room, 0, form.layout.k, word.packed)?;
        let next = first_part(&form.layout, word.packed) + 1;
        match put_entries(prefix, &mut table, entries, next, rows) {
            Ok(()) => entries = next,
            Err(_) => return Err(PackError::WritePrefix),
        }
        match put_row(suffix, &mut body, &form.layout, word.packed, word.count) {
            Ok(()) => rows += 1,
            Err(_) => return Err(PackError::WriteSuffix),
        }
    }
    if head.live {
        return Err(PackError::TooLong);
    }
    let all = 1 << (2 * form.layout.prefix);
    match put_entries(prefix, &mut table, entries, all, rows) {
        Ok(()) => {}
        Err(_) => return Err(PackError::WritePrefix),
    }
    match end(form, rows, prefix, table, suffix, body) {
        Ok(()) => Ok(rows),
        Err(error) => Err(error),
    }
}

/// Reads a dump to its end and writes it as a database in KMC 1's sorted form, in one pass: a table of first parts and a header to
/// `prefix`, a row for each word to `suffix`, and says how many rows. It takes a block of 64 KiB for the dump and a buffer for each
/// file, however long the dump is. The header is written last, when all else is out, so that files that were given up are no database.
pub fn pack<R: LineRead, W: Write>(
    alloc: Global,
    options: &PackOptions,
    reader: &mut Counted<R>,
    prefix: &mut Counted<W>,
    suffix: &mut Counted<W>,
) -> Result<u64, PackError>
    ensures { IsPackAnswer R.remaining W.contents options.now (R.remaining reader.old.inner)
        reader.old reader.new prefix.old prefix.new suffix.old suffix.new result }
{
    if let Some(k) = options.misfit() {
        return Err(PackError::Prefix(k));
    }
    let mut room = match Room::new(alloc) {
        Ok(room) => room,
        Err(_) => return Err(PackError::Memory),
    };
    let (head, form) = begin(options, reader, &mut room)?;
    pack_rows(reader, &mut room, head, &form, prefix, suffix)
}
