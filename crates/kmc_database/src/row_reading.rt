//! The rows of a database, read.
ghost use Rattle.std.specs.Prelude.{◌≡◌, ℕ, ◌+◌, ◌-◌, ◌*◌, ◌/◌, ◌^◌, ◌<◌, ◌≤◌, ◌++◌, List, length, take, drop, OnOk, OnErr, IfOk, MatchOption};
ghost use Rattle.std.specs.Int.{bytes_high_first};
ghost use Rattle.std.specs.Io.KnownBytes.{IsAtEnd};
ghost use Rattle.kmc_base.specs.Packed.{unpack};
ghost use Rattle.kmc_device.specs.Device.{RisesByOne};
ghost use Rattle.kmc_sum.specs.Source.{GoesOn, IsRoom, unread};
ghost use Rattle.kmc_database.specs.Layout.{IsLayout};
ghost use Rattle.kmc_database.specs.Rows.{first_part, row_long, row_of};
ghost use Rattle.kmc_database.specs.TakenRow.{IsTakenRow};

use crate::layout::Layout;
use crate::number::number_at;
use crate::taking::has_next;
use kmc_device::{Counted, ReadFault};
use kmc_sum::Room;
use std::io::Read;

/// A packed word and its count.
#[derive(Clone, Copy)]
pub(crate) struct Row {
    pub packed: u128,
    pub count: u64,
}

/// The packed word whose first part is this one and whose other symbols stand in the bytes, four a byte.
fn word_at(layout: &Layout, part: u64, bytes: &[u8]) -> u128
    requires layout { IsLayout layout.now }
    requires part { part < 4 ^ layout.now.prefix }
    requires whole { length bytes.now ≡ (layout.now.k - layout.now.prefix) / 4 }
    ensures fits { result < 4 ^ layout.now.k }
    ensures part { result / 4 ^ (layout.now.k - layout.now.prefix) ≡ part }
    ensures rest { bytes_high_first (length bytes.now) result ≡ bytes.now }
{
    let mut packed = u128::from(part);
    for i in 0..bytes.len() {
        packed = packed * 256 + u128::from(bytes[i]);
    }
    packed
}

/// The row at the front of the bytes, of a word with this first part.
pub(crate) fn row_at(layout: &Layout, part: u64, bytes: &[u8]) -> Row
    requires layout { IsLayout layout.now }
    requires part { part < 4 ^ layout.now.prefix }
    requires inside { row_long layout.now ≤ length bytes.now }
    ensures fits { result.packed < 4 ^ layout.now.k }
    ensures count { result.count < 256 ^ layout.now.counter }
    ensures part { first_part layout.now (unpack layout.now.k result.packed) ≡ part }
    ensures is { take (row_long layout.now) bytes.now
        ≡ row_of layout.now (unpack layout.now.k result.packed, result.count) }
{
    let size = (layout.k - layout.prefix) / 4;
    Row {
        packed: word_at(layout, part, &bytes[..size]),
        count: number_at(bytes, size, layout.counter),
    }
}

/// The next row, of a word with this first part; none where fewer bytes are left.
pub(crate) fn next_row<R: Read>(
    reader: &mut Counted<R>,
    room: &mut Room,
    layout: &Layout,
    part: u64,
) -> Result<Option<Row>, ReadFault>
    requires room { IsRoom room.old }
    requires layout { IsLayout layout.now }
    requires part { part < 4 ^ layout.now.prefix }
    ensures room { IsRoom room.new }
    ensures ok { IfOk result (λ answer. MatchOption answer
        (GoesOn (R.remaining reader.old.inner) (R.remaining reader.new.inner) (unread room.old)
        (unread room.new) × (length (unread room.new) < row_long layout.now)
        × IsAtEnd (R.remaining reader.new.inner))
        (λ row. IsTakenRow layout.now part (R.remaining reader.old.inner)
        (R.remaining reader.new.inner) (unread room.old) (unread room.new) row)) }
    ensures kept { OnOk result (reader.new.failures ≡ reader.old.failures) }
    ensures failed { OnErr result (RisesByOne reader.old.failures reader.new.failures) }
    ensures lost { OnErr result ((rest : List ℕ)
        × GoesOn (R.remaining reader.old.inner) (R.remaining reader.new.inner)
        (unread room.old) rest) }
{
    let size = (layout.k - layout.prefix) / 4 + layout.counter;
    if !has_next(reader, room, size)? {
        return Ok(None);
    }
    let row = row_at(layout, part, &room.bytes[room.from..room.to]);
    room.from += size;
    Ok(Some(row))
}
