//! The next bytes of a file, taken from a room that is filled as they are wanted.
ghost use Rattle.std.specs.Prelude.{◌≡◌, ℕ, ◌^◌, ◌<◌, ◌≤◌, ◌++◌, List, length, true, false, OnOk, OnErr, IfOk, MatchOption};
ghost use Rattle.std.specs.Io.KnownBytes.{IsAtEnd};
ghost use Rattle.kmc_device.specs.Device.{RisesByOne};
ghost use Rattle.kmc_sum.specs.Numbers.{longest_line};
ghost use Rattle.kmc_sum.specs.Source.{GoesOn, IsRoom, unread};
ghost use Rattle.kmc_database.specs.Numbers.{low_first};

use crate::number::number_at;
use kmc_device::{Counted, ReadFault};
use kmc_sum::{Room, fill};
use std::io::Read;

/// Whether so many bytes are still to be taken; where they are, they are in the room, and else all that is left is.
pub(crate) fn has_next<R: Read>(
    reader: &mut Counted<R>,
    room: &mut Room,
    size: usize,
) -> Result<bool, ReadFault>
    requires room { IsRoom room.old }
    requires few { size ≤ longest_line }
    ensures room { IsRoom room.new }
    ensures ok { OnOk result (GoesOn (R.remaining reader.old.inner) (R.remaining reader.new.inner)
        (unread room.old) (unread room.new)) }
    ensures there { IfOk result (λ there. there ≡ true → size ≤ length (unread room.new)) }
    ensures short { IfOk result (λ there. there ≡ false → (length (unread room.new) < size)
        × IsAtEnd (R.remaining reader.new.inner)) }
    ensures kept { OnOk result (reader.new.failures ≡ reader.old.failures) }
    ensures failed { OnErr result (RisesByOne reader.old.failures reader.new.failures) }
    ensures lost { OnErr result ((rest : List ℕ)
        × GoesOn (R.remaining reader.old.inner) (R.remaining reader.new.inner)
        (unread room.old) rest) }
{
    match fill(reader, room) {
        Ok(()) => Ok(room.to - room.from >= size),
        Err(_) => Err(ReadFault),
    }
}

/// The next number, of so many bytes, the lowest first; none where fewer bytes are left.
pub(crate) fn next_number<R: Read>(
    reader: &mut Counted<R>,
    room: &mut Room,
    size: usize,
) -> Result<Option<u64>, ReadFault>
    requires room { IsRoom room.old }
    requires few { size ≤ 8 }
    ensures room { IsRoom room.new }
    ensures ok { IfOk result (λ answer. MatchOption answer
        (GoesOn (R.remaining reader.old.inner) (R.remaining reader.new.inner) (unread room.old)
        (unread room.new) × (length (unread room.new) < size)
        × IsAtEnd (R.remaining reader.new.inner))
        (λ number. GoesOn (R.remaining reader.old.inner) (R.remaining reader.new.inner)
        (unread room.old) (low_first size number ++ unread room.new) × (number < 256 ^ size))) }
    ensures kept { OnOk result (reader.new.failures ≡ reader.old.failures) }
    ensures failed { OnErr result (RisesByOne reader.old.failures reader.new.failures) }
    ensures lost { OnErr result ((rest : List ℕ)
        × GoesOn (R.remaining reader.old.inner) (R.remaining reader.new.inner)
        (unread room.old) rest) }
{
    if !has_next(reader, room, size)? {
        return Ok(None);
    }
    let number = number_at(&room.bytes, room.from, size);
    room.from += size;
    Ok(Some(number))
}
