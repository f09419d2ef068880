//! What stands in the files of a database but for the rows: markers, the entries of the table, and the header behind it.
ghost use Rattle.std.specs.Prelude.{◌≡◌, ◌≢◌, ℕ, ◌^◌, ◌<◌, ◌≤◌, ◌⊎◌, ◌++◌, [], List, length, true, false, OnOk, OnErr, IfOk, IfErr};
ghost use Rattle.std.specs.Io.KnownBytes.{IsAtEnd};
ghost use Rattle.kmc_device.specs.Device.{RisesByOne};
ghost use Rattle.kmc_sum.specs.Source.{GoesOn, IsRoom, unread};
ghost use Rattle.kmc_database.specs.Checked.{HasEntry, IsEntryRefused};
ghost use Rattle.kmc_database.specs.Header.{IsHeaderOf};
ghost use Rattle.kmc_database.specs.Numbers.{low_first};
ghost use Rattle.kmc_database.specs.UnpackCauses.{BeginsOtherwise, IsOtherHeader};

use crate::header::HEADER;
use crate::number::number_at;
use crate::reading::{Header, read_header};
use crate::taking::{has_next, next_number};
use crate::unpack_error::UnpackError;
use kmc_device::{Counted, ReadFault};
use kmc_sum::Room;
use std::io::Read;

/// The bytes of a marker.
const MARKER: usize = 4;

/// Takes the marker at the beginning of a file, and says whether it is this one.
pub(crate) fn begins_with<R: Read>(
    reader: &mut Counted<R>,
    room: &mut Room,
    marker: u64,
) -> Result<bool, ReadFault>
    requires room { IsRoom room.old }
    requires fresh { unread room.old ≡ [] }
    requires marker { marker < 256 ^ 4 }
    ensures room { IsRoom room.new }
    ensures begins { IfOk result (λ begins. begins ≡ true
        → GoesOn (R.remaining reader.old.inner) (R.remaining reader.new.inner) []
        (low_first 4 marker ++ unread room.new)) }
    ensures other { IfOk result (λ begins. begins ≡ false
        → BeginsOtherwise (low_first 4 marker) (R.remaining reader.old.inner)
        (R.remaining reader.new.inner)) }
    ensures kept { OnOk result (reader.new.failures ≡ reader.old.failures) }
    ensures failed { OnErr result (RisesByOne reader.old.failures reader.new.failures) }
{
    match next_number(reader, room, MARKER)? {
        Some(found) => Ok(found == marker),
        None => Ok(false),
    }
}

/// Whether all that is left of a file is this marker.
pub(crate) fn ends_with<R: Read>(
    reader: &mut Counted<R>,
    room: &mut Room,
    marker: u64,
) -> Result<bool, ReadFault>
    requires room { IsRoom room.old }
    requires marker { marker < 256 ^ 4 }
    ensures room { IsRoom room.new }
    ensures ok { OnOk result (GoesOn (R.remaining reader.old.inner) (R.remaining reader.new.inner)
        (unread room.old) (unread room.new)) }
    ensures ends { IfOk result (λ ends. ends ≡ true → (unread room.new ≡ low_first 4 marker)
        × IsAtEnd (R.remaining reader.new.inner)) }
    ensures other { IfOk result (λ ends. ends ≡ false → (unread room.new ≢ low_first 4 marker)
        × ((4 < length (unread room.new)) ⊎ IsAtEnd (R.remaining reader.new.inner))) }
    ensures kept { OnOk result (reader.new.failures ≡ reader.old.failures) }
    ensures failed { OnErr result (RisesByOne reader.old.failures reader.new.failures) }
    ensures lost { OnErr result ((rest : List ℕ)
        × GoesOn (R.remaining reader.old.inner) (R.remaining reader.new.inner)
        (unread room.old) rest) }
{
    if has_next(reader, room, MARKER + 1)? {
        return Ok(false);
    }
    if room.to - room.from != MARKER {
        return Ok(false);
    }
    Ok(number_at(&room.bytes, room.from, MARKER) == marker)
}

/// Whether bytes are this header.
fn is_header(bytes: &[u8], header: &Header) -> bool
    ensures same { result ≡ true → IsHeaderOf bytes.now header.now }
    ensures other { result ≡ false → IsOtherHeader bytes.now header.now }
{
    if bytes.len() != HEADER {
        return false;
    }
    match read_header(bytes) {
        Ok(found) => found == *header,
        Err(_) => false,
    }
}

/// Whether all that is left of a file is this header.
pub(crate) fn ends_in<R: Read>(
    reader: &mut Counted<R>,
    room: &mut Room,
    header: &Header,
) -> Result<bool, ReadFault>
    requires { IsRoom room.old }
    ensures room { IsRoom room.new }
    ensures ok { OnOk result (GoesOn (R.remaining reader.old.inner) (R.remaining reader.new.inner)
        (unread room.old) (unread room.new)) }
    ensures ends { IfOk result (λ ends. ends ≡ true → IsHeaderOf (unread room.new) header.now
        × IsAtEnd (R.remaining reader.new.inner)) }
    ensures other { IfOk result (λ ends. ends ≡ false → IsOtherHeader (unread room.new) header.now
        × ((HEADER < length (unread room.new)) ⊎ IsAtEnd (R.remaining reader.new.inner))) }
    ensures kept { OnOk result (reader.new.failures ≡ reader.old.failures) }
    ensures failed { OnErr result (RisesByOne reader.old.failures reader.new.failures) }
    ensures lost { OnErr result ((rest : List ℕ)
        × GoesOn (R.remaining reader.old.inner) (R.remaining reader.new.inner)
        (unread room.old) rest) }
{
    if has_next(reader, room, HEADER + 1)? {
        return Ok(false);
    }
    Ok(is_header(&room.bytes[room.from..room.to], header))
}

/// The next entry of a table, which has this number and is to be no less and no more than these.
pub(crate) fn next_entry<R: Read>(
    reader: &mut Counted<R>,
    room: &mut Room,
    number: u64,
    least: u64,
    most: u64,
) -> Result<u64, UnpackError>
    requires { IsRoom room.old }
    ensures room { IsRoom room.new }
    ensures ok { IfOk result (λ entry. HasEntry least most (R.remaining reader.old.inner)
        (R.remaining reader.new.inner) (unread room.old) (unread room.new) entry) }
    ensures kept { OnOk result (reader.new.failures ≡ reader.old.failures) }
    ensures cause { IfErr result (IsEntryRefused number least most (R.remaining reader.old.inner)
        (R.remaining reader.new.inner) (unread room.old) reader.old.failures
        reader.new.failures) }
{
    match next_number(reader, room, 8) {
        Ok(Some(entry)) => {
            if entry < least || entry > most {
                return Err(UnpackError::Entry(number));
            }
            Ok(entry)
        }
        Ok(None) => Err(UnpackError::Changed),
        Err(_) => Err(UnpackError::ReadPrefix),
    }
}
