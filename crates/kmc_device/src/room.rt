//! Bytes that are read behind others.
ghost use Rattle.std.specs.Prelude.{◌≡◌, ℕ, ◌+◌, ◌<◌, ◌≤◌, List, length, OnOk, OnErr, IfOk};
ghost use Rattle.std.specs.Io.KnownBytes.{Consumes, IsAtEnd, Keeps};
ghost use Rattle.kmc_device.specs.Device.{RisesByOne};
ghost use Rattle.kmc_device.specs.Room.{CameBehind};

use crate::counted::Counted;
use std::io::Read;

/// A read failed.
#[derive(Clone, Copy, Debug, PartialEq, Eq)]
pub struct ReadFault;

/// Reads once behind the first `to` bytes of a room, and says where what came ends: at `to` only where nothing is left.
pub fn read_behind<R: Read>(
    reader: &mut Counted<R>,
    room: &mut [u8],
    to: usize,
) -> Result<usize, ReadFault>
    requires { to < length room.old }
    ensures ok { IfOk result (λ end. (to ≤ end) × (end ≤ length room.new)
        × CameBehind (R.remaining reader.old.inner) (R.remaining reader.new.inner) to end room.old
        room.new) }
    ensures all { IfOk result (λ end. end ≡ to → IsAtEnd (R.remaining reader.new.inner)) }
    ensures kept { OnOk result (reader.new.failures ≡ reader.old.failures) }
    ensures failed { OnErr result (RisesByOne reader.old.failures reader.new.failures) }
    ensures bytes { OnErr result
        (Keeps (R.remaining reader.old.inner) (R.remaining reader.new.inner)) }
{
    match reader.read(&mut room[to..]) {
        Ok(n) => Ok(to + n),
        Err(_) => Err(ReadFault),
    }
}

/// Reads behind the first `to` bytes until the room is full or nothing is left, and says where what came ends.
pub fn fill_behind<R: Read>(
    reader: &mut Counted<R>,
    room: &mut [u8],
    to: usize,
) -> Result<usize, ReadFault>
    requires { to ≤ length room.old }
    ensures ok { IfOk result (λ end. (to ≤ end) × (end ≤ length room.new)
        × CameBehind (R.remaining reader.old.inner) (R.remaining reader.new.inner) to end room.old
        room.new) }
    ensures all { IfOk result (λ end. end < length room.new
        → IsAtEnd (R.remaining reader.new.inner)) }
    ensures kept { OnOk result (reader.new.failures ≡ reader.old.failures) }
    ensures failed { OnErr result (RisesByOne reader.old.failures reader.new.failures) }
    ensures given { OnErr result ((bytes : List ℕ)
        × Consumes (R.remaining reader.old.inner) (R.remaining reader.new.inner) bytes) }
{
    let mut end = to;
    while end < room.len() {
        let next = read_behind(reader, room, end)?;
        if next == end {
            return Ok(next);
        }
        end = next;
    }
    Ok(end)
}
