//! The header at the end of a prefix file, which is read through.
ghost use Rattle.std.specs.Prelude.{◌≡◌, [], OnOk, OnErr, IfOk, IfErr, ◌⊎◌};
ghost use Rattle.kmc_device.specs.Device.{RisesByOne};
ghost use Rattle.kmc_sum.specs.Source.{IsRoom, unread};
ghost use Rattle.kmc_database.specs.Files.{prefix_long};
ghost use Rattle.kmc_database.specs.Layout.{IsLayout};
ghost use Rattle.kmc_database.specs.Unpacked.{EndsInHeader, IsTold, TellsStrands, strands_by};
ghost use Rattle.kmc_database.specs.UnpackCauses.{IsRefusedFirst};
ghost use Rattle.kmc_database.specs.declared.unpack_error.UnpackError.TheVariants.{Memory};

use crate::header::HEADER;
use crate::layout::Layout;
use crate::opening::OpenDatabase;
use crate::reading::read_header;
use crate::taking::has_next;
use crate::unpack_error::UnpackError;
use kmc_base::Strands;
use kmc_device::{Counted, ReadFault};
use kmc_sum::Room;
use std::alloc::Global;
use std::io::Read;

/// The bytes of a prefix file with this layout.
pub(crate) fn prefix_long(layout: &Layout) -> u64
    requires { IsLayout layout.now }
    ensures { result ≡ prefix_long layout.now }
{
    76 + 8 * (1 << (2 * layout.prefix))
}

/// Reads a file to its end and says how many bytes it has, as far as a `u64` tells. The room keeps the last of them, as many as a header
/// has, or all where there are fewer.
fn read_through<R: Read>(reader: &mut Counted<R>, room: &mut Room) -> Result<u64, ReadFault>
    requires room { IsRoom room.old }
    requires fresh { unread room.old ≡ [] }
    ensures room { IsRoom room.new }
    ensures ok { IfOk result (λ size. IsTold (R.remaining reader.old.inner)
        (R.remaining reader.new.inner) (unread room.new) size) }
    ensures kept { OnOk result (reader.new.failures ≡ reader.old.failures) }
    ensures failed { OnErr result (RisesByOne reader.old.failures reader.new.failures) }
{
    let mut gone: u64 = 0;
    for _step in 0..u64::MAX {
        if !has_next(reader, room, HEADER + 1)? {
            return Ok(gone.saturating_add((room.to - room.from) as u64));
        }
        let more = room.to - room.from - HEADER;
        room.from += more;
        gone = gone.saturating_add(more as u64);
    }
    Ok(gone.saturating_add((room.to - room.from) as u64))
}

/// The strands that a byte of a header tells: 0 where a word and its reverse complement are counted together.
fn strands_by(byte: u8) -> Strands
    ensures { result ≡ strands_by byte }
{
    if byte == 0 {
        Strands::Joined
    } else {
        Strands::Apart
    }
}

/// What the header at the end of a prefix file tells, which is as long as that asks for. The room is empty then.
pub(crate) fn last_header<R: Read>(
    reader: &mut Counted<R>,
    room: &mut Room,
) -> Result<OpenDatabase, UnpackError>
    requires room { IsRoom room.old }
    requires fresh { unread room.old ≡ [] }
    ensures room { IsRoom room.new }
    ensures empty { OnOk result (unread room.new ≡ []) }
    ensures ok { IfOk result (λ o. EndsInHeader (R.remaining reader.old.inner)
        (R.remaining reader.new.inner) o.header) }
    ensures strands { IfOk result (λ o. TellsStrands (R.remaining reader.old.inner)
        (R.remaining reader.new.inner) o.strands) }
    ensures kept { OnOk result (reader.new.failures ≡ reader.old.failures) }
    ensures cause { IfErr result (IsRefusedFirst (R.remaining reader.old.inner)
        (R.remaining reader.new.inner) reader.old.failures reader.new.failures) }
{
    let size = match read_through(reader, room) {
        Ok(size) => size,
        Err(_) => return Err(UnpackError::ReadPrefix),
    };
    if room.to - room.from < HEADER {
        return Err(UnpackError::Length);
    }
    let last = &room.bytes[room.to - HEADER..room.to];
    let found = read_header(last);
    let strands = strands_by(last[32]);
    room.from = room.to;
    match found {
        Ok(header) => {
            if size == prefix_long(&header.layout) {
                Ok(OpenDatabase { header, strands })
            } else {
                Err(UnpackError::Length)
            }
        }
        Err(fault) => Err(UnpackError::Form(fault)),
    }
}

/// Reads a prefix file once to its end, where its header stands, and tells that. Any strands but 0 are those by themselves, as KMC's tools
/// have it. It takes a block of 64 KiB.
pub fn database_header<R: Read>(
    alloc: Global,
    reader: &mut Counted<R>,
) -> Result<OpenDatabase, UnpackError>
    ensures ok { IfOk result (λ o. EndsInHeader (R.remaining reader.old.inner)
        (R.remaining reader.new.inner) o.header) }
    ensures strands { IfOk result (λ o. TellsStrands (R.remaining reader.old.inner)
        (R.remaining reader.new.inner) o.strands) }
    ensures kept { OnOk result (reader.new.failures ≡ reader.old.failures) }
    ensures cause { IfErr result (λ e. ((e ≡ Memory) × (reader.new ≡ reader.old))
        ⊎ IsRefusedFirst (R.remaining reader.old.inner) (R.remaining reader.new.inner)
        reader.old.failures reader.new.failures e) }
{
    let mut room = match Room::new(alloc) {
        Ok(room) => room,
        Err(_) => return Err(UnpackError::Memory),
    };
    last_header(reader, &mut room)
}
