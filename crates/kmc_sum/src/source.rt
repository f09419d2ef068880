//! A source of lines: a reader, and a room for the bytes that it gave and that are not yet judged, a block at a time.
ghost use Rattle.std.specs.Prelude.{◌≡◌, ◌≢◌, ℕ, ◌+◌, ◌-◌, ◌^◌, ◌<◌, ◌≤◌, ◌++◌, [], List, length, take, drop, min, OnOk, OnErr, IfOk, IfErr, IsErrOf, MatchOption, Option, IfSome, None};
ghost use Rattle.std.specs.Io.KnownBytes.{IsAtEnd, Keeps};
ghost use Rattle.kmc_device.specs.Device.{RisesByOne};
ghost use Rattle.kmc_sum.specs.Line.{IsLineOf};
ghost use Rattle.kmc_sum.specs.Faults.{BeginsNoLine, GaveFront, IsFaultAt, line_after};
ghost use Rattle.kmc_sum.specs.Pairs.{EndsIn, pairs_of};
ghost use Rattle.kmc_sum.specs.declared.error.LineFault.{LineFault};
ghost use Rattle.kmc_sum.specs.declared.error.SourceFault.{SourceFault};
ghost use Rattle.kmc_sum.specs.Source.{unread, IsRoom, IsEnough, GoesOn, HandsOut};

use crate::error::{LineFault, SourceFault};
use crate::line::{Line, line_at};
use crate::line_read::LineRead;
use kmc_base::MAX_K;
use kmc_device::{Counted, read_behind};
use std::alloc::{AllocError, Global};
use std::io::Read;

/// The most bytes of a line: the letters, a tab, twenty digits, a line feed.
pub const LONGEST_LINE: usize = MAX_K + 22;

/// The bytes that a reader is asked for at a time.
const BLOCK: usize = 65536;

/// The bytes of a source from `from` to `to` are read and not yet judged, and `lines` of its lines were taken.
#[derive(Drop)]
pub struct Room {
    pub bytes: Vec<u8>,
    pub from: usize,
    pub to: usize,
    pub lines: u64,
}

impl Room {
    /// A room with no bytes in it.
    pub fn new(alloc: Global) -> Result<Room, AllocError>
        ensures { IfOk result (λ r. IsRoom r × (unread r ≡ []) × (r.lines ≡ 0)) }
    {
        let bytes = vec![in alloc; 0; BLOCK]?;
        Ok(Room {
            bytes,
            from: 0,
            to: 0,
            lines: 0,
        })
    }
}

/// Moves the bytes from `from` to `to` to the front.
fn shift(bytes: &mut [u8], from: usize, to: usize)
    requires order { from ≤ to }
    requires inside { to ≤ length bytes.old }
    ensures { take (to - from) bytes.new ≡ take (to - from) (drop from bytes.old) }
{
    bytes.copy_within(from..to, 0);
}

/// Reads until enough bytes for a line are there, or nothing is left.
pub fn fill<R: Read>(reader: &mut Counted<R>, room: &mut Room) -> Result<(), SourceFault>
    requires { IsRoom room.old }
    ensures room { IsRoom room.new }
    ensures lines { room.new.lines ≡ room.old.lines }
    ensures ok { OnOk result (GoesOn (R.remaining reader.old.inner) (R.remaining reader.new.inner)
        (unread room.old) (unread room.new)) }
    ensures enough { OnOk result (IsEnough (unread room.new) (R.remaining reader.new.inner)) }
    ensures kept { OnOk result (reader.new.failures ≡ reader.old.failures) }
    ensures failed { OnErr result (RisesByOne reader.old.failures reader.new.failures) }
    ensures read { IfErr result (λ e. e ≡ SourceFault.Read) }
    ensures lost { OnErr result
        ((rest : List ℕ)
        × GoesOn (R.remaining reader.old.inner) (R.remaining reader.new.inner)
        (unread room.old) rest) }
{
    if room.to - room.from >= LONGEST_LINE {
        return Ok(());
    }
    shift(room.bytes.as_mut_slice(), room.from, room.to);
    room.to -= room.from;
    room.from = 0;
    while room.to < LONGEST_LINE {
        let end = read_behind(reader, room.bytes.as_mut_slice(), room.to)?;
        if end == room.to {
            return Ok(());
        }
        room.to = end;
    }
    Ok(())
}

/// Takes the next line of a source from its bytes, where it has one.
fn next_text_line<R: Read>(
    reader: &mut Counted<R>,
    room: &mut Room,
) -> Result<Option<Line>, SourceFault>
    requires { IsRoom room.old }
    ensures room { IsRoom room.new }
    ensures ok { IfOk result (λ answer. (rest : List ℕ)
        × GoesOn (R.remaining reader.old.inner) (R.remaining reader.new.inner)
        (unread room.old) rest
        × MatchOption answer
        ((rest ≡ []) × (unread room.new ≡ []) × (room.new.lines ≡ room.old.lines)
        × IsAtEnd (R.remaining reader.new.inner))
        (λ l. IsLineOf l rest × (unread room.new ≡ drop l.end rest)
        × (room.new.lines ≡ min (room.old.lines + 1) (2 ^ 64 - 1)))) }
    ensures malformed { (line : ℕ) (fault : LineFault)
        → IsErrOf result (SourceFault.Line line fault)
        → (line ≡ min (room.old.lines + 1) (2 ^ 64 - 1)) × (fault ≡ LineFault.Malformed)
        × (rest : List ℕ)
        × GoesOn (R.remaining reader.old.inner) (R.remaining reader.new.inner)
        (unread room.old) rest
        × (rest ≢ []) × IsEnough rest (R.remaining reader.new.inner) × BeginsNoLine rest }
    ensures kept { OnOk result (reader.new.failures ≡ reader.old.failures) }
    ensures read { IsErrOf result SourceFault.Read
        → RisesByOne reader.old.failures reader.new.failures }
    ensures lost { OnErr result
        ((rest : List ℕ)
        × GoesOn (R.remaining reader.old.inner) (R.remaining reader.new.inner)
        (unread room.old) rest) }
{
    match fill(reader, room) {
        Ok(()) => {}
        Err(_) => return Err(SourceFault::Read),
    }
    if room.from == room.to {
        return Ok(None);
    }
    let number = room.lines.saturating_add(1);
    match line_at(&room.bytes[room.from..room.to]) {
        Some(line) => {
            room.from += line.end;
            room.lines = number;
            Ok(Some(line))
        }
        None => Err(SourceFault::Line(number, LineFault::Malformed)),
    }
}

/// Takes the next line of a reader, where it has it at hand.
fn handed_line<R: LineRead>(reader: &mut Counted<R>) -> Option<Line>
    ensures line { MatchOption result
        (Keeps (R.remaining reader.old.inner) (R.remaining reader.new.inner))
        (HandsOut (R.remaining reader.old.inner) (R.remaining reader.new.inner)) }
    ensures kept { reader.new.failures ≡ reader.old.failures }
{
    reader.inner_mut().take_line()
}

/// Takes the next line of a source, where it has one. A line that the reader has at hand is taken as it is.
pub fn next_line<R: LineRead>(
    reader: &mut Counted<R>,
    room: &mut Room,
) -> Result<Option<Line>, SourceFault>
    requires { IsRoom room.old }
    ensures room { IsRoom room.new }
    ensures ok { IfOk result (λ answer. (rest : List ℕ)
        × GoesOn (R.remaining reader.old.inner) (R.remaining reader.new.inner)
        (unread room.old) rest
        × MatchOption answer
        ((rest ≡ []) × (unread room.new ≡ []) × (room.new.lines ≡ room.old.lines)
        × IsAtEnd (R.remaining reader.new.inner))
        (λ l. IsLineOf l rest × (unread room.new ≡ drop l.end rest)
        × (room.new.lines ≡ min (room.old.lines + 1) (2 ^ 64 - 1)))) }
    ensures malformed { (line : ℕ) (fault : LineFault)
        → IsErrOf result (SourceFault.Line line fault)
        → (line ≡ min (room.old.lines + 1) (2 ^ 64 - 1)) × (fault ≡ LineFault.Malformed)
        × (rest : List ℕ)
        × GoesOn (R.remaining reader.old.inner) (R.remaining reader.new.inner)
        (unread room.old) rest
        × (rest ≢ []) × IsEnough rest (R.remaining reader.new.inner) × BeginsNoLine rest }
    ensures kept { OnOk result (reader.new.failures ≡ reader.old.failures) }
    ensures read { IsErrOf result SourceFault.Read
        → RisesByOne reader.old.failures reader.new.failures }
    ensures lost { OnErr result
        ((rest : List ℕ)
        × GoesOn (R.remaining reader.old.inner) (R.remaining reader.new.inner)
        (unread room.old) rest) }
{
    if room.from == room.to {
        if let Some(line) = handed_line(reader) {
            room.lines = room.lines.saturating_add(1);
            return Ok(Some(line));
        }
    }
    next_text_line(reader, room)
}

/// Takes the next line of a source behind a line with the word `last` of `k` codes.
pub fn next_pair<R: LineRead>(
    reader: &mut Counted<R>,
    room: &mut Room,
    k: usize,
    last: u128,
) -> Result<Option<Line>, SourceFault>
    requires { IsRoom room.old }
    ensures room { IsRoom room.new }
    ensures ok { IfOk result (λ answer. (start : Option (List ℕ)) (pairs : List (List ℕ × ℕ))
        → EndsIn k last pairs
        → GaveFront k start (R.remaining reader.old.inner) pairs (unread room.old)
        → GaveFront k start (R.remaining reader.new.inner) (pairs ++ pairs_of k answer)
        (unread room.new)) }
    ensures ended { IfOk result (λ answer. answer ≡ None → (unread room.new ≡ [])
        × IsAtEnd (R.remaining reader.new.inner) × (room.new.lines ≡ room.old.lines)) }
    ensures more { IfOk result (λ answer. IfSome answer
        (λ l. (last < l.packed) × (l.packed < 4 ^ k) × (l.count < 2 ^ 64)
        × (room.new.lines ≡ min (room.old.lines + 1) (2 ^ 64 - 1)))) }
    ensures fault { (line : ℕ) (fault : LineFault)
        → IsErrOf result (SourceFault.Line line fault)
        → (line ≡ min (room.old.lines + 1) (2 ^ 64 - 1))
        × ((start : Option (List ℕ)) (pairs : List (List ℕ × ℕ)) → EndsIn k last pairs
        → GaveFront k start (R.remaining reader.old.inner) pairs (unread room.old)
        → IsFaultAt k start (R.remaining reader.new.inner) (line_after pairs) fault) }
    ensures kept { OnOk result (reader.new.failures ≡ reader.old.failures) }
    ensures read { IsErrOf result SourceFault.Read
        → RisesByOne reader.old.failures reader.new.failures }
    ensures lost { OnErr result
        ((rest : List ℕ)
        × GoesOn (R.remaining reader.old.inner) (R.remaining reader.new.inner)
        (unread room.old) rest) }
{
    match next_line(reader, room) {
        Ok(Some(line)) => {
            if line.k != k {
                Err(SourceFault::Line(room.lines, LineFault::OtherLength))
            } else if line.packed <= last {
                Err(SourceFault::Line(room.lines, LineFault::NotRising))
            } else {
                Ok(Some(line))
            }
        }
        Ok(None) => Ok(None),
        Err(fault) => Err(fault),
    }
}
