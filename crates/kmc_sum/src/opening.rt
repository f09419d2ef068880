//! The first lines of all sources.
ghost use Rattle.std.specs.Prelude.{◌≡◌, ℕ, ◌+◌, ◌*◌, ◌^◌, ◌<◌, ◌≤◌, ◌⊎◌, [], List, length, OnOk, OnErr, IfOk, IfErr, slice_index_or};
ghost use Rattle.kmc_device.specs.Device.{RisesByOne};
ghost use Rattle.kmc_sum.specs.Listed.{IsLength};
ghost use Rattle.kmc_sum.specs.Faults.{GaveFront, IsFaultAt};
ghost use Rattle.kmc_sum.specs.Source.{IsRoom};
ghost use Rattle.kmc_sum.specs.Sources.{IsSource, IsFresh, Agrees, AreReady, AreSources, GaveFronts, no_lists, failures_of, lefts_of};
ghost use Rattle.kmc_sum.specs.Refusals.{BeginsWith, IsFaultOf};
ghost use Rattle.kmc_sum.specs.declared.error.LineFault.{LineFault};

use crate::error::{LineFault, SourceError, SourceFault};
use crate::heads::Head;
use crate::line_read::LineRead;
use crate::source::{Room, next_line};
use kmc_base::MAX_K;
use kmc_device::Counted;
use std::alloc::{AllocError, Global};

/// So many rooms.
pub fn rooms_for(alloc: Global, count: usize) -> Result<Vec<Room>, AllocError>
    ensures { IfOk result (λ rooms. (length rooms.items ≡ count)
        × ((i : ℕ) (room : _) → i < count → IsFresh (slice_index_or rooms.items i room))) }
{
    let mut rooms = Vec::new(alloc);
    for _i in 0..count {
        rooms.push(Room::new(alloc)?)?;
    }
    Ok(rooms)
}

/// So many heads that are not live.
pub fn heads_for(alloc: Global, count: usize) -> Result<Vec<Head>, AllocError>
    ensures { IfOk result (λ heads. length heads.items ≡ count) }
{
    let mut heads = Vec::new(alloc);
    for _i in 0..count {
        heads.push(Head {
            live: false,
            packed: 0,
            count: 0,
            source: 0,
        })?;
    }
    Ok(heads)
}

/// The first head of a source, and the length of its word, which is `k` unless that is 0.
pub fn first_head<R: LineRead>(
    reader: &mut Counted<R>,
    room: &mut Room,
    source: usize,
    k: usize,
) -> Result<(Head, usize), SourceError>
    requires fresh { IsFresh room.old }
    requires most { k ≤ MAX_K }
    ensures room { IsRoom room.new }
    ensures length { IfOk result (λ r. (r.0.source ≡ source) × (r.1 ≤ MAX_K)
        × ((k ≡ 0) ⊎ (r.1 ≡ k))) }
    ensures fits { IfOk result (λ r. (m : ℕ) → Agrees r.1 m → r.0.packed < 4 ^ m) }
    ensures ok { IfOk result (λ r. (m : ℕ) → Agrees r.1 m
        → IsSource m (R.remaining reader.old.inner)
        (R.remaining reader.new.inner) room.new r.0 []) }
    ensures source { IfErr result (λ e. e.source ≡ source) }
    ensures fault { IfErr result (λ e. (line : ℕ) (fault : LineFault)
        → e.fault ≡ SourceFault.Line line fault → (m : ℕ) × IsLength m
        × IsFaultAt m (R.remaining reader.old.inner) (R.remaining reader.new.inner) line fault
        × (fault ≡ LineFault.OtherLength → m ≡ k)) }
    ensures begins { IfOk result (λ r. (r.1 ≡ k)
        ⊎ BeginsWith r.1 (R.remaining reader.old.inner) (R.remaining reader.new.inner)) }
    ensures kept { OnOk result (reader.new.failures ≡ reader.old.failures) }
    ensures read { IfErr result (λ e. e.fault ≡ SourceFault.Read
        → RisesByOne reader.old.failures reader.new.failures) }
    ensures lost { OnErr result
        ((m : ℕ) → (rest : List ℕ)
        × GaveFront m (R.remaining reader.old.inner) (R.remaining reader.new.inner) [] rest) }
{
    match next_line(reader, room) {
        Ok(Some(line)) => {
            if k != 0 && line.k != k {
                let fault = SourceFault::Line(room.lines, LineFault::OtherLength);
                return Err(SourceError { source, fault });
            }
            let head = Head {
                live: true,
                packed: line.packed,
                count: line.count,
                source,
            };
            Ok((head, line.k))
        }
        Ok(None) => {
            let head = Head {
                live: false,
                packed: 0,
                count: 0,
                source,
            };
            Ok((head, k))
        }
        Err(fault) => Err(SourceError { source, fault }),
    }
}

/// Puts the first heads of all sources to their places, and says how long their words are: 1 where there is none.
pub fn open<R: LineRead>(
    readers: &mut [Counted<R>],
    rooms: &mut [Room],
    heads: &mut [Head],
) -> Result<usize, SourceError>
    requires rooms { (length rooms.old ≡ length readers.old)
        × ((i : ℕ) (room : _) → i < length readers.old
        → IsFresh (slice_index_or rooms.old i room)) }
    requires heads { length heads.old ≡ 2 * length readers.old }
    ensures length { IfOk result IsLength }
    ensures ready { IfOk result (λ k. AreReady k (length readers.new) rooms.new heads.new) }
    ensures sources { IfOk result (λ k. let starts = lefts_of R.remaining readers.old in
        AreSources k starts (lefts_of R.remaining readers.new) rooms.new heads.new
        (no_lists starts)) }
    ensures fault { IfErr result (λ e. (m : ℕ) × IsLength m
        × IsFaultOf m (lefts_of R.remaining readers.old) (lefts_of R.remaining readers.new)
        (failures_of readers.old) (failures_of readers.new) e.source e.fault) }
    ensures kept { OnOk result (failures_of readers.new ≡ failures_of readers.old) }
    ensures lost { OnErr result ((m : ℕ) → let starts = lefts_of R.remaining readers.old in
        GaveFronts m starts (lefts_of R.remaining readers.new) (no_lists starts)) }
{
    let count = readers.len();
    let mut k = 0;
    for i in 0..count {
        let (head, found) = first_head(&mut readers[i], &mut rooms[i], i, k)?;
        heads[count + i] = head;
        k = found;
    }
    if k == 0 { Ok(1) } else { Ok(k) }
}
