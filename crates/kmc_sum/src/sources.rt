//! Many sources side by side: their first lines, and one line more of the source whose head is first.
ghost use Rattle.std.specs.Prelude.{◌≡◌, ℕ, ◌+◌, ◌*◌, ◌<◌, ◌≤◌, ◌^◌, ◌++◌, List, length, true, OnOk, OnErr, IfOk, IfErr, Option};
ghost use Rattle.kmc_device.specs.Device.{RisesByOne};
ghost use Rattle.kmc_sum.specs.Heads.{rank, head_at, pending, IsTree};
ghost use Rattle.kmc_sum.specs.Sources.{IsSource, AreReady, AreSources, with_first, GaveFronts, failures_of, lefts_of};
ghost use Rattle.kmc_sum.specs.Refusals.{IsFaultOf};
ghost use Rattle.kmc_sum.specs.Faults.{GaveFront, IsFaultAt};
ghost use Rattle.kmc_sum.specs.Source.{IsRoom};
ghost use Rattle.kmc_sum.specs.declared.error.LineFault.{LineFault};

use crate::error::{SourceError, SourceFault};
use crate::heads::{Head, mend};
use crate::line_read::LineRead;
use crate::source::{Room, next_pair};
use kmc_device::Counted;

/// The head of a source behind one with the word `packed` of `k` codes.
pub fn next_head<R: LineRead>(
    reader: &mut Counted<R>,
    room: &mut Room,
    source: usize,
    k: usize,
    packed: u128,
) -> Result<Head, SourceError>
    requires { IsRoom room.old }
    ensures room { IsRoom room.new }
    ensures ok { IfOk result (λ h. (start : Option (List ℕ)) (head : Head)
        (taken : List (List ℕ × ℕ)) → head.live ≡ true → head.packed ≡ packed
        → IsSource k start (R.remaining reader.old.inner) room.old head taken
        → IsSource k start (R.remaining reader.new.inner) room.new h (taken ++ pending k head)) }
    ensures behind { IfOk result (λ h. (h.source ≡ source) × (packed ≤ rank h)
        × (h.packed < 4 ^ k)) }
    ensures source { IfErr result (λ e. e.source ≡ source) }
    ensures fault { IfErr result (λ e. (line : ℕ) (fault : LineFault)
        → e.fault ≡ SourceFault.Line line fault
        → (start : Option (List ℕ)) (head : Head) (taken : List (List ℕ × ℕ)) → head.live ≡ true
        → head.packed ≡ packed
        → IsSource k start (R.remaining reader.old.inner) room.old head taken
        → IsFaultAt k start (R.remaining reader.new.inner) line fault × (2 ≤ line)) }
    ensures kept { OnOk result (reader.new.failures ≡ reader.old.failures) }
    ensures read { IfErr result (λ e. e.fault ≡ SourceFault.Read
        → RisesByOne reader.old.failures reader.new.failures) }
    ensures lost { OnErr result ((start : Option (List ℕ)) (head : Head) (taken : List (List ℕ × ℕ))
        → IsSource k start (R.remaining reader.old.inner) room.old head taken
        → (rest : List ℕ) × GaveFront k start (R.remaining reader.new.inner) taken rest) }
{
    match next_pair(reader, room, k, packed) {
        Ok(Some(line)) => Ok(Head {
            live: true,
            packed: line.packed,
            count: line.count,
            source,
        }),
        Ok(None) => Ok(Head {
            live: false,
            packed: 0,
            count: 0,
            source,
        }),
        Err(fault) => Err(SourceError { source, fault }),
    }
}

/// Takes the first head, and puts the next line of its source there.
pub fn advance<R: LineRead>(
    readers: &mut [Counted<R>],
    rooms: &mut [Room],
    heads: &mut [Head],
    k: usize,
) -> Result<(), SourceError>
    requires ready { AreReady k (length readers.old) rooms.old heads.old }
    requires some { 1 ≤ length readers.old }
    requires inside { (head_at heads.old 1).source < length readers.old }
    requires tree { IsTree heads.old }
    requires live { (head_at heads.old 1).live ≡ true }
    ensures ready { OnOk result (AreReady k (length readers.new) rooms.new heads.new) }
    ensures sources { OnOk result ((starts : List (Option (List ℕ)))
        (lists : List (List (List ℕ × ℕ)))
        → AreSources k starts (lefts_of R.remaining readers.old) rooms.old heads.old lists
        → AreSources k starts (lefts_of R.remaining readers.new) rooms.new heads.new
        (with_first k heads.old lists)) }
    ensures tree { OnOk result (IsTree heads.new) }
    ensures behind { OnOk result ((j : ℕ) → length readers.old ≤ j → j < 2 * length readers.old
        → (head_at heads.old 1).packed ≤ rank (head_at heads.new j)) }
    ensures fault { IfErr result (λ e.
        (starts : List (Option (List ℕ))) (lists : List (List (List ℕ × ℕ)))
        → AreSources k starts (lefts_of R.remaining readers.old) rooms.old heads.old lists
        → IsFaultOf k starts (lefts_of R.remaining readers.new) (failures_of readers.old)
        (failures_of readers.new) e.source e.fault) }
    ensures kept { OnOk result (failures_of readers.new ≡ failures_of readers.old) }
    ensures lost { OnErr result
        ((starts : List (Option (List ℕ))) (lists : List (List (List ℕ × ℕ)))
        → AreSources k starts (lefts_of R.remaining readers.old) rooms.old heads.old lists
        → GaveFronts k starts (lefts_of R.remaining readers.new) lists) }
{
    let count = readers.len();
    let source = heads[1].source;
    let packed = heads[1].packed;
    let head = next_head(&mut readers[source], &mut rooms[source], source, k, packed)?;
    let leaf = count + source;
    heads[leaf] = head;
    mend(heads, leaf / 2);
    Ok(())
}
