//! The counts that a dump has for keys, found in one walk over it.
ghost use Rattle.std.specs.Prelude.{◌≡◌, ◌≤◌, ◌<◌, ◌^◌, ℕ, [], List, Option, IfErr, IfOk, IsSorted, OnOk, length, slice_index};
ghost use Rattle.kmc_base.specs.Words.{kmer_cmp};
ghost use Rattle.kmc_sum.specs.Listed.{IsLength};
ghost use Rattle.kmc_sum.specs.Source.{IsRoom};
ghost use Rattle.kmc_sum.specs.Sources.{Agrees, IsSource};
ghost use Rattle.kmc_join.specs.LookedUp.{IsDumpCause, IsLookedUp, IsWalkCause, first_error};

use crate::key_counts::note_count;
use crate::query_error::QueryError;
use kmc_base::{Kmer, MAX_K};
use kmc_device::Counted;
use kmc_sum::{Head, LineFault, LineRead, Room, SourceFault, first_head, next_head};
use std::alloc::Global;

/// Takes the line of the first head and those behind it, and notes the counts of the keys, each of which is 0 before.
fn walk<D: LineRead>(
    dump: &mut Counted<D>,
    room: &mut Room,
    first: Head,
    k: usize,
    keys: &[Kmer],
    counts: &mut [u64],
) -> Result<(), QueryError>
    requires room { IsRoom room.old }
    requires long { IsLength k }
    requires fits { first.packed < 4 ^ k }
    requires sorted { IsSorted kmer_cmp keys.now }
    requires each { length counts.old ≡ length keys.now }
    requires none { (j : ℕ) → j < length keys.now → slice_index counts.old j ≡ 0 }
    ensures ok { OnOk result ((start : Option (List ℕ))
        → IsSource k start (D.remaining dump.old.inner) room.old first []
        → IsLookedUp k start (D.remaining dump.new.inner) keys.now counts.new) }
    ensures kept { OnOk result (dump.new.failures ≡ dump.old.failures) }
    ensures cause { IfErr result (λ e. (start : Option (List ℕ))
        → IsSource k start (D.remaining dump.old.inner) room.old first []
        → IsWalkCause k start (D.remaining dump.new.inner) dump.old.failures dump.new.failures e) }
{
    let mut head = first;
    let mut below = 0;
    for _step in 0..u64::MAX - 1 {
        if !head.live {
            break;
        }
        let word = Kmer::of_packed(head.packed, k);
        below = note_count(keys, counts, below, &word, head.count);
        head = match next_head(dump, room, 0, k, head.packed) {
            Ok(next) => next,
            Err(error) => return Err(QueryError::Dump(error.fault)),
        };
    }
    if head.live {
        return Err(QueryError::TooLong);
    }
    Ok(())
}

/// What a fault of the first line is told as: a word of another length is one that those asked for are unlike.
fn first_error(fault: SourceFault) -> QueryError
    ensures { result ≡ first_error fault }
{
    match fault {
        SourceFault::Line(1, LineFault::OtherLength) => QueryError::Unlike,
        _ => QueryError::Dump(fault),
    }
}

/// Reads the dump, whose words are as long as said unless that is 0, to its end, and gives the count of each of the sorted keys: 0 where
/// the dump does not list it.
pub(crate) fn looked_up<D: LineRead>(
    alloc: Global,
    dump: &mut Counted<D>,
    length: usize,
    keys: &[Kmer],
) -> Result<Vec<u64>, QueryError>
    requires most { length ≤ MAX_K }
    requires sorted { IsSorted kmer_cmp keys.now }
    ensures ok { IfOk result (λ counts. (k : ℕ) × IsLength k × Agrees length k
        × IsLookedUp k (D.remaining dump.old.inner) (D.remaining dump.new.inner) keys.now
        counts.items) }
    ensures kept { OnOk result (dump.new.failures ≡ dump.old.failures) }
    ensures cause { IfErr result (IsDumpCause length (D.remaining dump.old.inner)
        (D.remaining dump.new.inner) dump.old dump.new) }
{
    let Ok(mut room) = Room::new(alloc) else {
        return Err(QueryError::Memory);
    };
    let Ok(mut counts) = vec![in alloc; 0u64; keys.len()] else {
        return Err(QueryError::Memory);
    };
    let (head, found) = match first_head(dump, &mut room, 0, length) {
        Ok(first) => first,
        Err(error) => return Err(first_error(error.fault)),
    };
    walk(
        dump,
        &mut room,
        head,
        found.max(1),
        keys,
        counts.as_mut_slice(),
    )?;
    Ok(counts)
}
