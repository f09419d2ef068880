//! The count of a body: its words and their counts in packed form.
ghost use Rattle.std.specs.Prelude.{ℕ, ◌<◌, ◌≤◌, IfOk, IsErrOf};
ghost use Rattle.kmc_count.specs.Asked.{asked_behind, IsForeign, IsOfBin};
ghost use Rattle.kmc_record.specs.Faults.{IsFirstFault};
ghost use Rattle.kmc_record.specs.declared.fault.RecordFault.{RecordFault};
ghost use Rattle.kmc_count.specs.Bodies.{IsDumpOfBody, WantsMemory};
ghost use Rattle.kmc_lists.specs.Listed.{IsListOf, pairs_of};

use crate::count_rule::CountRule;
use kmc_base::PackedKmer;
use kmc_count::{CountingRoom, bin_behind, count_into};
use kmc_lists::{CountWidth, KmerList};
use kmc_record::BodyError;
use std::alloc::Global;

/// The dump of the body at a place in packed form; its words belong to the bin that is asked for there. The room may be used again for
/// the next body. The list keeps no more memory than its pairs need.
pub(crate) fn list_body<W: PackedKmer + Drop, C: CountWidth + Drop>(
    room: &mut CountingRoom<W>,
    alloc: Global,
    body: &[u8],
    place: usize,
    counting: &CountRule,
) -> Result<KmerList<W, C>, BodyError>
    requires most { counting.now.rule.k ≤ W.most }
    requires wide { counting.now.limits.cs ≤ C.greatest }
    ensures list { IfOk result (λ c. IsListOf counting.now.rule.k c) }
    ensures ok { IfOk result (λ c. IsDumpOfBody counting.now.rule.strands counting.now.rule.k counting.now.limits body.now
        (pairs_of c)) }
    ensures damaged { (fault : RecordFault) (offset : ℕ)
        → IsErrOf result (BodyError.Damaged fault offset)
        → IsFirstFault counting.now.rule.k fault offset body.now }
    ensures memory { IsErrOf result BodyError.Memory → WantsMemory counting.now.rule.k body.now }
    ensures judged { IfOk result (λ _. IsOfBin (asked_behind place counting.now.asked) body.now) }
    ensures wrong { IsErrOf result BodyError.WrongBin
        → IsForeign counting.now.rule.k (asked_behind place counting.now.asked) body.now }
{
    let asked = bin_behind(counting.asked, place);
    let mut pairs = KmerList::new(alloc, counting.rule.k);
    count_into(
        room,
        &mut pairs,
        body,
        counting.rule,
        &counting.limits,
        asked,
    )?;
    pairs.shrink();
    Ok(pairs)
}
