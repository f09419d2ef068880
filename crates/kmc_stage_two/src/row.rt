//! Bodies that are counted one after the other.
ghost use Rattle.std.specs.Prelude.{◌≤◌, ℕ, map, IfOk, IsErrOf};
ghost use Rattle.kmc_record.specs.declared.fault.RecordFault.{RecordFault};
ghost use Rattle.kmc_count.specs.Asked.{AreForeign, AreOfBins};
ghost use Rattle.kmc_count.specs.Bodies.{IsFirstDamaged};
ghost use Rattle.kmc_stage_two.specs.Bodies.{AreListsOfBodies, BodiesWantMemory};

use crate::body::list_body;
use crate::count_rule::CountRule;
use kmc_base::PackedKmer;
use kmc_count::CountingRoom;
use kmc_lists::{CountWidth, KmerList};
use kmc_record::BodyError;
use std::alloc::Global;

/// The list of each body, counted one after the other in the same room. Where bodies are damaged, the fault is that of the first
/// such body; `Memory` where a growth is refused before one was met.
pub fn list_row<W: PackedKmer + Drop, C: CountWidth + Drop>(
    alloc: Global,
    bodies: &[Vec<u8>],
    counting: &CountRule,
) -> Result<Vec<KmerList<W, C>>, BodyError>
    requires most { counting.now.rule.k ≤ W.most }
    requires wide { counting.now.limits.cs ≤ C.greatest }
    ensures ok { IfOk result (λ lists. AreListsOfBodies counting.now.rule.strands counting.now.rule.k counting.now.limits
        (map (λ b. b.items) bodies.now) lists.items) }
    ensures damaged { (fault : RecordFault) (offset : ℕ)
        → IsErrOf result (BodyError.Damaged fault offset)
        → IsFirstDamaged counting.now.rule.k fault offset (map (λ b. b.items) bodies.now) }
    ensures memory { IsErrOf result BodyError.Memory
        → BodiesWantMemory counting.now.rule.k (map (λ b. b.items) bodies.now) }
    ensures judged { IfOk result (λ _. AreOfBins counting.now.asked (map (λ b. b.items) bodies.now)) }
    ensures wrong { IsErrOf result BodyError.WrongBin
        → AreForeign counting.now.rule.k counting.now.asked (map (λ b. b.items) bodies.now) }
{
    let mut room: CountingRoom<W> = CountingRoom::new(alloc);
    let mut lists = Vec::new(alloc);
    for place in 0..bodies.len() {
        let list = list_body(&mut room, alloc, &bodies[place], place, counting)?;
        if lists.push(list).is_err() {
            return Err(BodyError::Memory);
        }
    }
    Ok(lists)
}
