//! The words of a body.
ghost use Rattle.std.specs.Prelude.{◌≡◌, ℕ, ◌<◌, ◌≤◌, ◌++◌, List, map, OnOk, IsErrOf};
ghost use Rattle.kmc_base.specs.Packed.{pack};
ghost use Rattle.kmc_base.specs.Record.{IsBodyOf};
ghost use Rattle.kmc_record.specs.RecordWords.{record_keys};
ghost use Rattle.kmc_record.specs.Faults.{IsFirstFault};
ghost use Rattle.kmc_record.specs.Refusals.{StopsAtRecord};
ghost use Rattle.kmc_record.specs.declared.fault.RecordFault.{RecordFault};

use crate::fault::BodyError;
use crate::record::{first_record, push_record};
use kmc_base::{KeyRule, MAX_K, PackedKmer, Strands, Weight};

/// A word that is counted once, with no bits for that.
const ONCE: Weight = Weight { bits: 0, times: 1 };

/// Appends the packed keys of all words of a body, record by record, in the order of their places. The walk
/// makes no super-k-mer: it rolls a window along the symbols where they lie.
pub fn push_body<W: PackedKmer + Drop>(
    words: &mut Vec<W>,
    body: &[u8],
    k: usize,
    strands: Strands,
) -> Result<(), BodyError>
    requires some { 1 ≤ k }
    requires most { k ≤ W.most }
    requires limit { k ≤ MAX_K }
    ensures ok { OnOk result ((ss : List (List ℕ)) × IsBodyOf k ss body.now
        × (map W.number words.new.items
        ≡ map W.number words.old.items ++ map pack (record_keys strands k ss))) }
    ensures damaged { (fault : RecordFault) (offset : ℕ)
        → IsErrOf result (BodyError.Damaged fault offset) → IsFirstFault k fault offset body.now }
    ensures memory { IsErrOf result BodyError.Memory → StopsAtRecord k body.now }
{
    let mut offset = 0;
    while offset < body.len() {
        let (symbols, bytes) = match first_record(&body[offset..], k) {
            Ok(found) => found,
            Err(fault) => return Err(BodyError::Damaged(fault, offset)),
        };
        let rule = KeyRule { k, strands };
        push_record(words, rule, bytes, symbols, ONCE)?;
        offset += 1 + bytes.len();
    }
    Ok(())
}
