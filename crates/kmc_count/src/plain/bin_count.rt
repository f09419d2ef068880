//! The count of a bin in plain form: every word of every record in one list, sorted.
ghost use Rattle.std.specs.Prelude.{◌≡◌, ℕ, ◌≤◌, [], map, OnOk, IfOk, IsErrOf};
ghost use Rattle.kmc_record.specs.Faults.{IsFirstFault};
ghost use Rattle.kmc_record.specs.Refusals.{StopsAtRecord};
ghost use Rattle.kmc_record.specs.declared.fault.RecordFault.{RecordFault};
ghost use Rattle.kmc_count.specs.Bodies.{IsDumpOfBody, WantsMemory};
ghost use Rattle.kmc_count.specs.SortedKeys.{AreSortedKeys};

use crate::limits::Limits;
use crate::plain::direct::NARROW_K;
use crate::plain::words::tally_words;
use kmc_base::{KeyRule, Kmer, MAX_K, PackedKmer, Strands};
use kmc_record::{BodyError, push_body};
use std::alloc::Global;

/// The packed keys of the words of a body, sorted, behind none.
fn sorted_keys<W: PackedKmer + Drop>(
    words: &mut Vec<W>,
    body: &[u8],
    rule: KeyRule,
) -> Result<(), BodyError>
    requires most { rule.k ≤ W.most }
    requires none { words.old.items ≡ [] }
    ensures ok { OnOk result (AreSortedKeys rule.strands rule.k body.now
        (map W.number words.new.items)) }
    ensures damaged { (fault : RecordFault) (offset : ℕ)
        → IsErrOf result (BodyError.Damaged fault offset)
        → IsFirstFault rule.k fault offset body.now }
    ensures memory { IsErrOf result BodyError.Memory → StopsAtRecord rule.k body.now }
{
    push_body(words, body, rule.k, rule.strands)?;
    W::sort(words);
    Ok(())
}

/// The dump of a body, over words of one width.
fn count_words<W: PackedKmer + Drop>(
    alloc: Global,
    body: &[u8],
    rule: KeyRule,
    limits: &Limits,
) -> Result<Vec<(Kmer, u64)>, BodyError>
    requires { rule.k ≤ W.most }
    ensures ok { IfOk result (λ pairs. IsDumpOfBody rule.strands rule.k limits.now body.now
        pairs.items) }
    ensures damaged { (fault : RecordFault) (offset : ℕ)
        → IsErrOf result (BodyError.Damaged fault offset)
        → IsFirstFault rule.k fault offset body.now }
    ensures memory { IsErrOf result BodyError.Memory → WantsMemory rule.k body.now }
{
    let mut words: Vec<W> = Vec::new(alloc);
    sorted_keys(&mut words, body, rule)?;
    let mut pairs = Vec::new(alloc);
    tally_words(&mut pairs, &words, rule, limits)?;
    Ok(pairs)
}

/// The dump of the records of a body: each key of their words, rising, with the number of words that have it
/// as far as the limits list it. It takes 8 bytes a word, 16 above k = 32. A body that is damaged is not
/// counted in part. The pairs are in plain form, 48 bytes each.
pub fn count_bin(
    alloc: Global,
    body: &[u8],
    k: usize,
    strands: Strands,
    limits: &Limits,
) -> Result<Vec<(Kmer, u64)>, BodyError>
    requires some { 1 ≤ k }
    requires most { k ≤ MAX_K }
    ensures ok { IfOk result (λ pairs. IsDumpOfBody strands k limits.now body.now pairs.items) }
    ensures damaged { (fault : RecordFault) (offset : ℕ)
        → IsErrOf result (BodyError.Damaged fault offset) → IsFirstFault k fault offset body.now }
    ensures memory { IsErrOf result BodyError.Memory → WantsMemory k body.now }
{
    let rule = KeyRule { k, strands };
    if k <= NARROW_K {
        count_words::<u64>(alloc, body, rule, limits)
    } else {
        count_words::<u128>(alloc, body, rule, limits)
    }
}
