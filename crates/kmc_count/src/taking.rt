//! A body's records, taken in to be counted: as numbers, the long ones as those of their pieces; or their words as items.
ghost use Rattle.std.specs.Prelude.{◌≡◌, ℕ, ◌+◌, ◌*◌, ◌<◌, ◌≤◌, ◌++◌, ◌∷◌, [], List, length, map, take, OnOk, IfOk, IsErrOf};
ghost use Rattle.kmc_base.specs.Record.{codes_in, size_of, IsBodyOf};
ghost use Rattle.kmc_record.specs.RecordKeys.{GainsWords, IsTaken};
ghost use Rattle.kmc_record.specs.Faults.{IsFirstFault};
ghost use Rattle.kmc_record.specs.Refusals.{StopsAtRecord};
ghost use Rattle.kmc_record.specs.declared.fault.RecordFault.{RecordFault};
ghost use Rattle.kmc_record.specs.declared.record_keys.TheConstants.{MOST_KEY_SYMBOLS};

use crate::item_form::ItemForm;
use kmc_base::{KeyRule, PackedKmer, Weight};
use kmc_record::{BodyError, MOST_KEY_SYMBOLS, code_bytes, first_record, push_record, record_key};
use std::alloc::AllocError;

/// Puts the number of the first symbols of the bytes behind the numbers.
fn push_piece(
    numbers: &mut Vec<u128>,
    bytes: &[u8],
    symbols: usize,
    rule: KeyRule,
) -> Result<(), AllocError>
    requires long { rule.k ≤ symbols }
    requires short { symbols ≤ MOST_KEY_SYMBOLS }
    requires inside { symbols ≤ 4 * length bytes.now }
    ensures { OnOk result (GainsWords rule.strands rule.k numbers.old.items numbers.new.items
        (take symbols (codes_in bytes.now))) }
{
    numbers.push(record_key(bytes, symbols, rule.strands))?;
    Ok(())
}

/// How many bytes on the next piece of a long record begins, so that a piece has at most `short` symbols and each word stands
/// in one piece; 0 where there is no such place.
fn bytes_on(k: usize, short: usize) -> usize
    requires some { 1 ≤ k }
    requires short { short ≤ MOST_KEY_SYMBOLS }
    ensures fits { 1 ≤ result → 4 * result + k ≤ short + 1 }
    ensures some { k + 3 ≤ short → 1 ≤ result }
{
    if short < k {
        return 0;
    }
    (short - k + 1) / 4
}

/// Puts the numbers of a record's pieces behind the numbers. Each begins `on` bytes behind the one before, and neighbours
/// overlap by k - 1 symbols. A record of at most `short` symbols is one piece.
fn push_pieces(
    numbers: &mut Vec<u128>,
    bytes: &[u8],
    symbols: usize,
    rule: KeyRule,
    short: usize,
    on: usize,
) -> Result<(), AllocError>
    requires long { rule.k ≤ symbols }
    requires short { short ≤ MOST_KEY_SYMBOLS }
    requires inside { symbols ≤ 4 * length bytes.now }
    requires few { symbols < 1000 }
    requires on { short < symbols → (1 ≤ on) × (4 * on + rule.k ≤ short + 1) }
    ensures { OnOk result (GainsWords rule.strands rule.k numbers.old.items numbers.new.items
        (take symbols (codes_in bytes.now))) }
{
    let mut at = 0;
    while 4 * at + short < symbols {
        push_piece(numbers, &bytes[at..], 4 * on + rule.k - 1, rule)?;
        at += on;
    }
    push_piece(numbers, &bytes[at..], symbols - 4 * at, rule)?;
    Ok(())
}

/// Takes in one record more, the first symbols of the bytes: as the numbers of its pieces of at most `short` symbols, or where no
/// four words fit one, word by word.
fn take_record<W: PackedKmer + Drop>(
    numbers: &mut Vec<u128>,
    items: &mut Vec<W>,
    bytes: &[u8],
    symbols: usize,
    form: ItemForm<W>,
    short: usize,
) -> Result<(), AllocError>
    requires short { short ≤ MOST_KEY_SYMBOLS }
    requires long { form.rule.k ≤ symbols }
    requires inside { symbols ≤ 4 * length bytes.now }
    requires few { symbols < 1000 }
    ensures taken { OnOk result ((ss : List (List ℕ))
        → IsTaken form.rule.strands form.rule.k form.bits numbers.old.items (map W.number items.old.items) ss
        → IsTaken form.rule.strands form.rule.k form.bits numbers.new.items (map W.number items.new.items)
        (ss ++ take symbols (codes_in bytes.now) ∷ [])) }
    ensures numbers { form.rule.k + 3 ≤ short → items.new ≡ items.old }
{
    let on = bytes_on(form.rule.k, short);
    if symbols <= short || on > 0 {
        push_pieces(numbers, bytes, symbols, form.rule, short, on)?;
    } else {
        let weight = Weight {
            bits: form.bits,
            times: 1,
        };
        let codes = &bytes[..code_bytes(symbols)];
        push_record(items, form.rule, codes, symbols, weight)?;
    }
    Ok(())
}

/// Takes in the records of a body, record by record: as numbers of at most `short` symbols, or where no four words fit one, the
/// words. Where pieces of four words fit, all become numbers. The items have so many bits for their weights.
pub(crate) fn take_body<W: PackedKmer + Drop>(
    numbers: &mut Vec<u128>,
    items: &mut Vec<W>,
    body: &[u8],
    form: ItemForm<W>,
    short: usize,
) -> Result<(), BodyError>
    requires short { short ≤ MOST_KEY_SYMBOLS }
    requires no_numbers { numbers.old.items ≡ [] }
    requires no_items { items.old.items ≡ [] }
    ensures ok { OnOk result ((ss : List (List ℕ)) × IsBodyOf form.rule.k ss body.now
        × IsTaken form.rule.strands form.rule.k form.bits numbers.new.items (map W.number items.new.items) ss) }
    ensures damaged { (fault : RecordFault) (offset : ℕ)
        → IsErrOf result (BodyError.Damaged fault offset)
        → IsFirstFault form.rule.k fault offset body.now }
    ensures memory { IsErrOf result BodyError.Memory → StopsAtRecord form.rule.k body.now }
    ensures numbers { form.rule.k + 3 ≤ short → items.new ≡ items.old }
    ensures unasked { ¬ (IsErrOf result BodyError.WrongBin) }
{
    let mut offset = 0;
    while offset < body.len() {
        let rest = &body[offset..];
        let (symbols, codes) = match first_record(rest, form.rule.k) {
            Ok(found) => found,
            Err(fault) => return Err(BodyError::Damaged(fault, offset)),
        };
        take_record(numbers, items, &rest[1..], symbols, form, short)?;
        offset += 1 + codes.len();
    }
    Ok(())
}

/// Appends the words of the record at an offset of a body as items, each of weight 1. The answer is the offset behind the record.
pub(crate) fn take_words<W: PackedKmer + Drop>(
    items: &mut Vec<W>,
    body: &[u8],
    offset: usize,
    form: ItemForm<W>,
) -> Result<usize, BodyError>
    requires inside { offset < length body.now }
    ensures on { IfOk result (λ next. (offset < next) × (next ≤ length body.now)) }
    ensures ok { (ss : List (List ℕ)) → IsBodyOf form.rule.k ss (take offset body.now)
        → IfOk result (λ next. (s : List ℕ) × IsBodyOf form.rule.k (ss ++ s ∷ []) (take next body.now)
        × (IsTaken form.rule.strands form.rule.k form.bits [] (map W.number items.old.items) ss
        → IsTaken form.rule.strands form.rule.k form.bits [] (map W.number items.new.items) (ss ++ s ∷ []))
        × StopsAtRecord form.rule.k body.now) }
    ensures damaged { (ss : List (List ℕ)) → IsBodyOf form.rule.k ss (take offset body.now)
        → (fault : RecordFault) (at : ℕ) → IsErrOf result (BodyError.Damaged fault at)
        → IsFirstFault form.rule.k fault at body.now }
    ensures memory { (ss : List (List ℕ)) → IsBodyOf form.rule.k ss (take offset body.now)
        → IsErrOf result BodyError.Memory → StopsAtRecord form.rule.k body.now }
    ensures unasked { ¬ (IsErrOf result BodyError.WrongBin) }
{
    let (symbols, codes) = match first_record(&body[offset..], form.rule.k) {
        Ok(found) => found,
        Err(fault) => return Err(BodyError::Damaged(fault, offset)),
    };
    let weight = Weight {
        bits: form.bits,
        times: 1,
    };
    push_record(items, form.rule, codes, symbols, weight)?;
    Ok(offset + 1 + codes.len())
}
