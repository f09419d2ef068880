//! The count of a bin: equal records once, their words with weights as items in one list, and the dump of items.
ghost use Rattle.std.specs.Prelude.{◌≡◌, ℕ, ◌+◌, ◌*◌, ◌≤◌, [], List, map, OnOk, IfOk, IsErrOf};
ghost use Rattle.std.specs.List.Sorted.{IsPermutation, IsSorted};
ghost use Rattle.std.specs.Ordering.{nat_cmp};
ghost use Rattle.kmc_base.specs.Weights.{AreItems};
ghost use Rattle.kmc_record.specs.Faults.{IsFirstFault};
ghost use Rattle.kmc_record.specs.declared.fault.RecordFault.{RecordFault};
ghost use Rattle.kmc_count.specs.Asked.{IsForeign, IsOfBin};
ghost use Rattle.kmc_count.specs.Bodies.{AreItemsOfBody, IsDumpOfBody, WantsMemory};
ghost use Rattle.kmc_count.specs.Bundles.{AreBundledItems};

use crate::adding::{take_and_add, takes_table};
use crate::item_form::{ItemForm, bundle_of};
use crate::judging::{AskedBin, asked_of, is_of_bin, keys_in_bin};
use crate::limits::Limits;
use crate::room::CountingRoom;
use crate::rows::push_rows;
use crate::taking::take_body;
use crate::tallying::tally_both;
use kmc_base::{KeyRule, PackedKmer};
use kmc_lists::PairList;
use kmc_record::BodyError;
use kmc_split::laws::strands_share_signature;
use std::alloc::{AllocError, Global};
use std::marker::PhantomData;

/// Sorts the numbers of records, by the faster way for their width where there is memory for that.
fn sort_numbers(numbers: &mut Vec<u128>)
    ensures moved { IsPermutation numbers.old.items numbers.new.items }
    ensures sorted { IsSorted nat_cmp numbers.new.items }
{
    if numbers.sort().is_err() {
        numbers.sort_unstable();
    }
}

/// The words of a body as items, and as bundles where the form has them. Where equal records are looked for, they are sorted first, each as
/// the lesser of it and its reverse complement, so that those that begin alike stand side by side: what they share is unpacked once, and
/// judged once where a bin is asked for.
fn take_and_sort<W: PackedKmer + Drop>(
    room: &mut CountingRoom<W>,
    body: &[u8],
    form: ItemForm<W>,
    asked: Option<AskedBin>,
) -> Result<(), BodyError>
    ensures ok { OnOk result (AreBundledItems form.rule.strands form.rule.k form.bits form.bundle body.now
        (map W.number room.new.items.items) (map W.number room.new.bundles.items)) }
    ensures damaged { (fault : RecordFault) (offset : ℕ)
        → IsErrOf result (BodyError.Damaged fault offset)
        → IsFirstFault form.rule.k fault offset body.now }
    ensures memory { IsErrOf result BodyError.Memory → WantsMemory form.rule.k body.now }
    ensures judged { OnOk result (IsOfBin asked body.now) }
    ensures wrong { IsErrOf result BodyError.WrongBin → IsForeign form.rule.k asked body.now }
{
    strands_share_signature();
    let short = room.repeats.short_records();
    let (of_records, of_numbers) = asked_of(asked, form.rule.k + 3 <= short);
    if !is_of_bin(body, of_records) {
        return Err(BodyError::WrongBin);
    }
    room.numbers.clear();
    room.items.clear();
    room.bundles.clear();
    take_body(&mut room.numbers, &mut room.items, body, form, short)?;
    sort_numbers(&mut room.numbers);
    if !keys_in_bin(&room.numbers, form.rule.k, of_numbers) {
        return Err(BodyError::WrongBin);
    }
    room.repeats.learn(&room.numbers);
    push_rows(&mut room.items, &mut room.bundles, &room.numbers, form)?;
    Ok(())
}

/// The words of a body as items, and as bundles where the form has them. Many short words are added up in a table.
fn take_items<W: PackedKmer + Drop>(
    room: &mut CountingRoom<W>,
    body: &[u8],
    form: ItemForm<W>,
    asked: Option<AskedBin>,
) -> Result<(), BodyError>
    ensures ok { OnOk result (AreBundledItems form.rule.strands form.rule.k form.bits form.bundle body.now
        (map W.number room.new.items.items) (map W.number room.new.bundles.items)) }
    ensures damaged { (fault : RecordFault) (offset : ℕ)
        → IsErrOf result (BodyError.Damaged fault offset)
        → IsFirstFault form.rule.k fault offset body.now }
    ensures memory { IsErrOf result BodyError.Memory → WantsMemory form.rule.k body.now }
    ensures judged { OnOk result (IsOfBin asked body.now) }
    ensures wrong { IsErrOf result BodyError.WrongBin → IsForeign form.rule.k asked body.now }
{
    if !takes_table(form.rule.k, body.len()) {
        return take_and_sort(room, body, form, asked);
    }
    if !is_of_bin(body, asked) {
        return Err(BodyError::WrongBin);
    }
    take_and_add(room, body, form)?;
    room.bundles.clear();
    Ok(())
}

/// The words of a body as items, which rise, so that those of one word are neighbours. How often a word comes is the sum of the
/// weights of its items; there are no bundles, whatever the form says of them. Where a bin is asked for, all words belong to it.
pub fn items_of_body<W: PackedKmer + Drop>(
    alloc: Global,
    body: &[u8],
    form: ItemForm<W>,
    asked: Option<AskedBin>,
) -> Result<Vec<W>, BodyError>
    ensures ok { IfOk result (λ items. AreItemsOfBody form.rule.strands form.rule.k form.bits body.now
        (map W.number items.items)) }
    ensures sorted { IfOk result (λ items. IsSorted nat_cmp (map W.number items.items)) }
    ensures damaged { (fault : RecordFault) (offset : ℕ)
        → IsErrOf result (BodyError.Damaged fault offset)
        → IsFirstFault form.rule.k fault offset body.now }
    ensures memory { IsErrOf result BodyError.Memory → WantsMemory form.rule.k body.now }
    ensures judged { IfOk result (λ _. IsOfBin asked body.now) }
    ensures wrong { IsErrOf result BodyError.WrongBin → IsForeign form.rule.k asked body.now }
{
    let mut items = {
        let mut room = CountingRoom::new(alloc);
        let alone: ItemForm<W> = ItemForm {
            rule: form.rule,
            bits: form.bits,
            bundle: 0,
            width: PhantomData,
        };
        take_items(&mut room, body, alone, asked)?;
        let CountingRoom { items, .. } = room;
        items
    };
    W::sort(&mut items);
    Ok(items)
}

/// Puts the dump of the items and bundles of a room into an empty list of pairs, and sorts them for that.
fn dump_items<W: PackedKmer + Drop, L: PairList<W>>(
    room: &mut CountingRoom<W>,
    pairs: &mut L,
    form: ItemForm<W>,
    limits: &Limits,
) -> Result<(), AllocError>
    requires takes { L.takes form.rule.k pairs.old }
    requires empty { L.pairs pairs.old ≡ [] }
    requires wide { limits.now.cs ≤ L.greatest }
    requires bundle { 1 ≤ form.bundle }
    requires fit { AreItems form.rule.k form.bits (map W.number room.old.items.items) }
    requires bundles_fit { AreItems form.rule.k form.bits (map W.number room.old.bundles.items) }
    ensures takes { OnOk result (L.takes form.rule.k pairs.new) }
    ensures ok { (body : List ℕ)
        → AreBundledItems form.rule.strands form.rule.k form.bits form.bundle body (map W.number room.old.items.items)
        (map W.number room.old.bundles.items)
        → OnOk result (IsDumpOfBody form.rule.strands form.rule.k limits.now body (L.pairs pairs.new)) }
{
    W::sort(&mut room.items);
    W::sort(&mut room.bundles);
    tally_both(pairs, &room.items, &room.bundles, form, limits)
}

/// Puts the dump of a body into an empty list of pairs. Where a bin is asked for, all words belong to it. The room may be used again for
/// the next body.
pub fn count_into<W: PackedKmer + Drop, L: PairList<W>>(
    room: &mut CountingRoom<W>,
    pairs: &mut L,
    body: &[u8],
    rule: KeyRule,
    limits: &Limits,
    asked: Option<AskedBin>,
) -> Result<(), BodyError>
    requires most { rule.k ≤ W.most }
    requires takes { L.takes rule.k pairs.old }
    requires empty { L.pairs pairs.old ≡ [] }
    requires wide { limits.now.cs ≤ L.greatest }
    ensures takes { OnOk result (L.takes rule.k pairs.new) }
    ensures ok { OnOk result (IsDumpOfBody rule.strands rule.k limits.now body.now
        (L.pairs pairs.new)) }
    ensures damaged { (fault : RecordFault) (offset : ℕ)
        → IsErrOf result (BodyError.Damaged fault offset)
        → IsFirstFault rule.k fault offset body.now }
    ensures memory { IsErrOf result BodyError.Memory → WantsMemory rule.k body.now }
    ensures judged { OnOk result (IsOfBin asked body.now) }
    ensures wrong { IsErrOf result BodyError.WrongBin → IsForeign rule.k asked body.now }
{
    let bits = W::weight_bits(rule.k);
    let form: ItemForm<W> = ItemForm {
        rule,
        bits,
        bundle: bundle_of(bits),
        width: PhantomData,
    };
    take_items(room, body, form, asked)?;
    dump_items(room, pairs, form, limits)?;
    Ok(())
}
