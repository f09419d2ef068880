//! Equal records, and those that begin alike: the words that they share once, with the number of the records as their weight.
ghost use Rattle.std.specs.Prelude.{◌≡◌, ◌+◌, ◌*◌, ◌%◌, ◌<◌, ◌≤◌, ℕ, All, length, map, take, slice_index_or, OnOk};
ghost use Rattle.kmc_base.specs.Packed.{unpack};
ghost use Rattle.kmc_base.specs.Record.{codes_in};
ghost use Rattle.kmc_base.specs.Strands.{keys};
ghost use Rattle.kmc_record.specs.RecordKeys.{key_words, Gains, IsRecordKey};
ghost use Rattle.kmc_count.specs.Bundles.{BothGain};
ghost use Rattle.kmc_count.specs.Waiting.{AreSettled, BothGainBetween, IsWaiting};

use crate::item_form::ItemForm;
use kmc_base::{PackedKmer, Weight, high_bytes_first};
use kmc_record::push_record;
use std::alloc::AllocError;

/// The places of a record's number: a record of so many symbols begins there and ends at a lower one.
const PLACES: usize = 64;

/// Appends the words of the first symbols of the bytes, so many times each. An item has room for a weight of at most 2^bits, so a greater
/// number is cut.
fn push_row<W: PackedKmer + Drop>(
    items: &mut Vec<W>,
    bytes: &[u8],
    symbols: usize,
    count: u64,
    form: ItemForm<W>,
) -> Result<(), AllocError>
    requires long { form.rule.k ≤ symbols }
    requires inside { symbols ≤ 4 * length bytes.now }
    requires few { length bytes.now < 1000 }
    requires some { 1 ≤ count }
    ensures { OnOk result (Gains form.rule.k form.bits (map W.number items.old.items)
        (map W.number items.new.items)
        (keys form.rule.strands form.rule.k (take symbols (codes_in bytes.now))) count) }
{
    let bits = form.bits;
    let most: u64 = 1 << bits;
    let mut left = count;
    while left > most {
        push_record(
            items,
            form.rule,
            bytes,
            symbols,
            Weight { bits, times: most },
        )?;
        left -= most;
    }
    push_record(
        items,
        form.rule,
        bytes,
        symbols,
        Weight { bits, times: left },
    )?;
    Ok(())
}

/// Appends the words of the first symbols of the bytes, so many times each: as bundles as far as they go, and what is left as items.
fn share_row<W: PackedKmer + Drop>(
    items: &mut Vec<W>,
    bundles: &mut Vec<W>,
    bytes: &[u8],
    symbols: usize,
    count: u64,
    form: ItemForm<W>,
) -> Result<(), AllocError>
    requires long { form.rule.k ≤ symbols }
    requires inside { symbols ≤ 4 * length bytes.now }
    requires few { length bytes.now < 1000 }
    requires some { 1 ≤ count }
    ensures { OnOk result (BothGain form.rule.k form.bits form.bundle (map W.number items.old.items)
        (map W.number bundles.old.items) (map W.number items.new.items) (map W.number bundles.new.items)
        (keys form.rule.strands form.rule.k (take symbols (codes_in bytes.now))) count) }
{
    let bundle = form.bundle;
    if bundle == 0 || count < bundle {
        return push_row(items, bytes, symbols, count, form);
    }
    push_row(bundles, bytes, symbols, count / bundle, form)?;
    let left = count % bundle;
    if left > 0 {
        push_row(items, bytes, symbols, left, form)?;
    }
    Ok(())
}

/// Appends the words of a record that end within its first `to` symbols and not within its first `from`, so many times each.
fn push_between<W: PackedKmer + Drop>(
    items: &mut Vec<W>,
    bundles: &mut Vec<W>,
    key: u128,
    from: usize,
    to: usize,
    count: u64,
    form: ItemForm<W>,
) -> Result<(), AllocError>
    requires order { from < to }
    requires inside { to < 64 }
    ensures { OnOk result (BothGainBetween form.rule.strands form.rule.k form.bits form.bundle key (map W.number items.old.items)
        (map W.number bundles.old.items) (map W.number items.new.items) (map W.number bundles.new.items) from to count) }
{
    let k = form.rule.k;
    if count == 0 || to < k {
        return Ok(());
    }
    let begin = (from + 1).saturating_sub(k);
    let bytes = high_bytes_first(key << (2 * begin));
    share_row(items, bundles, &bytes, to - begin, count, form)
}

/// How many symbols in front two records share, where that is a word or more; and else none.
pub(crate) fn shared_symbols(one: u128, other: u128, k: usize) -> usize
    requires { 1 ≤ k }
    ensures alike { take result (unpack 64 one) ≡ take result (unpack 64 other) }
    ensures first { result ≤ one % 64 }
    ensures second { result ≤ other % 64 }
    ensures word { 1 ≤ result → k ≤ result }
{
    let alike = ((one ^ other).leading_zeros() / 2) as usize;
    let most = alike.min((one % 64) as usize).min((other % 64) as usize);
    if most < k {
        return 0;
    }
    let behind = 128 - 2 * most;
    if one >> behind == other >> behind {
        most
    } else {
        0
    }
}

/// The greatest place below `from` at which records wait, or `shared` where that is greater. None wait inside of the first word.
fn place_below(waiting: &[u64], from: usize, shared: usize, k: usize) -> usize
    requires order { shared < from }
    requires inside { from < length waiting.now }
    requires short { (i : ℕ) → 1 ≤ i → i < k → slice_index_or waiting.now i 0 ≡ 0 }
    requires word { 1 ≤ shared → k ≤ shared }
    ensures from { result < from }
    ensures shared { shared ≤ result }
    ensures none { (i : ℕ) → result < i → i < from → slice_index_or waiting.now i 0 ≡ 0 }
    ensures word { 1 ≤ result → k ≤ result }
{
    let mut below = from - 1;
    while below > shared && below >= k {
        if waiting[below] > 0 {
            return below;
        }
        below -= 1;
    }
    shared
}

/// Appends the words of a record that end behind what it shares with the next one, each as many times as records wait at the word's end
/// or behind it; these wait then at the end of what is shared.
fn settle<W: PackedKmer + Drop>(
    items: &mut Vec<W>,
    bundles: &mut Vec<W>,
    waiting: &mut [u64; PLACES],
    key: u128,
    shared: usize,
    form: ItemForm<W>,
) -> Result<(), AllocError>
    requires inside { shared ≤ key % 64 }
    requires word { 1 ≤ shared → form.rule.k ≤ shared }
    requires waiting { IsWaiting form.rule.k (key % 64) waiting.old }
    ensures { OnOk result (AreSettled form.rule.strands form.rule.k form.bits form.bundle key shared (map W.number items.old.items)
        (map W.number bundles.old.items) waiting.old (map W.number items.new.items) (map W.number bundles.new.items) waiting.new) }
{
    let mut from = (key % 64) as usize;
    while from > shared {
        let below = place_below(waiting, from, shared, form.rule.k);
        let count = waiting[from];
        push_between(items, bundles, key, below, from, count, form)?;
        waiting[from] = 0;
        waiting[below] += count;
        from = below;
    }
    Ok(())
}

/// Appends the words of the records of these numbers as items, and where the form has bundles as bundles. Of neighbours that begin alike
/// the words that they share are appended once: a record waits at its end, and where the next one shares no more than a part of it, at the
/// end of that part, while the words behind are appended for all that wait there.
pub(crate) fn push_rows<W: PackedKmer + Drop>(
    items: &mut Vec<W>,
    bundles: &mut Vec<W>,
    keys: &[u128],
    form: ItemForm<W>,
) -> Result<(), AllocError>
    requires long { All (IsRecordKey form.rule.k) keys.now }
    ensures { OnOk result (BothGain form.rule.k form.bits form.bundle (map W.number items.old.items)
        (map W.number bundles.old.items) (map W.number items.new.items) (map W.number bundles.new.items)
        (key_words form.rule.strands form.rule.k keys.now) 1) }
{
    let mut waiting = [0; PLACES];
    let mut key = 0;
    for next in keys {
        let shared = shared_symbols(key, *next, form.rule.k);
        settle(items, bundles, &mut waiting, key, shared, form)?;
        key = *next;
        waiting[(key % 64) as usize] += 1;
    }
    settle(items, bundles, &mut waiting, key, 0, form)
}
