//! Items of short words, those of equal words added up: a counter for each word takes the place of a sort.
ghost use Rattle.std.specs.Prelude.{◌≡◌, ℕ, ◌+◌, ◌*◌, ◌/◌, ◌^◌, ◌<◌, ◌≤◌, ◌++◌, ◌∷◌, [], List, map, drop, length, max, replicate, true, OnOk, IsErrOf};
ghost use Rattle.kmc_base.specs.Weights.{items, worth, AreItems};
ghost use Rattle.kmc_record.specs.Faults.{IsFirstFault};
ghost use Rattle.kmc_record.specs.declared.fault.RecordFault.{RecordFault};
ghost use Rattle.kmc_count.specs.Bodies.{AreItemsOfBody, WantsMemory};
ghost use Rattle.kmc_count.specs.Tables.{table_worth, ComeToAsMuch, IsTable, TakesIn};

use crate::item_form::ItemForm;
use crate::room::CountingRoom;
use crate::taking::take_words;
use kmc_base::{PackedKmer, Weight};
use kmc_record::BodyError;
use std::alloc::AllocError;

/// The most symbols of a word that has a counter: the counters of all words of 12 symbols take 64 MiB.
const MOST_TABLE_SYMBOLS: usize = 12;

/// A table is worth its while where it has at most so many counters for each byte of the body.
const COUNTERS_OF_A_BYTE: usize = 8;

/// Whether the words of a body of so many bytes are counted in a table.
pub(crate) fn takes_table(k: usize, bytes: usize) -> bool
    ensures { result ≡ true → k ≤ MOST_TABLE_SYMBOLS }
{
    k <= MOST_TABLE_SYMBOLS && (1 << (2 * k)) / COUNTERS_OF_A_BYTE <= bytes
}

/// Adds an item to the counter of its word. Where that is full, what it counted becomes an item, and it begins anew.
fn add_item<W: PackedKmer + Drop>(
    table: &mut [u32],
    over: &mut Vec<W>,
    item: W,
    form: ItemForm<W>,
) -> Result<(), AllocError>
    requires short { form.rule.k ≤ MOST_TABLE_SYMBOLS }
    requires table { IsTable form.rule.k form.bits table.old }
    requires fits { W.number item / 2 ^ form.bits < 4 ^ form.rule.k }
    ensures { OnOk result (TakesIn form.rule.k form.bits table.old (map W.number over.old.items) table.new
        (map W.number over.new.items) (W.number item ∷ [])) }
{
    let bits = form.bits;
    let word = item.without_weight(bits);
    let times = item.times(bits) as u32;
    let place = word.to_u128() as usize;
    let count = table[place];
    if count + times > 1 << bits {
        let times_before = u64::from(count);
        over.push(word.weighted(Weight {
            bits,
            times: times_before,
        }))?;
        table[place] = times;
    } else {
        table[place] = count + times;
    }
    Ok(())
}

/// Adds all items to the counters of their words.
fn add_items<W: PackedKmer + Drop>(
    table: &mut [u32],
    over: &mut Vec<W>,
    added: &[W],
    form: ItemForm<W>,
) -> Result<(), AllocError>
    requires short { form.rule.k ≤ MOST_TABLE_SYMBOLS }
    requires table { IsTable form.rule.k form.bits table.old }
    requires fit { AreItems form.rule.k form.bits (map W.number added.now) }
    ensures { OnOk result (TakesIn form.rule.k form.bits table.old (map W.number over.old.items) table.new
        (map W.number over.new.items) (map W.number added.now)) }
{
    for item in added {
        add_item(table, over, *item, form)?;
    }
    Ok(())
}

/// Appends an item for each word whose counter is not 0.
fn push_counters<W: PackedKmer + Drop>(
    out: &mut Vec<W>,
    table: &[u32],
    form: ItemForm<W>,
) -> Result<(), AllocError>
    requires short { form.rule.k ≤ MOST_TABLE_SYMBOLS }
    requires table { IsTable form.rule.k form.bits table.now }
    ensures each { OnOk result ((g : List ℕ → ℕ)
        → worth g (items form.rule.k form.bits (map W.number out.new.items))
        ≡ worth g (items form.rule.k form.bits (map W.number out.old.items)) + table_worth g form.rule.k 0 table.now) }
    ensures fit { OnOk result (AreItems form.rule.k form.bits (map W.number out.old.items)
        → AreItems form.rule.k form.bits (map W.number out.new.items)) }
{
    for place in 0..table.len() {
        let count = table[place];
        if count > 0 {
            let word = W::of_packed(place as u32);
            out.push(word.weighted(Weight {
                bits: form.bits,
                times: u64::from(count),
            }))?;
        }
    }
    Ok(())
}

/// Makes the table of counters, each 0, in its room.
fn make_table(table: &mut Vec<u32>, k: usize) -> Result<(), AllocError>
    requires { k ≤ MOST_TABLE_SYMBOLS }
    ensures { OnOk result (table.new.items ≡ replicate (4 ^ k) 0) }
{
    table.clear();
    table.resize(1 << (2 * k), 0)?;
    Ok(())
}

/// Adds up the items of equal words, in counters that are made anew in the room `table`; `over` has room for items of full
/// counters.
pub(crate) fn add_up<W: PackedKmer + Drop>(
    items: &mut Vec<W>,
    table: &mut Vec<u32>,
    over: &mut Vec<W>,
    form: ItemForm<W>,
) -> Result<(), AllocError>
    requires short { form.rule.k ≤ MOST_TABLE_SYMBOLS }
    requires fit { AreItems form.rule.k form.bits (map W.number items.old.items) }
    ensures { OnOk result (ComeToAsMuch form.rule.k form.bits (map W.number items.old.items)
        (map W.number items.new.items)) }
{
    make_table(table, form.rule.k)?;
    over.clear();
    add_items(table.as_mut_slice(), over, items, form)?;
    items.clear();
    items.append(over)?;
    push_counters(items, table, form)
}

/// So many items at least wait before they are added up.
const FEWEST_ITEMS: usize = 1 << 14;

/// So many items for each counter wait before they are added up.
const ITEMS_OF_A_COUNTER: usize = 2;

/// How many items of short words may wait before they are added up.
fn most_items(k: usize) -> usize
    requires { k ≤ MOST_TABLE_SYMBOLS }
    ensures { result ≡ max (2 ^ 14) (2 * 4 ^ k) }
{
    FEWEST_ITEMS.max(ITEMS_OF_A_COUNTER << (2 * k))
}

/// Takes in the words of a body as items, and adds up those of equal words each time that there are many, so that items do not
/// grow with the body.
pub(crate) fn take_and_add<W: PackedKmer + Drop>(
    room: &mut CountingRoom<W>,
    body: &[u8],
    form: ItemForm<W>,
) -> Result<(), BodyError>
    requires short { form.rule.k ≤ MOST_TABLE_SYMBOLS }
    ensures ok { OnOk result (AreItemsOfBody form.rule.strands form.rule.k form.bits body.now
        (map W.number room.new.items.items)) }
    ensures damaged { (fault : RecordFault) (offset : ℕ)
        → IsErrOf result (BodyError.Damaged fault offset)
        → IsFirstFault form.rule.k fault offset body.now }
    ensures memory { IsErrOf result BodyError.Memory → WantsMemory form.rule.k body.now }
    ensures unasked { ¬ (IsErrOf result BodyError.WrongBin) }
{
    let CountingRoom {
        items,
        table,
        over,
        ..
    } = room;
    let most = most_items(form.rule.k);
    items.clear();
    let mut offset = 0;
    while offset < body.len() {
        offset = take_words(items, body, offset, form)?;
        if items.len() >= most {
            add_up(items, table, over, form)?;
        }
    }
    add_up(items, table, over, form)?;
    Ok(())
}
