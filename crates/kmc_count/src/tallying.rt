//! From sorted words with weights to the pairs of a dump.
ghost use Rattle.std.specs.Prelude.{◌≡◌, ◌^◌, ◌<◌, ◌≤◌, ◌++◌, [], map, OnOk};
ghost use Rattle.std.specs.List.{cons_option};
ghost use Rattle.std.specs.List.Sorted.{IsSorted};
ghost use Rattle.std.specs.Ordering.{nat_cmp};
ghost use Rattle.kmc_base.specs.Packed.{unpack};
ghost use Rattle.kmc_base.specs.Weights.{items, AreItems};
ghost use Rattle.kmc_count.specs.Bundles.{weight_of_both};
ghost use Rattle.kmc_count.specs.Occurrences.{weight_of};
ghost use Rattle.kmc_count.specs.Dump.{IsDump, keep_pair};

use crate::item_form::ItemForm;
use crate::limits::Limits;
use crate::runs::{first_word, take_run};
use kmc_base::{KeyRule, PackedKmer};
use kmc_lists::PairList;
use std::alloc::AllocError;
use std::marker::PhantomData;

/// Appends a packed word with what is shown of its count, where the limits list it.
fn push_kept<W: PackedKmer + Drop, L: PairList<W>>(
    pairs: &mut L,
    word: W,
    count: u64,
    rule: KeyRule,
    limits: &Limits,
) -> Result<(), AllocError>
    requires takes { L.takes rule.k pairs.old }
    requires fits { W.number word < 4 ^ rule.k }
    requires wide { limits.now.cs ≤ L.greatest }
    ensures takes { OnOk result (L.takes rule.k pairs.new) }
    ensures pairs { OnOk result (L.pairs pairs.new
        ≡ L.pairs pairs.old
        ++ cons_option (keep_pair limits.now (unpack rule.k (W.number word), count)) []) }
{
    if let Some(shown) = limits.keep(count) {
        pairs.push_pair(word, rule, shown)?;
    }
    Ok(())
}

/// Puts the dump of two sorted lists of items into an empty list of pairs, in one pass over each. An item of the second list counts
/// `bundle` times. The lowest bits of an item have how often its word is counted, less one; with no such bits an item is a packed word that
/// is counted once. The sum of a word's weights stops at 2^64 - 1, which is above all limits.
pub(crate) fn tally_both<W: PackedKmer + Drop, L: PairList<W>>(
    pairs: &mut L,
    singles: &[W],
    bundles: &[W],
    form: ItemForm<W>,
    limits: &Limits,
) -> Result<(), AllocError>
    requires takes { L.takes form.rule.k pairs.old }
    requires empty { L.pairs pairs.old ≡ [] }
    requires wide { limits.now.cs ≤ L.greatest }
    requires fit { AreItems form.rule.k form.bits (map W.number singles.now) }
    requires bundles_fit { AreItems form.rule.k form.bits (map W.number bundles.now) }
    requires sorted { IsSorted nat_cmp (map W.number singles.now) }
    requires bundles_sorted { IsSorted nat_cmp (map W.number bundles.now) }
    requires bundle { 1 ≤ form.bundle }
    ensures takes { OnOk result (L.takes form.rule.k pairs.new) }
    ensures dump { OnOk result (IsDump
        (weight_of_both form.bundle (items form.rule.k form.bits (map W.number singles.now))
        (items form.rule.k form.bits (map W.number bundles.now))) limits.now
        (L.pairs pairs.new)) }
{
    let ItemForm {
        rule,
        bits,
        bundle,
        ..
    } = form;
    let mut few = singles;
    let mut many = bundles;
    while !many.is_empty() {
        let word = first_word(few, many, bits);
        let (once, next) = take_run(few, word, bits);
        let (bundled, others) = take_run(many, word, bits);
        let count = once.saturating_add(bundled.saturating_mul(bundle));
        push_kept(pairs, word, count, rule, limits)?;
        few = next;
        many = others;
    }
    while !few.is_empty() {
        let word = first_word(few, many, bits);
        let (count, next) = take_run(few, word, bits);
        push_kept(pairs, word, count, rule, limits)?;
        few = next;
    }
    Ok(())
}

/// Puts the dump of a sorted list of items into an empty list of pairs, as [`tally_both`] does where there are no bundles.
pub fn tally<W: PackedKmer + Drop, L: PairList<W>>(
    pairs: &mut L,
    words: &[W],
    form: ItemForm<W>,
    limits: &Limits,
) -> Result<(), AllocError>
    requires takes { L.takes form.rule.k pairs.old }
    requires empty { L.pairs pairs.old ≡ [] }
    requires wide { limits.now.cs ≤ L.greatest }
    requires fit { AreItems form.rule.k form.bits (map W.number words.now) }
    requires sorted { IsSorted nat_cmp (map W.number words.now) }
    ensures takes { OnOk result (L.takes form.rule.k pairs.new) }
    ensures dump { OnOk result (IsDump
        (weight_of (items form.rule.k form.bits (map W.number words.now))) limits.now
        (L.pairs pairs.new)) }
{
    let alone: ItemForm<W> = ItemForm {
        rule: form.rule,
        bits: form.bits,
        bundle: 1,
        width: PhantomData,
    };
    tally_both(pairs, words, &words[..0], alone, limits)
}
