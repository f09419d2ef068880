//! From sorted words, each of which is counted once, to the pairs of a dump.
ghost use Rattle.std.specs.Prelude.{◌≡◌, ◌^◌, ◌<◌, ◌≤◌, [], All, map, OnOk};
ghost use Rattle.std.specs.List.Sorted.{IsSorted};
ghost use Rattle.std.specs.Ordering.{nat_cmp};
ghost use Rattle.kmc_base.specs.Packed.{unpack};
ghost use Rattle.kmc_count.specs.Occurrences.{occurrences};
ghost use Rattle.kmc_count.specs.Dump.{IsDump};

use crate::item_form::ItemForm;
use crate::limits::Limits;
use crate::tallying::tally;
use kmc_base::{KeyRule, Kmer, PackedKmer};
use std::alloc::AllocError;
use std::marker::PhantomData;

/// Puts the dump of a sorted list of packed words into an empty list of pairs.
pub(crate) fn tally_words<W: PackedKmer + Drop>(
    pairs: &mut Vec<(Kmer, u64)>,
    words: &[W],
    rule: KeyRule,
    limits: &Limits,
) -> Result<(), AllocError>
    requires most { rule.k ≤ W.most }
    requires empty { pairs.old.items ≡ [] }
    requires fit { All (λ n. n < 4 ^ rule.k) (map W.number words.now) }
    requires sorted { IsSorted nat_cmp (map W.number words.now) }
    ensures { OnOk result (IsDump
        (occurrences (map (unpack rule.k) (map W.number words.now))) limits.now
        pairs.new.items) }
{
    let form: ItemForm<W> = ItemForm {
        rule,
        bits: 0,
        bundle: 0,
        width: PhantomData,
    };
    tally(pairs, words, form, limits)?;
    Ok(())
}
