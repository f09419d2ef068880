//! The form of items.
ghost use Rattle.std.specs.Prelude.{◌≡◌, ⊤, ◌+◌, ◌-◌, ◌*◌, ◌^◌, ◌≤◌, max, min};
ghost use Rattle.kmc_base.specs.declared.packed_kmer.TheConstants.{MOST_WEIGHT_BITS};

use kmc_base::{KeyRule, MOST_WEIGHT_BITS, PackedKmer};
use std::alloc::AllocError;
use std::marker::PhantomData;

/// How words are written as items, which are numbers of one width: their rule, the bits beside a word for its weight, and how many times an
/// item of the second list, a bundle, counts; 0 where there are no bundles. A number of that width has room for a word and these bits.
pub struct ItemForm<W: PackedKmer> {
    pub rule: KeyRule,
    pub bits: u32,
    pub bundle: u64,
    pub(crate) width: PhantomData<W>,
    pub ghost most: { rule.k ≤ W.most },
    pub ghost beside: { 2 * rule.k + bits ≤ 2 * W.most },
    pub ghost few: { bits ≤ MOST_WEIGHT_BITS },
}

impl<W: PackedKmer> Clone for ItemForm<W> {
    ghost is_clone = { λ form other. other ≡ form };

    ghost is_infallible = { λ _. ⊤ };

    fn clone(&self) -> Result<ItemForm<W>, AllocError> {
        Ok(*self)
    }
}

impl<W: PackedKmer> Copy for ItemForm<W> {}

impl<W: PackedKmer> ItemForm<W> {
    /// Items of the words of a rule, with as many bits for a weight as have room, and no bundles.
    pub fn new(rule: KeyRule) -> ItemForm<W>
        requires { rule.k ≤ W.most }
        ensures rule { result.rule ≡ rule }
        ensures bits { result.bits ≡ min (2 * W.most - 2 * rule.k) MOST_WEIGHT_BITS }
        ensures bundle { result.bundle ≡ 0 }
    {
        ItemForm {
            rule,
            bits: W::weight_bits(rule.k),
            bundle: 0,
            width: PhantomData,
        }
    }
}

/// A bundle counts at least so many times.
const LEAST_BUNDLE: u64 = 8;

/// How many times a bundle counts: twice as often as an item with so many bits for its weight, so that the words of a row of usual depth
/// are two or three items.
pub(crate) fn bundle_of(bits: u32) -> u64
    requires { bits ≤ MOST_WEIGHT_BITS }
    ensures { result ≡ max 8 (2 * 2 ^ bits) }
{
    LEAST_BUNDLE.max(2 << bits)
}
