//! One range of the dump by keys: each pair in one number, so that the pairs are sorted as plain numbers.
ghost use Rattle.std.specs.Prelude.{◌≡◌, ℕ, ◌+◌, ◌-◌, ◌*◌, ◌^◌, ◌<◌, ◌≤◌, List, [], ◌∷◌, ◌++◌, length, take, map, All, IsTrue, vec_len, vec_capacity};
ghost use Rattle.std.specs.List.{flat_map};
ghost use Rattle.kmc_dump.specs.Keys.{key_pair, key_pairs};
ghost use Rattle.kmc_lists.specs.Listed.{spelled};
ghost use Rattle.kmc_lists.specs.Ordered.{Climbs, within, whole, CanBeMerged};
ghost use Rattle.kmc_dump.specs.Ranges.{count_within};

use crate::pair_form::PairForm;
use crate::slot_range::SlotRange;
use crate::word_size::WordSize;
use kmc_base::PackedKmer;
use kmc_lists::{CountWidth, KmerList};

/// Whether a word of the range and a count, side by side, always fit 64 bits.
pub fn fit_keys<C: CountWidth>(range: SlotRange) -> bool
    ensures small { IsTrue result → C.bits < 64 }
    ensures least { IsTrue result → range.from * 2 ^ range.shift < 2 ^ 128 }
    ensures room { IsTrue result → (range.to - range.from) * 2 ^ range.shift * 2 ^ C.bits ≤ 2 ^ 64 }
{
    let bits = C::bits();
    if bits >= 64 || range.shift > 64 - bits {
        return false;
    }
    range.to.saturating_sub(range.from) <= 1 << (64 - bits - range.shift)
        && range.from <= u128::MAX >> range.shift
}

/// A word and a count as a key.
fn key_of(word: u128, count: u64, least: u128, bits: u32) -> u64
    requires least { least ≤ word }
    requires room { (word - least + 1) * 2 ^ bits ≤ 2 ^ 64 }
    requires bits { bits < 64 }
    requires count { count < 2 ^ bits }
    ensures { key_pair least bits result ≡ (word, count) }
{
    (((word - least) as u64) << bits) + count
}

/// Appends the keys of those pairs of a list whose slots are in a range. There is room for them, so that no push is refused.
fn gather_keys<W: PackedKmer + Drop, C: CountWidth + Drop>(
    list: &KmerList<W, C>,
    range: SlotRange,
    least: u128,
    keys: &mut Vec<u64>,
)
    requires rise { Climbs list.now.packed }
    requires least { least ≡ range.from * 2 ^ range.shift }
    requires small { C.bits < 64 }
    requires fits { (range.to - range.from) * 2 ^ range.shift * 2 ^ C.bits ≤ 2 ^ 64 }
    requires room { vec_len keys.old + length (within (2 ^ range.shift) range.from range.to list.now.packed)
        ≤ vec_capacity keys.old }
    ensures pairs { key_pairs least C.bits keys.new.items
        ≡ key_pairs least C.bits keys.old.items ++ within (2 ^ range.shift) range.from range.to list.now.packed }
    ensures capacity { vec_capacity keys.old ≤ vec_capacity keys.new }
{
    let bits = C::bits();
    let begin = list.below(range.shift, range.from);
    let end = list.below(range.shift, range.to);
    for i in begin..end {
        let (word, count) = list.get(i);
        let _ = keys.push(key_of(word.to_u128(), count.to_u64(), least, bits));
    }
}

/// Puts the pairs of keys into a text, from its first byte on, and says where they end.
fn put_key_pairs<C: CountWidth + Drop, F: PairForm>(
    keys: &[u64],
    form: &F,
    size: WordSize,
    least: u128,
    text: &mut [u8],
) -> usize
    requires small { C.bits < 64 }
    requires takes { F.takes form.now size.k }
    requires fit { All (λ p. p.0 < 4 ^ size.k) (key_pairs least C.bits keys.now) }
    requires room { length keys.now * F.most form.now size.k C.most_digits ≤ length text.old }
    ensures within { result ≤ length text.new }
    ensures lines { take result text.new
        ≡ flat_map (F.bytes form.now) (spelled size.k (key_pairs least C.bits keys.now)) }
{
    let bits = C::bits();
    let mask = (1 << bits) - 1;
    let mut end = 0;
    for key in keys {
        let word = u128::from(*key >> bits) + least;
        end = form.put(text, end, word, size.k, *key & mask);
    }
    end
}

/// Puts the pairs of a range into a text, as [`put_range`](crate::range::put_range) does, where its pairs fit keys. The vector for
/// the keys is used again; both have room for the range before, so that nothing is allocated.
pub fn put_keys<W: PackedKmer + Drop, C: CountWidth + Drop, F: PairForm>(
    lists: &[KmerList<W, C>],
    form: &F,
    size: WordSize,
    range: SlotRange,
    keys: &mut Vec<u64>,
    text: &mut [u8],
) -> usize
    requires merge { CanBeMerged size.k lists.now }
    requires takes { F.takes form.now size.k }
    requires small { C.bits < 64 }
    requires least { range.from * 2 ^ range.shift < 2 ^ 128 }
    requires fits { (range.to - range.from) * 2 ^ range.shift * 2 ^ C.bits ≤ 2 ^ 64 }
    requires keys { count_within (2 ^ range.shift) range.from range.to lists.now ≤ vec_capacity keys.old }
    requires text { count_within (2 ^ range.shift) range.from range.to lists.now * F.most form.now size.k C.most_digits
        ≤ length text.old }
    ensures within { result ≤ length text.new }
    ensures lines { take result text.new
        ≡ flat_map (F.bytes form.now) (spelled size.k (within (2 ^ range.shift) range.from range.to (whole lists.now))) }
    ensures capacity { vec_capacity keys.old ≤ vec_capacity keys.new }
{
    let least = range.from << range.shift;
    keys.clear();
    for list in lists {
        gather_keys(list, range, least, keys);
    }
    keys.sort_unstable();
    put_key_pairs::<C, F>(keys, form, size, least, text)
}
