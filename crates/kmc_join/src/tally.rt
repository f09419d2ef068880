//! How often keys were seen, in a map, and how often counts, the small ones by their places.
ghost use Rattle.std.specs.Prelude.{◌≡◌, ◌+◌, ◌^◌, ◌<◌, ◌≤◌, ℕ, slice_index, IfOk, OnOk};
ghost use Rattle.std.specs.Ordering.{nat_cmp};
ghost use Rattle.kmc_join.specs.Rows.{CountsMore, CountsOneMore, HasNoZero, number_of};
ghost use Rattle.kmc_join.specs.Tally.{SeesOneMore, seen};

use std::alloc::{AllocError, Global};
use std::collections::BTreeMap;

/// How often each key was seen. A key that was not seen is not there.
pub type Tally<K> = BTreeMap<K, u64>;

/// How often this key was seen.
fn number_of<K: Ord>(tally: &Tally<K>, key: &K) -> u64
    ensures { result ≡ number_of K.cmp tally.now key.now }
{
    tally.get(key).copied().unwrap_or(0)
}

/// This key is seen so many times more.
fn add_key<K: Ord + Copy>(tally: &mut Tally<K>, key: K, by: u64) -> Result<(), AllocError>
    requires sound { HasNoZero K.cmp tally.old }
    requires some { 1 ≤ by }
    requires room { number_of K.cmp tally.old key + by < 2 ^ 64 }
    ensures { OnOk result (CountsMore K.cmp tally.old tally.new key by) }
{
    let next = number_of(tally, &key) + by;
    tally.insert(key, next)?;
    Ok(())
}

/// This key is seen once more.
pub(crate) fn count_key<K: Ord + Copy>(tally: &mut Tally<K>, key: K) -> Result<(), AllocError>
    requires sound { HasNoZero K.cmp tally.old }
    requires room { number_of K.cmp tally.old key + 1 < 2 ^ 64 }
    ensures { OnOk result (CountsOneMore K.cmp tally.old tally.new key) }
{
    add_key(tally, key, 1)
}

/// Counts below it are tallied by their places: most counts are small, and a search for each would take longer than its line.
const SMALL: usize = 1024;

/// A place for each of the small counts, none of which is seen. A tally of counts begins with these places and an empty map.
pub fn none_small(alloc: Global) -> Result<Vec<u64>, AllocError>
    ensures { IfOk result (λ small. (n : ℕ) → slice_index small.items n ≡ 0) }
{
    let small = vec![in alloc; 0; SMALL]?;
    Ok(small)
}

/// A count is seen once more: by its place among the small ones, where it is one of them, and else in the map. It fails only for want of
/// memory.
pub fn see_count(small: &mut Vec<u64>, great: &mut Tally<u64>, count: u64) -> Result<(), AllocError>
    requires sound { HasNoZero nat_cmp great.old }
    requires room { seen small.old.items great.old count + 1 < 2 ^ 64 }
    ensures { OnOk result (SeesOneMore small.old.items small.new.items great.old great.new count) }
{
    let place = count as usize;
    if place < small.len() {
        small[place] += 1;
        return Ok(());
    }
    count_key(great, count)
}

/// Puts how often each of the small counts was seen into the map, which then tells of all counts. It fails only for want of memory.
pub fn put_small(small: &[u64], tally: &mut Tally<u64>) -> Result<(), AllocError>
    requires sound { HasNoZero nat_cmp tally.old }
    requires room { (n : ℕ) → seen small.now tally.old n < 2 ^ 64 }
    ensures sound { OnOk result (HasNoZero nat_cmp tally.new) }
    ensures counts { OnOk result ((n : ℕ)
        → number_of nat_cmp tally.new n ≡ seen small.now tally.old n) }
{
    for i in 0..small.len() {
        let by = small[i];
        if by > 0 {
            add_key(tally, i as u64, by)?;
        }
    }
    Ok(())
}
