//! The rows of one first part, searched where they stand.
ghost use Rattle.std.specs.Prelude.{◌≡◌, ℕ, ◌+◌, ◌*◌, ◌^◌, ◌<◌, ◌≤◌, ◌⊎◌, List, length, IfErr, IfOk, MatchOption, OnErr, OnOk, Some, None};
ghost use Rattle.kmc_base.specs.Lemmas.Keys.{IsWord};
ghost use Rattle.kmc_device.specs.Device.{RisesByOne};
ghost use Rattle.kmc_sum.specs.Sum.{listed_count};
ghost use Rattle.kmc_database.specs.Layout.{IsLayout};
ghost use Rattle.kmc_database.specs.Part.{IsPart, IsRowAt, row_place};
ghost use Rattle.kmc_database.specs.Rows.{row_long};

use crate::layout::Layout;
use crate::places::Places;
use crate::row_reading::{Row, row_at};
use kmc_base::Kmer;
use kmc_device::ReadFault;
use std::cmp::Ordering;

/// The most bytes of a row.
const MOST_ROW: usize = 19;

/// The row with this number, of a word with this first part; none where the file ends before it does.
fn row_with_number<S: Places>(
    suffix: &mut S,
    layout: &Layout,
    part: u64,
    number: u64,
) -> Result<Option<Row>, ReadFault>
    requires layout { IsLayout layout.now }
    requires part { part < 4 ^ layout.now.prefix }
    requires room { row_place layout.now number < 2 ^ 64 }
    ensures bytes { S.bytes suffix.new ≡ S.bytes suffix.old }
    ensures fits { IfOk result (λ answer. MatchOption answer (Unit {0})
        (λ row. row.packed < 4 ^ layout.now.k)) }
    ensures ok { IfOk result (λ answer. (bytes : List ℕ) → S.bytes suffix.old ≡ Some bytes
        → MatchOption answer
        (length bytes < row_place layout.now number + row_long layout.now)
        (IsRowAt layout.now part bytes number)) }
    ensures kept { OnOk result (S.failures suffix.new ≡ S.failures suffix.old) }
    ensures failed { OnErr result (RisesByOne (S.failures suffix.old) (S.failures suffix.new)) }
{
    let size = (layout.k - layout.prefix) / 4 + layout.counter;
    let place = 4 + number * size as u64;
    let mut room = [0u8; MOST_ROW];
    let buffer = &mut room[..size];
    if !suffix.read_at(place, buffer)? {
        return Ok(None);
    }
    Ok(Some(row_at(layout, part, buffer)))
}

/// The count of a word in the rows from one to another, whose words have this first part and rise: 0 where it is none of theirs. None where
/// the file ends before a row that is looked at.
pub(crate) fn count_between<S: Places>(
    suffix: &mut S,
    layout: &Layout,
    part: u64,
    from: u64,
    to: u64,
    key: &Kmer,
) -> Result<Option<u64>, ReadFault>
    requires layout { IsLayout layout.now }
    requires part { part < 4 ^ layout.now.prefix }
    requires order { from ≤ to }
    requires room { row_place layout.now to < 2 ^ 64 }
    ensures bytes { S.bytes suffix.new ≡ S.bytes suffix.old }
    ensures ok { IfOk result (λ answer. (bytes : List ℕ) (pairs : List (List ℕ × ℕ))
        → S.bytes suffix.old ≡ Some bytes → IsPart layout.now part bytes from to pairs
        → answer ≡ Some (listed_count pairs key.now)) }
    ensures short { IfOk result (λ answer. (bytes : List ℕ) → S.bytes suffix.old ≡ Some bytes
        → answer ≡ None → length bytes < row_place layout.now to) }
    ensures kept { OnOk result (S.failures suffix.new ≡ S.failures suffix.old) }
    ensures failed { OnErr result (RisesByOne (S.failures suffix.old) (S.failures suffix.new)) }
{
    let mut low = from;
    let mut high = to;
    while low < high {
        let middle = low + (high - low) / 2;
        let Some(row) = row_with_number(suffix, layout, part, middle)? else {
            return Ok(None);
        };
        match Kmer::of_packed(row.packed, layout.k).cmp(key) {
            Ordering::Less => low = middle + 1,
            Ordering::Equal => return Ok(Some(row.count)),
            Ordering::Greater => high = middle,
        }
    }
    Ok(Some(0))
}
