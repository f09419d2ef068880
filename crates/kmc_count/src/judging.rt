//! Whether the words of a body belong to the bin that is asked for. Where equal records are brought together, they are judged once.
ghost use Rattle.std.specs.Prelude.{◌≡◌, ◌⊎◌, ◌↔◌, ℕ, ◌+◌, List, map, All, IsTrue, Option, true};
ghost use Rattle.std.specs.declared.option.Option.TheVariants.{None};
ghost use Rattle.kmc_record.specs.Bodies.{Belong};
ghost use Rattle.kmc_record.specs.Parts.{all_windows};
ghost use Rattle.kmc_record.specs.RecordKeys.{codes_of, IsRecordKey};
ghost use Rattle.kmc_count.specs.Asked.{asked_behind, AreKeysOfBin, AsksFor, FitsWords, IsOfBin};

use crate::rows::shared_symbols;
use kmc_record::laws::records_of_bin_have_no_error;
use kmc_record::{JudgingRoom, Shape, count_words, key_belongs};

/// A bin, to which the words of a body are to belong.
#[derive(Clone, Copy)]
pub struct AskedBin {
    /// How reads are cut, and how many bins there are.
    pub shape: Shape,
    /// The number of the bin.
    pub bin: usize,
}

/// The bin that is asked for of the body that stands so many places behind another; nothing, where nothing is asked of that one.
pub fn bin_behind(asked: Option<AskedBin>, places: usize) -> Option<AskedBin>
    ensures behind { (i : ℕ) (body : List ℕ) → IsOfBin (asked_behind i result) body
        → IsOfBin (asked_behind (places + i) asked) body }
    ensures before { (i : ℕ) (body : List ℕ) → IsOfBin (asked_behind (places + i) asked) body
        → IsOfBin (asked_behind i result) body }
    ensures words { (k : ℕ) → AsksFor k asked → AsksFor k result }
{
    let first = asked?;
    Some(AskedBin {
        shape: first.shape,
        bin: first.bin.saturating_add(places),
    })
}

/// Whether a body is records of the bin that is asked for: each is judged by itself.
pub(crate) fn is_of_bin(body: &[u8], asked: Option<AskedBin>) -> bool
    ensures { IsTrue result ↔ IsOfBin asked body.now }
{
    records_of_bin_have_no_error();
    let Some(it) = asked else {
        return true;
    };
    it.bin < it.shape.n() && count_words(body, it.bin, it.shape).is_ok()
}

/// What is asked of records one by one, and what of their numbers: all of it of the numbers, where all records become numbers.
pub(crate) fn asked_of(
    asked: Option<AskedBin>,
    all_are_numbers: bool,
) -> (Option<AskedBin>, Option<AskedBin>)
    ensures { ((result.0 ≡ asked) × (result.1 ≡ None))
        ⊎ ((all_are_numbers ≡ true) × (result.0 ≡ None) × (result.1 ≡ asked)) }
{
    if all_are_numbers {
        (None, asked)
    } else {
        (asked, None)
    }
}

/// Whether the words of the records of these numbers belong to a bin. Of neighbours of which one begins as the other one is, the longer
/// one alone is looked at; where they are sorted, these are all that begin alike.
fn all_belong(keys: &[u128], bin: usize, shape: Shape) -> bool
    requires long { All (IsRecordKey shape.k) keys.now }
    ensures { IsTrue result ↔ Belong bin shape (all_windows shape.k (map codes_of keys.now)) }
{
    let mut room = JudgingRoom::new();
    let mut behind = 0;
    let mut left = keys.len();
    while left > 0 {
        left -= 1;
        let key = keys[left];
        let shared = shared_symbols(key, behind, shape.k());
        if shared as u128 != key % 64 && !key_belongs(key, bin, shape, &mut room) {
            return false;
        }
        behind = key;
    }
    true
}

/// Whether the words of the records of these numbers, of k symbols each, belong to the bin that is asked for.
pub(crate) fn keys_in_bin(keys: &[u128], k: usize, asked: Option<AskedBin>) -> bool
    requires long { All (IsRecordKey k) keys.now }
    ensures of_bin { IsTrue result ↔ AreKeysOfBin k asked keys.now }
    ensures fits { FitsWords asked }
{
    let Some(it) = asked else {
        return true;
    };
    it.shape.k() == k && it.bin < it.shape.n() && all_belong(keys, it.bin, it.shape)
}
