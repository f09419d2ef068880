//! How words and counts lie in a database.
ghost use Rattle.std.specs.Prelude.{◌≡◌, ◌≤◌, MatchOption};
ghost use Rattle.kmc_database.specs.Numbers.{counter_bytes, usual_prefix, width};
ghost use Rattle.kmc_database.specs.Layout.{IsLayout, layout_of};

use kmc_base::MAX_K;

/// The most symbols of a first part: a table of more has too many entries for KMC's tools.
pub const MOST_PREFIX: usize = 15;

/// The most bytes of a count.
pub const MOST_COUNTER: usize = 4;

/// Words of `k` symbols, of which the first `prefix` tell the entry of the table and the others stand in the row, four a byte; and
/// counts of `counter` bytes.
#[derive(Clone, Copy, Debug, PartialEq, Eq)]
pub struct Layout {
    pub k: usize,
    pub prefix: usize,
    pub counter: usize,
}

/// The length of the first part where none is asked for: that of a short word, and else 5 to 8 symbols, so that whole bytes are left.
pub fn usual_prefix(k: usize) -> usize
    ensures is { result ≡ usual_prefix k }
    ensures most { result ≤ 8 }
{
    if k <= 4 { k } else { 5 + (k - 5) % 4 }
}

/// The layout of words of `k` symbols, with a first part of `prefix` symbols or of the usual length, where there is one: a first part has 1
/// to [`MOST_PREFIX`] symbols, no more than a word, and leaves a multiple of four.
pub fn layout_for(k: usize, prefix: Option<usize>, counter: usize) -> Option<Layout>
    ensures { MatchOption result (¬ (IsLayout (layout_of k prefix counter)))
        (λ l. (l ≡ layout_of k prefix counter) × IsLayout l) }
{
    let prefix = match prefix {
        Some(prefix) => prefix,
        None => usual_prefix(k),
    };
    let fits = k >= 1 && k <= MAX_K && prefix >= 1 && prefix <= MOST_PREFIX && prefix <= k;
    if !fits || (k - prefix) % 4 != 0 || counter < 1 || counter > MOST_COUNTER {
        return None;
    }
    Some(Layout { k, prefix, counter })
}

/// How many bytes hold the number: at most four.
fn width(number: u64) -> usize
    ensures { result ≡ width number }
{
    if number < 1 << 8 {
        1
    } else if number < 1 << 16 {
        2
    } else if number < 1 << 24 {
        3
    } else {
        MOST_COUNTER
    }
}

/// The bytes of a count where counts above `cap` are shown as `cap` and words that occur more than `greatest` times are not listed.
pub fn counter_bytes(cap: u64, greatest: u64) -> usize
    ensures { result ≡ counter_bytes cap greatest }
{
    width(cap).min(width(greatest))
}
