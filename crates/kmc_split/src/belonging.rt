//! Whether words belong to a bin.
ghost use Rattle.std.specs.Prelude.{◌≡◌, ℕ, ◌+◌, ◌%◌, ◌^◌, ◌<◌, ◌≤◌, ◌↔◌, length, map, slice_index, IsTrue};
ghost use Rattle.std.specs.List.{All};
ghost use Rattle.kmc_base.specs.Words.{windows};
ghost use Rattle.kmc_split.specs.Signature.{bin_of, bin_of_signature};
ghost use Rattle.kmc_split.specs.Candidates.{unmarked};
ghost use Rattle.kmc_split.specs.Minima.{low};

use crate::marking::candidates;
use crate::mmer::{MOST_SHORT, Mmer};
use crate::offering::offer_by_quads;
use crate::plain::lowest;
use crate::quads::QUAD;
use crate::rooms::ROW;
use crate::signatures::{MAX_M, Sig};
use kmc_base::MAX_K;

/// The most symbols of a super-k-mer.
const MOST_SYMBOLS: usize = MAX_K + 255;

/// A place for each of them, and a row of room behind.
const PLACES: usize = MOST_SYMBOLS + ROW;

/// Room for the candidates of the longest super-k-mer, to be used again for the next one: what it has before does not matter.
#[derive(Drop)]
pub struct BelongingRoom {
    quads: [u8; PLACES],
    turned: [u8; PLACES],
    values: [u16; PLACES],
    wide_values: [u32; PLACES],
}

impl BelongingRoom {
    /// Room that nothing was worked out in yet.
    pub fn new() -> BelongingRoom {
        BelongingRoom {
            quads: [0; PLACES],
            turned: [0; PLACES],
            values: [0; PLACES],
            wide_values: [0; PLACES],
        }
    }
}

/// Whether the signature of each word of k codes in a row has this bin, of n bins: what
/// [`SuperKmer::in_bin`](crate::values::SuperKmer::in_bin) says, for codes
/// that lie anywhere. The codes are 0 to 3, k to k + 255 of them; m is 0 to 11 and at most k. It makes nothing in memory.
pub fn words_in_bin(
    codes: &[u8],
    k: usize,
    m: usize,
    n: usize,
    bin: usize,
    room: &mut BelongingRoom,
) -> bool
    requires most { m ≤ MAX_M }
    requires within { m ≤ k }
    requires limit { k ≤ MAX_K }
    requires inside { k ≤ length codes.now }
    requires long { length codes.now ≤ k + 255 }
    requires bins { 1 ≤ n }
    requires codes { All (λ c. c < 4) codes.now }
    ensures { IsTrue result ↔ All (λ w. bin_of m n w ≡ bin) (windows k codes.now) }
{
    if m == 0 {
        return bin == 0;
    }
    let count = codes.len() + 1 - m;
    if m > MOST_SHORT {
        return candidates_in_bin(codes, k, m, n, bin, &mut room.wide_values[..count]);
    }
    if m < QUAD {
        return candidates_in_bin(codes, k, m, n, bin, &mut room.values[..count]);
    }
    offer_by_quads(
        codes,
        m,
        &mut room.quads,
        &mut room.turned,
        &mut room.values,
    );
    least_in_bin(&room.values[..count], k + 1 - m, m, n, bin)
}

/// Whether the signature of each word has a bin, worked out in room for the candidates of all m-mers.
fn candidates_in_bin<V: Mmer>(
    codes: &[u8],
    k: usize,
    m: usize,
    n: usize,
    bin: usize,
    room: &mut [V],
) -> bool
    requires some { 1 ≤ m }
    requires most { m ≤ MAX_M }
    requires held { m ≤ V.most }
    requires within { m ≤ k }
    requires inside { k ≤ length codes.now }
    requires bins { 1 ≤ n }
    requires long { length room.old + m ≡ length codes.now + 1 }
    requires codes { All (λ c. c < 4) codes.now }
    ensures { IsTrue result ↔ All (λ w. bin_of m n w ≡ bin) (windows k codes.now) }
{
    candidates(codes, m, room);
    least_in_bin(room, k + 1 - m, m, n, bin)
}

/// Whether the signature of a word whose least candidate is this has a bin, of n bins.
fn is_in_bin<V: Mmer>(least: V, m: usize, n: usize, bin: usize) -> bool
    requires most { m ≤ MAX_M }
    requires fits { V.number least < 4 ^ m }
    requires bins { 1 ≤ n }
    ensures { IsTrue result ↔ (bin_of_signature n (unmarked m (V.number least)) ≡ bin) }
{
    Sig::of_least(least.to_u32(), m).bin(n) == bin
}

/// [`minima_in_bin`], at one look where the least of the places that all windows share is the least of all, as it is in nearly every
/// super-k-mer: then it is the least of each window.
fn least_in_bin<V: Mmer>(values: &[V], width: usize, m: usize, n: usize, bin: usize) -> bool
    requires some { 1 ≤ width }
    requires within { width ≤ length values.now }
    requires most { m ≤ MAX_M }
    requires fit { (i : ℕ) → i < length values.now
        → slice_index (map V.number values.now) i < 4 ^ m }
    requires bins { 1 ≤ n }
    ensures { IsTrue result
        ↔ ((i : ℕ) → i + width ≤ length values.now
        → bin_of_signature n (unmarked m (low (slice_index (map V.number values.now)) width i)) ≡ bin) }
{
    let last = values.len() - width;
    if last < width {
        let shared = lowest(&values[last..width]);
        if shared.is_same(lowest(values)) {
            return is_in_bin(shared, m, n, bin);
        }
    }
    minima_in_bin(values, width, m, n, bin)
}

/// Whether the signature that the least of each `width` candidates in a row is has a bin, of n bins. It divides only where the least
/// one changes.
fn minima_in_bin<V: Mmer>(values: &[V], width: usize, m: usize, n: usize, bin: usize) -> bool
    requires some { 1 ≤ width }
    requires within { width ≤ length values.now }
    requires most { m ≤ MAX_M }
    requires fit { (i : ℕ) → i < length values.now
        → slice_index (map V.number values.now) i < 4 ^ m }
    requires bins { 1 ≤ n }
    ensures { IsTrue result
        ↔ ((i : ℕ) → i + width ≤ length values.now
        → bin_of_signature n (unmarked m (low (slice_index (map V.number values.now)) width i)) ≡ bin) }
{
    let mut least = lowest(&values[..width]);
    if !is_in_bin(least, m, n, bin) {
        return false;
    }
    for i in 0..values.len() - width {
        let next = next_low(values, width, i, least);
        if !next.is_same(least) && !is_in_bin(next, m, n, bin) {
            return false;
        }
        least = next;
    }
    true
}

/// The least of `width` values from place i + 1 on, given that of those from place i on. Only where that one leaves, and
/// what comes is greater, does it look again.
fn next_low<V: Mmer>(values: &[V], width: usize, i: usize, least: V) -> V
    requires some { 1 ≤ width }
    requires inside { i + width < length values.now }
    requires least { V.number least ≡ low (slice_index (map V.number values.now)) width i }
    ensures { V.number result ≡ low (slice_index (map V.number values.now)) width (i + 1) }
{
    let new = values[i + width];
    if new.to_u32() <= least.to_u32() {
        new
    } else if least.to_u32() < values[i].to_u32() {
        least
    } else {
        lowest(&values[i + 1..i + 1 + width])
    }
}
