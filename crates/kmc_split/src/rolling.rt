//! The canonical forms at all places, from one pass.
ghost use Rattle.std.specs.Prelude.{◌≡◌, ℕ, ◌+◌, ◌-◌, ◌*◌, ◌/◌, ◌%◌, ◌^◌, ◌<◌, ◌≤◌, length, map, slice_index};
ghost use Rattle.std.specs.List.{All};
ghost use Rattle.kmc_base.specs.Words.{canonical, window};
ghost use Rattle.kmc_base.specs.Packed.{unpack};

use crate::mmer::Mmer;
use crate::signatures::MAX_M;

/// The canonical form, packed, of the m codes at each place: the word and its reverse complement roll along.
pub(crate) fn canonical_values<V: Mmer>(codes: &[u8], m: usize, out: &mut [V])
    requires some { 1 ≤ m }
    requires most { m ≤ MAX_M }
    requires room { m ≤ V.most }
    requires long { length out.old + m ≡ length codes.now + 1 }
    requires codes { All (λ c. c < 4) codes.now }
    ensures fit { (i : ℕ) → i < length out.new → slice_index (map V.number out.new) i < 4 ^ m }
    ensures each { (i : ℕ) → i < length out.new
        → unpack m (slice_index (map V.number out.new) i) ≡ canonical (window m codes.now i) }
{
    let before = m - 1;
    let top = weight(before);
    let mut forward = 0;
    let mut back = 4 * (top - 1) + 3;
    for i in 0..before {
        let code = u32::from(codes[i]);
        forward = ahead(forward, code, top);
        back = behind(back, code, top);
    }
    for j in 0..out.len() {
        let code = u32::from(codes[j + before]);
        forward = ahead(forward, code, top);
        back = behind(back, code, top);
        out[j] = V::of_packed(forward.min(back));
    }
}

/// The weight of the code that has j codes after it. Not a shift: the compiler would turn each product with it into
/// shifts by a variable, which cost more.
pub(crate) fn weight(j: usize) -> u32
    requires { j < MAX_M }
    ensures { result ≡ 4 ^ j }
{
    let mut power = 1;
    for _i in 0..j {
        power *= 4;
    }
    power
}

/// A packed window with its first code dropped and one more at its end, where `top` is the weight of the first.
fn ahead(word: u32, code: u32, top: u32) -> u32
    requires code { code < 4 }
    requires top { (j : ℕ) × (j < MAX_M) × (top ≡ 4 ^ j) }
    ensures { result ≡ word % top * 4 + code }
{
    (word & (top - 1)) * 4 + code
}

/// The reverse complement of that window, from the one before.
fn behind(word: u32, code: u32, top: u32) -> u32
    requires code { code < 4 }
    requires top { (j : ℕ) × (j < MAX_M) × (top ≡ 4 ^ j) }
    requires back { word / 4 < top }
    ensures { result ≡ word / 4 + (3 - code) * top }
{
    word / 4 + (3 - code) * top
}
