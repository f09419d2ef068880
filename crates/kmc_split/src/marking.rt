//! The candidates for a signature: each m-mer's canonical form, or a mark where that is forbidden.
ghost use Rattle.std.specs.Prelude.{◌≡◌, ℕ, ◌+◌, ◌-◌, ◌^◌, ◌<◌, ◌≤◌, length, map, slice_index};
ghost use Rattle.std.specs.List.{All};
ghost use Rattle.kmc_base.specs.Words.{window};
ghost use Rattle.kmc_split.specs.Candidates.{pair_marks, candidate, packed_candidate};

use crate::mmer::Mmer;
use crate::rolling::canonical_values;
use crate::signatures::MAX_M;

/// 1 in each of n pairs of bits.
pub fn marks_for(n: usize) -> u32
    requires { n ≤ MAX_M }
    ensures { result ≡ pair_marks n }
{
    let mut marks = 0;
    for _i in 0..n {
        marks = marks * 4 + 1;
    }
    marks
}

/// 4^m - 1, the mark that takes the place of a canonical form which is not allowed.
pub(crate) fn none_of(m: usize) -> u32
    requires { m ≤ MAX_M }
    ensures { result ≡ 4 ^ m - 1 }
{
    (1 << (2 * m)) - 1
}

/// A canonical form of m codes, or `none` where it is not allowed.
fn candidate_with<V: Mmer>(p: V, m: usize, marks: V, none: V) -> V
    requires some { 1 ≤ m }
    requires most { m ≤ V.most }
    requires fits { V.number p < 4 ^ m }
    requires marks { V.number marks ≡ pair_marks (m - 1) }
    requires none { V.number none ≡ 4 ^ m - 1 }
    ensures { V.number result ≡ packed_candidate m (V.number p) }
{
    if p.is_allowed_with(m, marks) { p } else { none }
}

/// 4^m - 1, which is no canonical form, takes the place of each that is not allowed.
fn mark_forbidden<V: Mmer>(values: &mut [V], m: usize)
    requires some { 1 ≤ m }
    requires most { m ≤ MAX_M }
    requires room { m ≤ V.most }
    requires fit { (i : ℕ) → i < length values.old
        → slice_index (map V.number values.old) i < 4 ^ m }
    ensures { (i : ℕ) → i < length values.new → slice_index (map V.number values.new) i
        ≡ packed_candidate m (slice_index (map V.number values.old) i) }
{
    let marks = V::of_packed(marks_for(m - 1));
    let none = V::of_packed(none_of(m));
    for i in 0..values.len() {
        values[i] = candidate_with(values[i], m, marks, none);
    }
}

/// The candidate at each place of the codes, in two passes: the m-mer's canonical form, packed, where that is
/// allowed, and the mark 4^m - 1 where it is not. The codes are 0 to 3, m is 1 or more and at most as many codes as the numbers hold,
/// and `out` has a place for each m-mer.
pub fn candidates<V: Mmer>(codes: &[u8], m: usize, out: &mut [V])
    requires some { 1 ≤ m }
    requires most { m ≤ MAX_M }
    requires room { m ≤ V.most }
    requires long { length out.old + m ≡ length codes.now + 1 }
    requires codes { All (λ c. c < 4) codes.now }
    ensures each { (i : ℕ) → i < length out.new
        → slice_index (map V.number out.new) i ≡ candidate m (window m codes.now i) }
    ensures fit { (i : ℕ) → i < length out.new → slice_index (map V.number out.new) i < 4 ^ m }
{
    canonical_values(codes, m, out);
    mark_forbidden(out, m);
}
