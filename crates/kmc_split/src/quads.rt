//! The candidates of m-mers of 4 to 8 codes: two bytes of four codes that overlap make one, so that no place waits for the one before.
ghost use Rattle.std.specs.Prelude.{◌≡◌, ℕ, ◌+◌, ◌-◌, ◌*◌, ◌^◌, ◌<◌, ◌≤◌, length, slice_index, slice_set};
ghost use Rattle.std.specs.List.{All};
ghost use Rattle.kmc_split.specs.Candidates.{pair_marks, packed_candidate};
ghost use Rattle.kmc_base.specs.Words.{rev_comp, window};
ghost use Rattle.kmc_base.specs.Packed.{pack};
ghost use Rattle.kmc_split.specs.Quads.{AreQuads, AreQuadsBefore, overlap, lesser_strand};

use crate::marking::{marks_for, none_of};
use crate::mmer::{MOST_SHORT, is_allowed_long};
use crate::rolling::weight;
use crate::rooms::ROW;

/// How many codes a byte holds.
pub(crate) const QUAD: usize = 4;

/// Four codes as a byte, the first one highest.
fn quad(a: u8, b: u8, c: u8, d: u8) -> u8
    requires first { a < 4 }
    requires second { b < 4 }
    requires third { c < 4 }
    requires last { d < 4 }
    ensures { result ≡ a * 64 + b * 16 + c * 4 + d }
{
    a * 64 + b * 16 + c * 4 + d
}

/// The four codes from a place on, and their reverse complement, as bytes at that place.
fn fill_place(codes: &[u8], i: usize, quads: &mut [u8], turned: &mut [u8])
    requires inside { i + QUAD ≤ length codes.now }
    requires quads { i < length quads.old }
    requires turned { i < length turned.old }
    requires codes { All (λ c. c < 4) codes.now }
    ensures ahead { quads.new ≡ slice_set quads.old i (pack (window 4 codes.now i)) }
    ensures back { turned.new ≡ slice_set turned.old i (pack (rev_comp (window 4 codes.now i))) }
{
    let first = codes[i];
    let second = codes[i + 1];
    let third = codes[i + 2];
    let last = codes[i + 3];
    quads[i] = quad(first, second, third, last);
    turned[i] = 255 - quad(last, third, second, first);
}

/// The same at each place of a row that begins here, where it is done at the places before.
fn fill_row(codes: &[u8], start: usize, quads: &mut [u8], turned: &mut [u8])
    requires inside { start + ROW + 3 ≤ length codes.now }
    requires quads { start + ROW ≤ length quads.old }
    requires turned { start + ROW ≤ length turned.old }
    requires codes { All (λ c. c < 4) codes.now }
    requires before { AreQuadsBefore start codes.now quads.old turned.old }
    ensures { AreQuadsBefore (start + ROW) codes.now quads.new turned.new }
{
    for r in 0..ROW {
        fill_place(codes, start + r, quads, turned);
    }
}

/// The four codes from each place on, and their reverse complements, as bytes at the front of the rooms. The last row overlaps the one
/// before, so that no place is worked out alone.
pub(crate) fn fill_quads(codes: &[u8], quads: &mut [u8], turned: &mut [u8])
    requires some { QUAD ≤ length codes.now }
    requires quads { length codes.now ≤ length quads.old + 3 }
    requires turned { length codes.now ≤ length turned.old + 3 }
    requires codes { All (λ c. c < 4) codes.now }
    ensures { AreQuads codes.now quads.new turned.new }
{
    let n = codes.len() - (QUAD - 1);
    if n < ROW {
        for i in 0..n {
            fill_place(codes, i, quads, turned);
        }
        return;
    }
    for row in 0..n / ROW {
        fill_row(codes, row * ROW, quads, turned);
    }
    fill_row(codes, n - ROW, quads, turned);
}

/// Four codes and the d last ones of four others, where `top` is 4^d.
fn join(high: u8, low: u8, top: u16) -> u16
    requires { (d : ℕ) × (d ≤ 4) × (top ≡ 4 ^ d) }
    ensures { (d : ℕ) → top ≡ 4 ^ d → result ≡ overlap d high low }
{
    u16::from(high) * top + (u16::from(low) & (top - 1))
}

/// A canonical form of m codes, or `none` where it is not allowed.
fn judge(form: u16, m: usize, marks: u16, none: u16) -> u16
    requires some { QUAD ≤ m }
    requires most { m ≤ MOST_SHORT }
    requires fits { form < 4 ^ m }
    requires marks { marks ≡ pair_marks (m - 1) }
    requires none { none ≡ 4 ^ m - 1 }
    ensures { result ≡ packed_candidate m form }
{
    if is_allowed_long(form, m, marks) {
        form
    } else {
        none
    }
}

/// The candidates at n places, from the bytes of four codes.
pub(crate) fn judge_quads(quads: &[u8], turned: &[u8], m: usize, n: usize, out: &mut [u16])
    requires some { QUAD ≤ m }
    requires most { m ≤ MOST_SHORT }
    requires quads { n + (m - QUAD) ≤ length quads.now }
    requires turned { n + (m - QUAD) ≤ length turned.now }
    requires out { n ≤ length out.old }
    ensures { (i : ℕ) → i < n
        → slice_index out.new i ≡ packed_candidate m (lesser_strand (m - QUAD) quads.now turned.now i) }
{
    let d = m - QUAD;
    let top = weight(d) as u16;
    let marks = marks_for(m - 1) as u16;
    let none = none_of(m) as u16;
    for i in 0..n {
        let ahead = join(quads[i], quads[i + d], top);
        let back = join(turned[i + d], turned[i], top);
        out[i] = judge(ahead.min(back), m, marks, none);
    }
}
