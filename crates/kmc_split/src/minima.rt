//! The least value of each window.
ghost use Rattle.std.specs.Prelude.{◌≡◌, ℕ, ◌+◌, ◌-◌, ◌*◌, ◌<◌, ◌≤◌, length, map, slice_index, min, OnOk, IfOk};
ghost use Rattle.kmc_split.specs.Minima.{low};

use crate::mmer::Mmer;
use crate::rooms::{ROW, grow, whole_rows};
use std::alloc::AllocError;
use std::mem;

/// The lesser of the values at each of n places and d places on.
fn lower<V: Mmer>(values: &[V], d: usize, n: usize, out: &mut [V])
    requires read { n + d ≤ length values.now }
    requires written { n ≤ length out.old }
    ensures { (i : ℕ) → i < n → slice_index (map V.number out.new) i
        ≡ min (slice_index (map V.number values.now) i) (slice_index (map V.number values.now) (i + d)) }
{
    for i in 0..n {
        out[i] = values[i].lesser(values[i + d]);
    }
}

/// The least of the values at each of n places and d, 2d and 3d places on.
fn lower_of_four<V: Mmer>(values: &[V], d: usize, n: usize, out: &mut [V])
    requires read { n + 3 * d ≤ length values.now }
    requires written { n ≤ length out.old }
    ensures { (i : ℕ) → i < n → slice_index (map V.number out.new) i
        ≡ min (min (slice_index (map V.number values.now) i) (slice_index (map V.number values.now) (i + d)))
        (min (slice_index (map V.number values.now) (i + 2 * d)) (slice_index (map V.number values.now) (i + 3 * d))) }
{
    for i in 0..n {
        let front = values[i].lesser(values[i + d]);
        let behind = values[i + 2 * d].lesser(values[i + 3 * d]);
        out[i] = front.lesser(behind);
    }
}

/// How wide windows are after one more pass, where they are to be w wide: four times as wide while they can be, then up to twice.
fn next_width(width: usize, w: usize) -> usize
    requires some { 1 ≤ width }
    requires less { width < w }
    ensures wider { width < result }
    ensures most { result ≤ w }
    ensures reach { 2 * width < result → result ≡ 4 * width }
{
    if width <= w / 4 {
        4 * width
    } else {
        width + width.min(w - width)
    }
}

/// The least values of n windows that are `next` wide, from those of windows that are `width` wide.
fn widen<V: Mmer>(values: &[V], width: usize, next: usize, n: usize, out: &mut [V])
    requires some { 1 ≤ width }
    requires wider { width < next }
    requires reach { 2 * width < next → next ≡ 4 * width }
    requires read { n + (next - width) ≤ length values.now }
    requires written { n ≤ length out.old }
    ensures { (at : ℕ → ℕ) (i : ℕ) → i < n
        → ((j : ℕ) → i ≤ j → j ≤ i + (next - width) → slice_index (map V.number values.now) j ≡ low at width j)
        → slice_index (map V.number out.new) i ≡ low at next i }
{
    if next - width > width {
        lower_of_four(values, width, n, out);
    } else {
        lower(values, next - width, n, out);
    }
}

/// The least of each w of the n values in a row stand at the front of `values` after it, and it gives how many they are. Each pass
/// makes windows wider, so that it is vector code, and goes through whole rows: `values` has a row of room behind the n.
pub(crate) fn window_minima<V: Mmer + Drop>(
    values: &mut Vec<V>,
    spare: &mut Vec<V>,
    n: usize,
    w: usize,
) -> Result<usize, AllocError>
    requires some { 1 ≤ w }
    requires most { w ≤ n }
    requires room { n + ROW ≤ length values.old.items }
    ensures count { IfOk result (λ count. count + w ≡ n + 1) }
    ensures within { IfOk result (λ count. count ≤ length values.new.items) }
    ensures each { IfOk result (λ count. (i : ℕ) → i < count
        → slice_index (map V.number values.new.items) i
        ≡ low (slice_index (map V.number values.old.items)) w i) }
{
    grow(spare, n + ROW, V::of_packed(0))?;
    let mut width = 1;
    let mut count = n;
    while width < w {
        let next = next_width(width, w);
        count -= next - width;
        widen(values, width, next, whole_rows(count), spare);
        mem::swap(values, spare);
        width = next;
    }
    Ok(count)
}
