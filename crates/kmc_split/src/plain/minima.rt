//! The least of some values.
ghost use Rattle.std.specs.Prelude.{◌≡◌, ◌≤◌, length, map, slice_index};
ghost use Rattle.kmc_split.specs.Minima.{low};

use crate::mmer::Mmer;

/// The least of these values, of which there is one or more.
pub fn lowest<V: Mmer>(values: &[V]) -> V
    requires { 1 ≤ length values.now }
    ensures { V.number result
        ≡ low (slice_index (map V.number values.now)) (length values.now) 0 }
{
    let mut least = values[0];
    for i in 1..values.len() {
        least = least.lesser(values[i]);
    }
    least
}
