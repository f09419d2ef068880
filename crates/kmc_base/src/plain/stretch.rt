//! Stretches of bases as values.
ghost use Rattle.std.specs.Prelude.{◌≡◌, ◌<◌, ◌≤◌, ◌++◌, ◌∷◌, [], map, nat_le, length, IfOk, OnOk};
ghost use Rattle.std.specs.List.{filter, All};
ghost use Rattle.kmc_base.specs.Segments.{stretch};
ghost use Rattle.kmc_base.specs.Stretches.{segments_of};

use crate::plain::base::code;
use crate::segment::Segment;
use std::alloc::{AllocError, Global};
use std::mem;

/// The maximal stretches of at least k bases, in order.
pub fn segments(alloc: Global, read: &[u8], k: usize) -> Result<Vec<Segment>, AllocError>
    requires { 1 ≤ k }
    ensures { IfOk result (λ segments. map stretch segments.items ≡ segments_of k read.now) }
{
    let mut segments = Vec::new(alloc);
    let mut open = Vec::with_capacity(alloc, read.len())?;
    let mut place = 0;
    for b in read {
        if let Some(c) = code(*b) {
            open.push(c)?;
        } else {
            let codes = mem::replace(&mut open, Vec::new(alloc));
            close(&mut segments, place - codes.len(), codes, k)?;
        }
        place += 1;
    }
    close(&mut segments, place - open.len(), open, k)?;
    Ok(segments)
}

/// Adds a stretch that is long enough.
fn close(
    segments: &mut Vec<Segment>,
    start: usize,
    codes: Vec<u8>,
    k: usize,
) -> Result<(), AllocError>
    requires { All (λ c. c < 4) codes.items }
    ensures { OnOk result (map stretch segments.new.items
        ≡ map stretch segments.old.items
        ++ filter (λ s. nat_le k (length s.codes))
        (record { start = start; codes = codes.items } ∷ [])) }
{
    if codes.len() >= k {
        segments.push(Segment { start, codes })?;
    }
    Ok(())
}
