//! Reads that have a vector or a slice each.
ghost use Rattle.std.specs.Prelude.{◌≡◌, ◌∷◌, [], ◌++◌, map, IfOk, OnOk};

use crate::reads::Reads;
use std::alloc::{AllocError, Global};

/// The reads, each with a vector of its own.
pub fn to_vecs(alloc: Global, reads: &Reads) -> Result<Vec<Vec<u8>>, AllocError>
    ensures { IfOk result (λ v. map (λ r. r.items) v.items ≡ reads.now) }
{
    let mut vecs = Vec::new(alloc);
    for i in 0..reads.len() {
        push_read(alloc, &mut vecs, reads.get(i))?;
    }
    Ok(vecs)
}

/// Reads that have a vector each, where they lie.
pub fn slices_of(alloc: Global, reads: &[Vec<u8>]) -> Result<Vec<&[u8]>, AllocError>
    ensures { IfOk result (λ v. map (λ s. s.now) v.items ≡ map (λ r. r.items) reads.now) }
{
    let mut slices = Vec::with_capacity(alloc, reads.len())?;
    for read in reads {
        slices.push(read.as_slice())?;
    }
    Ok(slices)
}

/// Adds a copy of a read.
fn push_read(alloc: Global, reads: &mut Vec<Vec<u8>>, read: &[u8]) -> Result<(), AllocError>
    ensures { OnOk result (map (λ r. r.items) reads.new.items
        ≡ map (λ r. r.items) reads.old.items ++ read.now ∷ []) }
{
    reads.push(Vec::from_slice(alloc, read)?)?;
    Ok(())
}
