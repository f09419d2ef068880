//! Bins: `absorb` and `merge`.
use crate::growths::records::print_bytes;
use crate::growths::tell;
use kmc_record::{Chunk, Part, Shape, parts_of};
use kmc_store::Bins;
use std::alloc::{AllocError, Global};

const READS: [&[u8]; 3] = [
    b"ACGTACGTTTGACGTTACGTGG",
    b"GATTACAGATTACAGATTACA",
    b"CCCCCACGTANTTTTTTTTTTTT",
];

/// Takes in a part, which is of the shape of the bins.
fn absorb(rt: &impl Eprint, bins: &mut Bins, part: Part) -> Result<(), AllocError> {
    if part.shape() != bins.shape() {
        return Err(AllocError);
    }
    if let Err(part) = bins.absorb(part) {
        tell(rt, "absorb");
        if part.shape() != bins.shape() || bins.absorb(part).is_err() {
            return Err(AllocError);
        }
    }
    Ok(())
}

/// The parts of a read, which is a chunk of its own.
fn parts_of_read(alloc: Global, shape: Shape, read: &[u8]) -> Result<Vec<Part>, AllocError> {
    let mut reads = Vec::new(alloc);
    reads.push(read.to_vec(alloc)?)?;
    parts_of(alloc, &Chunk { number: 0, reads }, shape)
}

/// Takes in the parts of a read.
fn absorb_read(
    rt: &impl Eprint,
    alloc: Global,
    bins: &mut Bins,
    read: &[u8],
) -> Result<(), AllocError> {
    for part in parts_of_read(alloc, bins.shape(), read)? {
        absorb(rt, bins, part)?;
    }
    Ok(())
}

/// The bins that have taken in the parts of so many reads.
fn fill(rt: &impl Eprint, alloc: Global, shape: Shape, number: usize) -> Result<Bins, AllocError> {
    let mut bins = Bins::new(alloc, shape)?;
    for read in READS.iter().take(number) {
        absorb_read(rt, alloc, &mut bins, read)?;
    }
    Ok(bins)
}

/// Prints the bins that are not empty.
fn print_bins(rt: &impl Print, name: &str, bins: &Bins) {
    for bin in 0..bins.shape().n() {
        let body = bins.bin(bin);
        if !body.is_empty() {
            let _ = print!(rt; "{name} bin {bin} of {} words: ", bins.words(bin));
            print_bytes(rt, body);
        }
    }
}

/// Fills bins.
pub fn absorb_parts(rt: &(impl Print + Eprint), alloc: Global) -> Result<(), AllocError> {
    let shape = Shape::new(4, 8, 7).ok_or(AllocError)?;
    let bins = fill(rt, alloc, shape, 3)?;
    print_bins(rt, "absorbed", &bins);
    Ok(())
}

/// Merges bins with others, which are of their shape.
fn merge(rt: &impl Eprint, bins: &mut Bins, others: Bins) -> Result<(), AllocError> {
    if others.shape() != bins.shape() {
        return Err(AllocError);
    }
    if let Err(others) = bins.merge(others) {
        tell(rt, "merge");
        if others.shape() != bins.shape() || bins.merge(others).is_err() {
            return Err(AllocError);
        }
    }
    Ok(())
}

/// Merges bins with others.
pub fn merge_bins(rt: &(impl Print + Eprint), alloc: Global) -> Result<(), AllocError> {
    let shape = Shape::new(4, 8, 7).ok_or(AllocError)?;
    let mut bins = fill(rt, alloc, shape, 2)?;
    let others = fill(rt, alloc, shape, 3)?;
    merge(rt, &mut bins, others)?;
    print_bins(rt, "merged", &bins);
    Ok(())
}
