//! Records: `encode` and `Part::from_body`.
use crate::growths::tell;
use kmc_record::{Part, PartError, Shape, encode};
use kmc_split::SuperKmer;
use std::alloc::{AllocError, Global};

/// Prints bytes in hex, and ends the line.
pub fn print_bytes(rt: &impl Print, bytes: &[u8]) {
    for byte in bytes {
        let _ = print!(rt; "{:02x}", *byte);
    }
    let _ = rt.println("");
}

/// The super-k-mer of so many codes from the given one on, 0, 1, 2, 3 and again.
fn super_kmer(
    alloc: Global,
    first: usize,
    symbols: usize,
    k: usize,
) -> Result<SuperKmer, AllocError> {
    let mut codes = Vec::with_capacity(alloc, symbols)?;
    for i in 0..symbols {
        codes.push((first.wrapping_add(i) % 4) as u8)?;
    }
    SuperKmer::new(codes, k).ok_or(AllocError)
}

/// Spells a super-k-mer of so many symbols behind the others.
fn spell(
    rt: &impl Eprint,
    alloc: Global,
    symbols: usize,
    out: &mut Vec<u8>,
) -> Result<(), AllocError> {
    let run = super_kmer(alloc, symbols, symbols, 4)?;
    if encode(&run, out).is_err() {
        tell(rt, "encode");
        encode(&run, out)?;
    }
    Ok(())
}

/// Spells super-k-mers one behind the other.
pub fn spell_super_kmers(rt: &(impl Print + Eprint), alloc: Global) -> Result<(), AllocError> {
    let mut out = Vec::new(alloc);
    for symbols in [4, 5, 9, 30, 64] {
        spell(rt, alloc, symbols, &mut out)?;
    }
    let _ = rt.print("spelled: ");
    print_bytes(rt, &out);
    Ok(())
}

/// Prints what a body is found to be.
fn print_part(rt: &impl Print, made: &Result<Part, (PartError, Vec<u8>)>) {
    match made {
        Ok(part) => {
            let _ = print!(rt; "part of {} words: ", part.words());
            print_bytes(rt, part.body());
        }
        Err((_, body)) => {
            let _ = rt.print("no part: ");
            print_bytes(rt, body);
        }
    }
}

/// Judges a body that is that of a part, and one whose last record is of another bin.
pub fn judge_bodies(rt: &impl Print, alloc: Global) -> Result<(), AllocError> {
    let shape = Shape::new(4, 8, 7).ok_or(AllocError)?;
    if shape.n() <= 6 {
        return Ok(());
    }
    let own = [0, 0x1B, 0, 0x1B].to_vec(alloc)?;
    let other = [0, 0x1B, 0, 0x6C].to_vec(alloc)?;
    print_part(rt, &Part::from_body(0, 6, shape, own));
    print_part(rt, &Part::from_body(0, 6, shape, other));
    Ok(())
}
