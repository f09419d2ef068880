//! Reads over few letters, so that words come again, with an N here and there.
ghost use Rattle.std.specs.Prelude.{◌≤◌};

use std::alloc::{AllocError, Global};
use test_support::Dice;

/// One of the first letters, of so many kinds, or now and then an N.
fn some_letter(dice: &mut Dice, kinds: usize) -> u8
    requires some { 1 ≤ kinds }
    requires most { kinds ≤ 8 }
{
    if dice.roll(60) == 0 {
        return b'N';
    }
    let letters = b"AcGTtgCa";
    letters[dice.roll(kinds)]
}

/// A read of up to `longest` symbols of so many kinds.
fn some_read(
    alloc: Global,
    dice: &mut Dice,
    kinds: usize,
    longest: usize,
) -> Result<Vec<u8>, AllocError>
    requires some { 1 ≤ kinds }
    requires most { kinds ≤ 8 }
{
    let mut read = Vec::new(alloc);
    for _ in 0..dice.roll(longest.min(1000) + 1) {
        read.push(some_letter(dice, kinds))?;
    }
    Ok(read)
}

/// So many reads of up to `longest` symbols.
pub(super) fn some_reads(
    alloc: Global,
    dice: &mut Dice,
    count: usize,
    longest: usize,
) -> Result<Vec<Vec<u8>>, AllocError> {
    let kinds = 1 + dice.roll(4);
    let mut reads = Vec::new(alloc);
    for _ in 0..count {
        reads.push(some_read(alloc, dice, kinds, longest)?)?;
    }
    Ok(reads)
}
