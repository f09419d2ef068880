//! Calls that grow what they are given, each made once more with what came back where a growth was refused. What is printed is the
//! same whichever one growth of the process is refused; a line on standard error names the call that met the refusal.
//! bench/hostile.py refuses each growth in turn. Where one is refused between such calls, their whole row, which prints at its end, is
//! made again.

mod bins;
mod records;
mod texts;
mod words;

use crate::growths::bins::{absorb_parts, merge_bins};
use crate::growths::records::{judge_bodies, spell_super_kmers};
use crate::growths::texts::read_in_blocks;
use crate::growths::words::{push_pairs, write_words};
use std::alloc::{AllocError, Global};

/// Tells that a call met the refusal.
pub fn tell(rt: &impl Eprint, call: &str) {
    let _ = eprintln!(rt; "{call} was refused");
}

/// Makes each row of calls, and once more where a growth was refused.
macro_rules! make_rows {
    ($rt:expr, $alloc:expr; $($row:ident),+) => {
        $(
            if $row($rt, $alloc).is_err() {
                $row($rt, $alloc)?;
            }
        )+
    };
}

/// The rows of texts and records.
fn make_records(rt: &(impl Print + Eprint), alloc: Global) -> Result<(), AllocError> {
    make_rows!(rt, alloc; read_in_blocks, spell_super_kmers, judge_bodies);
    Ok(())
}

/// The rows of bins and words.
fn make_bins(rt: &(impl Print + Eprint), alloc: Global) -> Result<(), AllocError> {
    make_rows!(rt, alloc; absorb_parts, merge_bins, write_words, push_pairs);
    Ok(())
}

/// Makes all rows.
pub fn make_calls(rt: &(impl Print + Eprint), alloc: Global) -> Result<(), AllocError> {
    make_records(rt, alloc)?;
    make_bins(rt, alloc)
}
