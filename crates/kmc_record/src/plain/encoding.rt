//! How the records of super-k-mers are written.
ghost use Rattle.std.specs.Prelude.{◌≡◌, ◌≤◌, ◌++◌, OnOk, OnErr};
ghost use Rattle.kmc_base.specs.Record.{spelling, IsSpelled};

use crate::record::code_bytes;
use kmc_base::{MAX_K, push_packed};
use kmc_split::SuperKmer;
use std::alloc::AllocError;

/// Appends the record of a super-k-mer: one byte for the number of its symbols above k, then its codes, four in a
/// byte, the first in the highest bits, with zeros behind the last. `out` stays as it was where its growth is refused.
pub fn encode(s: &SuperKmer, out: &mut Vec<u8>) -> Result<(), AllocError>
    ensures ok { OnOk result (out.new.items ≡ out.old.items ++ spelling s.now.k s.now.codes) }
    ensures err { OnErr result (out.new.items ≡ out.old.items) }
{
    push_record_of(s.codes(), s.k(), out)
}

/// Appends the record of these codes of a super-k-mer, k to k + 255 of them; `out` stays as it was where its growth is refused.
pub fn push_record_of(codes: &[u8], k: usize, out: &mut Vec<u8>) -> Result<(), AllocError>
    requires most { k ≤ MAX_K }
    requires spelled { IsSpelled k codes.now }
    ensures ok { OnOk result (out.new.items ≡ out.old.items ++ spelling k codes.now) }
    ensures err { OnErr result (out.new.items ≡ out.old.items) }
{
    out.reserve(1 + code_bytes(codes.len()))?;
    out.push_reserved((codes.len() - k) as u8);
    push_packed(codes, out);
    Ok(())
}
