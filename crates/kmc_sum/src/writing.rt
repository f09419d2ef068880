//! The pairs of a sum, written one after the other.
ghost use Rattle.std.specs.Prelude.{◌≡◌, ◌^◌, ◌<◌, ◌≤◌, ◌++◌, length, OnOk, OnErr, IfOk};
ghost use Rattle.kmc_base.specs.Packed.{unpack};
ghost use Rattle.kmc_device.specs.Device.{AppendsFront, RisesByOne, WritesOut};
ghost use Rattle.kmc_lists.specs.Line.{text_of};
ghost use Rattle.kmc_sum.specs.Tally.{kept_pair};

use crate::output::OutputBuffer;
use kmc_base::{Kmer, MAX_K};
use kmc_count::Limits;
use kmc_device::{Counted, WriteFault};
use std::io::Write;

/// Puts the line of a word behind what the buffer holds, where its count is not 0 and is listed. Says how many lines were
/// put.
pub fn put_pair<W: Write>(
    writer: &mut Counted<W>,
    buffer: &mut OutputBuffer,
    limits: &Limits,
    k: usize,
    packed: u128,
    count: u64,
) -> Result<u64, WriteFault>
    requires some { 1 ≤ k }
    requires most { k ≤ MAX_K }
    requires fits { packed < 4 ^ k }
    ensures lines { IfOk result (λ put. (put ≤ 1)
        × (put ≡ length (kept_pair limits.now (unpack k packed) count))) }
    ensures text { OnOk result (WritesOut (W.contents writer.old.inner)
        (W.contents writer.new.inner)
        (buffer.old ++ text_of (kept_pair limits.now (unpack k packed) count)) buffer.new) }
    ensures kept { OnOk result (writer.new.failures ≡ writer.old.failures) }
    ensures failed { OnErr result (RisesByOne writer.old.failures writer.new.failures) }
    ensures front { OnErr result (AppendsFront (W.contents writer.old.inner)
        (W.contents writer.new.inner) buffer.old) }
{
    if count == 0 {
        return Ok(0);
    }
    match limits.keep(count) {
        Some(shown) => {
            let word = Kmer::of_packed(packed, k);
            buffer.put_line(writer, &word, shown)?;
            Ok(1)
        }
        None => Ok(0),
    }
}
