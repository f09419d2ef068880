//! The reads of a whole text.
ghost use Rattle.std.specs.Prelude.{◌≡◌, ◌≢◌, map, IfOk, IfErr, Ok, Err};
ghost use Rattle.kmc_reads.specs.Reads.{reads_of};

use crate::error::ReadsError;
use crate::feeder::Feeder;
use crate::format::Format;
use crate::laws::fault_stays;
use crate::vectors::to_vecs;
use std::alloc::Global;

/// The reads of a text in this format, each with its bytes as they stand, or the refusal of the
/// first faulty line. Other than that it answers only `Memory`, where a growth was refused.
///
/// One pass over the text; each read is copied twice. A feeder hands them out in one buffer.
pub fn read_all(alloc: Global, bytes: &[u8], format: Format) -> Result<Vec<Vec<u8>>, ReadsError>
    ensures ok { IfOk result (λ reads. reads_of format bytes.now
        ≡ Ok (map (λ r. r.items) reads.items)) }
    ensures refused { IfErr result
        (λ e. e ≢ ReadsError.Memory → reads_of format bytes.now ≡ Err e) }
{
    fault_stays();
    let mut feeder = Feeder::new(alloc, format);
    feeder.feed(bytes)?;
    match feeder.finish() {
        Ok(reads) => Ok(to_vecs(alloc, &reads)?),
        Err((e, _)) => Err(e),
    }
}
