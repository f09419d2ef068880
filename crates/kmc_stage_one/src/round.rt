//! A round of reads, read and fed block by block.
ghost use Rattle.std.specs.Prelude.{◌≡◌, ℕ, ◌+◌, ◌-◌, ◌^◌, ◌<◌, ◌≤◌, ◌++◌, List, length, false, OnOk, IsErrOf, Ok, Some};
ghost use Rattle.std.specs.Io.KnownBytes.{Consumes, IsAtEnd};
ghost use Rattle.kmc_reads.specs.declared.format.Format.{Format};
ghost use Rattle.kmc_reads.specs.Standing.{Stands};
ghost use Rattle.kmc_stage_one.specs.Fed.{IsFedBy, IsFilled, IsWholeRound, AreCounts};

use kmc_device::Counted;
use kmc_reads::laws::fault_stays;
use kmc_reads::{Feeder, InputError};
use std::io::Read;

/// A read asks for at most so many bytes.
const BLOCK: usize = 65536;

/// One read goes to the feeder, by way of this buffer. The answer is whether it gave bytes.
fn read_and_feed<R: Read>(
    reader: &mut Counted<R>,
    feeder: &mut Feeder,
    block: &mut [u8],
) -> Result<bool, InputError>
    requires reads { reader.old.reads < 2 ^ 64 - 1 }
    requires room { length block.old ≡ BLOCK }
    ensures counts { AreCounts (reader.old.reads
        + 1) reader.old.reads reader.new.reads reader.old.failures reader.new.failures result }
    ensures fed { (overlap : ℕ) (format : Format) (text : List ℕ) (taken : List (List ℕ))
        → Stands (Some overlap) format text taken feeder.old
        → IsFedBy overlap format (R.remaining reader.old.inner)
        (R.remaining reader.new.inner) reader.old.reads reader.new.reads text taken feeder.new result }
    ensures at_end { result ≡ Ok false → IsAtEnd (R.remaining reader.new.inner) }
    ensures block { (overlap : ℕ) (format : Format) (text : List ℕ) (taken : List (List ℕ))
        → Stands (Some overlap) format text taken feeder.old
        → OnOk result
        ((last : List ℕ) × (length last ≤ BLOCK)
        × Consumes (R.remaining reader.old.inner) (R.remaining reader.new.inner) last
        × Stands (Some overlap) format (text ++ last) taken feeder.new) }
    ensures short { IsErrOf result InputError.TooLong → ⊥ }
{
    fault_stays();
    let n = match reader.read(block) {
        Ok(n) => n,
        Err(_) => return Err(InputError::Read),
    };
    feeder.feed(&block[..n])?;
    Ok(n > 0)
}

/// Reads and feeds until so many reads wait, or so many symbols of them or of an open read, or the text ends, or 2^32 reads gave
/// bytes. The answer is whether it goes on. A round that is full takes nothing more. No read is made once `most` of them gave
/// bytes: then the input is too long. A faulty text is refused with its first fault, as soon as the line is read that has it.
pub fn fill_round<R: Read>(
    reader: &mut Counted<R>,
    feeder: &mut Feeder,
    most: u64,
    reads: usize,
    symbols: usize,
) -> Result<bool, InputError>
    requires reads { reader.old.reads ≤ most }
    ensures counts { AreCounts most reader.old.reads reader.new.reads reader.old.failures reader.new.failures result }
    ensures fed { (overlap : ℕ) (format : Format) (text : List ℕ) (taken : List (List ℕ))
        → Stands (Some overlap) format text taken feeder.old
        → IsFedBy overlap format (R.remaining reader.old.inner)
        (R.remaining reader.new.inner) reader.old.reads reader.new.reads text taken feeder.new result }
    ensures at_end { result ≡ Ok false → IsAtEnd (R.remaining reader.new.inner) }
    ensures filled { (overlap : ℕ) (format : Format) (text : List ℕ) (taken : List (List ℕ))
        → Stands (Some overlap) format text taken feeder.old
        → OnOk result
        (IsFilled reads symbols BLOCK overlap format (R.remaining reader.old.inner)
        (R.remaining reader.new.inner) text taken feeder.old feeder.new) }
    ensures full { IsWholeRound reads symbols reader.old.reads reader.new.reads feeder.new result }
{
    let mut block = [0u8; BLOCK];
    for _ in 0..1u64 << 32 {
        if reader.reads() >= most {
            return Err(InputError::TooLong);
        }
        let more = read_and_feed(reader, feeder, &mut block)?;
        if !more {
            return Ok(false);
        }
        if feeder.waiting() >= reads
            || feeder.waiting_symbols() >= symbols
            || feeder.open_symbols() >= symbols
        {
            return Ok(true);
        }
    }
    Ok(true)
}
