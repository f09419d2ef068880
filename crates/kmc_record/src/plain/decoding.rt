//! How a record is read.
ghost use Rattle.std.specs.Prelude.{◌≡◌, ◌+◌, ◌*◌, ◌≤◌, ◌++◌, length, take, IfOk, IfErr};
ghost use Rattle.kmc_base.specs.Record.{spelling, IsSpelled, codes_in};
ghost use Rattle.kmc_record.specs.DecodingRefusals.{IsRefusedRecord};

use crate::fault::RecordFault;
use crate::record::{code_at, first_record};
use kmc_base::MAX_K;
use kmc_split::SuperKmer;
use std::alloc::{AllocError, Global};
use thiserror::Error;

/// Why a record was not read, in the order of the tests.
#[derive(Clone, Copy, Debug, PartialEq, Eq, Error)]
pub enum RecordError {
    /// The bytes begin with no record: what is wrong with them.
    #[error("{0}")]
    Damaged(RecordFault),
    /// A growth was refused; the bytes begin with a record.
    #[error("out of memory")]
    Memory,
}

impl RecordError {
    ghost use Rattle.kmc_record.specs.DecodingNumbers.{number_of_record_error};

    /// The number of the refusal, as docs/REFUSALS.md lists it.
    pub fn number(&self) -> u8
        ensures { result ≡ number_of_record_error self.now }
    {
        match self {
            RecordError::Damaged(fault) => fault.number(),
            RecordError::Memory => 3,
        }
    }
}

impl From<RecordFault> for RecordError {
    ghost use Rattle.kmc_record.specs.declared.plain.decoding.RecordError.TheVariants.{Damaged};

    ghost from_gives = { λ fault e. e ≡ Damaged fault };

    fn from(fault: RecordFault) -> RecordError {
        RecordError::Damaged(fault)
    }
}

impl From<AllocError> for RecordError {
    ghost use Rattle.kmc_record.specs.declared.plain.decoding.RecordError.TheVariants.{Memory};

    ghost from_gives = { λ _ e. e ≡ Memory };

    fn from(_: AllocError) -> RecordError {
        RecordError::Memory
    }
}

/// The first codes of the bytes.
fn unpacked(alloc: Global, bytes: &[u8], n: usize) -> Result<Vec<u8>, AllocError>
    requires { n ≤ 4 * length bytes.now }
    ensures { IfOk result (λ codes. codes.items ≡ take n (codes_in bytes.now)) }
{
    let mut codes = Vec::new(alloc);
    for i in 0..n {
        codes.push(code_at(bytes, i))?;
    }
    Ok(codes)
}

/// The super-k-mer of the record that the bytes begin with, and the bytes behind that record; else why there is none.
pub fn decode<'a>(
    alloc: Global,
    bytes: &'a [u8],
    k: usize,
) -> Result<(SuperKmer, &'a [u8]), RecordError>
    requires some { 1 ≤ k }
    requires most { k ≤ MAX_K }
    ensures k { IfOk result (λ r. r.0.k ≡ k) }
    ensures spelled { IfOk result (λ r. IsSpelled k r.0.codes) }
    ensures rest { IfOk result (λ r. bytes.now ≡ spelling k r.0.codes ++ r.1.now) }
    ensures refused { IfErr result (λ e. IsRefusedRecord k e bytes.now) }
{
    if bytes.is_empty() {
        return Err(RecordError::Damaged(RecordFault::Short));
    }
    let (symbols, packed) = first_record(bytes, k)?;
    let codes = unpacked(alloc, packed, symbols)?;
    match SuperKmer::new(codes, k) {
        Some(s) => Ok((s, &bytes[1 + packed.len()..])),
        None => unreachable!(),
    }
}
