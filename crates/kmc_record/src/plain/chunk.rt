//! The parts of a chunk.
ghost use Rattle.std.specs.Prelude.{map, IfOk};
ghost use Rattle.kmc_record.specs.Parts.{ArePartsOf};

use crate::part::Part;
use crate::parts::parts_of_reads;
use crate::shape::Shape;
use std::alloc::{AllocError, Global};

/// Some reads of an input, and which chunk of it they are.
#[derive(Debug, PartialEq, Eq, Drop)]
pub struct Chunk {
    pub number: u64,
    pub reads: Vec<Vec<u8>>,
}

/// The parts of a chunk: those of its reads.
pub fn parts_of(alloc: Global, chunk: &Chunk, shape: Shape) -> Result<Vec<Part>, AllocError>
    ensures { IfOk result (λ parts. ArePartsOf chunk.now.number
        (map (λ r. r.items) chunk.now.reads.items) shape parts.items) }
{
    let mut reads = Vec::with_capacity(alloc, chunk.reads.len())?;
    for read in &chunk.reads {
        reads.push(read.as_slice())?;
    }
    parts_of_reads(alloc, chunk.number, &reads, shape)
}
