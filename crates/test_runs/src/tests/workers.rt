//! Reads that pass through queues to threads: which points are passed, which workers run side by side, and what lies in
//! the bins at the end.
mod agreement;
mod full_lane;
mod in_turn;
mod meeting;
mod nothing;
mod one_thread;
mod outcome;
mod points;
pub mod records;
mod refused;
pub mod side_by_side;

use kmc_partcore::QueueShape;
use kmc_record::Shape;
use kmc_stage_one::Plan;
use std::alloc::{AllocError, Global};

/// The reads, between which stand commas.
fn reads_of(alloc: Global, text: &str) -> Result<Vec<Vec<u8>>, AllocError> {
    let mut reads = Vec::new(alloc);
    for read in text.split(',') {
        reads.push(read.as_bytes().to_vec(alloc)?)?;
    }
    Ok(reads)
}

/// Two reads, each of which gives three parts by words of four symbols and seven bins.
const TWICE: &str = "ACGTACGT,ACGTACGT";

/// Words of four symbols in seven bins, each read a chunk.
fn one_read_a_chunk() -> Option<Plan> {
    let shape = Shape::new(4, 5, 7)?;
    Some(Plan { shape, batch: 1 })
}

/// A queue of two writers with room for all parts of the two reads, and so many readers.
fn two_writers(readers: usize) -> Option<QueueShape> {
    QueueShape::new(2, 8, readers)
}
