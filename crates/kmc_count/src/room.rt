//! Room in which bins are counted one after the other.
use crate::repeats::Repeats;
use kmc_base::PackedKmer;
use std::alloc::Global;

/// Room for the records, the words and the counters of a bin, and what the bins before tell of the next one. It is used again for
/// each bin of a thread, and what it holds does not matter.
#[derive(Drop)]
pub struct CountingRoom<W: PackedKmer> {
    pub(crate) numbers: Vec<u128>,
    pub(crate) items: Vec<W>,
    pub(crate) bundles: Vec<W>,
    pub(crate) table: Vec<u32>,
    pub(crate) over: Vec<W>,
    pub(crate) repeats: Repeats,
}

impl<W: PackedKmer> CountingRoom<W> {
    /// Room that takes no memory yet; no bin was met.
    pub fn new(alloc: Global) -> CountingRoom<W> {
        CountingRoom {
            numbers: Vec::new(alloc),
            items: Vec::new(alloc),
            bundles: Vec::new(alloc),
            table: Vec::new(alloc),
            over: Vec::new(alloc),
            repeats: Repeats::new(),
        }
    }
}
