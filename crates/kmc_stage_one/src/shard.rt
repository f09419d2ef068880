//! What a storer is given, and what it hands back.
use kmc_partqueue::ReaderSeat;
use kmc_record::Part;
use kmc_store::Bins;

/// The seat of a reader, and the bins that take in what it gets.
#[derive(Drop)]
pub struct Shard {
    pub seat: ReaderSeat<Part>,
    pub bins: Bins,
}
