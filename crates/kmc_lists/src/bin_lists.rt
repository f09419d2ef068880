//! The lists of all bins, with words and counts as narrow as k and the limits allow.

use crate::kmer_list::KmerList;
use kmc_base::PackedKmer;

/// Lists whose counts are as wide as the greatest that is shown wants it.
#[derive(Drop)]
pub enum SizedLists<W: PackedKmer> {
    U8(Vec<KmerList<W, u8>>),
    U32(Vec<KmerList<W, u32>>),
    U64(Vec<KmerList<W, u64>>),
}

/// The lists of bins: words of up to 32 symbols in 64 bits, longer ones in 128.
#[derive(Drop)]
pub enum BinLists {
    Narrow(SizedLists<u64>),
    Wide(SizedLists<u128>),
}
