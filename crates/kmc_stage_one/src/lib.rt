//! Stage one: reads become bins. Reads come in rounds from a device; a round goes through the queue into bins, by splitters and
//! storers in threads, while the next one is read. It stands on kmc_reads for reads, on kmc_record for parts, on kmc_partqueue for
//! the queue and on kmc_store for bins. The layer above uses that the bins hold the reads of all that the reader gave, or why they do
//! not.
#![tactic(auto)]

mod beginning;
mod dealing;
mod filling;
pub mod laws;
mod merging;
mod passing;
mod pieces;
mod plan;
mod round;
mod rounds;
mod settings;
mod shard;
mod splitter;
mod splitters;
mod storer;
mod storers;
mod storing;
mod workers;

pub use beginning::with_bins;
pub use dealing::Dealing;
pub use filling::fill_bins;
pub use kmc_partqueue::Refusal;
pub use merging::merge_shards;
pub use passing::pass_parts;
pub use pieces::{piece, piece_count, pieces_of, push_pieces};
pub use plan::Plan;
pub use round::fill_round;
pub use rounds::{bins_of_input, feed_round, last_round, round_of, take_round};
pub use settings::{MOST_READS, PIECE_SYMBOLS, RoundSettings};
pub use shard::Shard;
pub use splitters::split_all;
pub use storers::{Takes, start_storer};
pub use storing::store_reads;
