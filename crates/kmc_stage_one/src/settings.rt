//! What stage one is told of a run.
ghost use Rattle.kmc_record.specs.Shapes.{IsShape};

use kmc_partcore::QueueShape;
use kmc_reads::Format;
use kmc_record::Shape;

/// A splitter cuts no more symbols at once: a longer read is dealt as pieces.
pub const PIECE_SYMBOLS: usize = 1 << 16;

/// So many reads of a reader may give bytes.
pub const MOST_READS: u64 = 1 << 32;

/// What the text of a run is, how its reads are cut into parts, which queue these pass, and when a round is full.
#[derive(Clone, Copy)]
pub struct RoundSettings {
    /// The format of the text.
    pub format: Format,
    /// How reads are cut into parts.
    pub shape: Shape,
    /// The queue that parts pass: a writer for each splitter, a reader for each storer.
    pub queue: QueueShape,
    /// The reads of a round for each splitter.
    pub batch: usize,
    pub ghost bounds: { IsShape shape.k shape.m shape.n },
}
