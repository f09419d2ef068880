//! How reads are cut into the parts that workers pass.
ghost use Rattle.std.specs.Prelude.{◌<◌, ◌≤◌};

use kmc_record::Shape;

/// How reads are cut into chunks, and chunks into parts.
#[derive(Clone, Copy)]
pub struct Plan {
    /// How the reads of a chunk are cut into parts.
    pub shape: Shape,
    /// The reads of a chunk, at least 1; the last chunk has the rest.
    pub batch: usize,
    pub ghost some: { (0 < batch) × (1 ≤ shape.k) },
}
