//! How words are parted into ranges.

/// Ranges of packed words of k codes, each from one bound to before the next. A word belongs to a range by its slot, which
/// is the word without its last `shift` bits.
#[derive(Drop)]
pub struct Ranges {
    /// The codes of a word.
    pub k: usize,
    /// The bits of a word below its slot.
    pub shift: u32,
    /// The slots at which ranges begin, rising, and the end of the last range.
    pub bounds: Vec<u128>,
    /// No range has more pairs than this.
    pub widest: usize,
}
