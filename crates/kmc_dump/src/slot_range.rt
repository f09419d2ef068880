//! Slots that follow one another.
ghost use Rattle.std.specs.Prelude.{◌<◌, ◌≤◌};

/// The words from one slot to before another. The slot of a word is the word without its last `shift` bits.
#[derive(Clone, Copy)]
pub struct SlotRange {
    /// The bits of a word below its slot.
    pub shift: u32,
    /// The first slot.
    pub from: u128,
    /// The slot behind the last.
    pub to: u128,
    pub ghost below: { shift < 128 },
    pub ghost order: { from ≤ to },
}
