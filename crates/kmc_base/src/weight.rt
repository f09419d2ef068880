//! How often a word is counted, beside the word in one number.
ghost use Rattle.std.specs.Prelude.{◌^◌, ◌≤◌};

/// How often a word is counted, and how many bits beside the word hold that number less one.
#[derive(Clone, Copy)]
pub struct Weight {
    /// The bits beside the word.
    pub bits: u32,
    /// How often the word is counted, 1 to 2^bits.
    pub times: u64,
    pub ghost within: { (1 ≤ times) × (times ≤ 2 ^ bits) },
}
