//! How wide a count is kept.
ghost use Rattle.std.specs.Prelude.{◌≡◌, ℕ, ◌-◌, ◌^◌, ◌<◌, ◌≤◌, length, decimal};

use crate::line::DIGITS;

/// A number for what is shown of a count. The greatest that is shown, cs, decides which one is wide enough.
pub trait CountWidth: Copy {
    ghost count: { Self → ℕ };

    ghost greatest: { ℕ };

    ghost most_digits: { ℕ };

    ghost bits: { ℕ };

    fn narrow(shown: u64) -> Self
        requires { shown ≤ greatest }
        ensures { count result ≡ shown };

    fn to_u64(self) -> u64
        ensures is { result ≡ count self }
        ensures short { length (decimal result) ≤ most_digits }
        ensures fits { result < 2 ^ bits };

    /// The most digits that a count has in a text.
    fn digits() -> usize
        ensures is { result ≡ most_digits }
        ensures few { result ≤ DIGITS };

    /// How many bits hold a count.
    fn bits() -> u32
        ensures is { result ≡ bits }
        ensures most { result ≤ 64 }
        ensures short { (n : ℕ) → n < 2 ^ result → length (decimal n) ≤ most_digits };
}

impl CountWidth for u64 {
    ghost count = { λ n. n };

    ghost greatest = { 2 ^ 64 - 1 };

    ghost most_digits = { 20 };

    ghost bits = { 64 };

    fn narrow(shown: u64) -> u64 {
        shown
    }

    fn to_u64(self) -> u64 {
        self
    }

    fn digits() -> usize {
        20
    }

    fn bits() -> u32 {
        64
    }
}

impl CountWidth for u32 {
    ghost count = { λ n. n };

    ghost greatest = { 2 ^ 32 - 1 };

    ghost most_digits = { 10 };

    ghost bits = { 32 };

    fn narrow(shown: u64) -> u32 {
        shown as u32
    }

    fn to_u64(self) -> u64 {
        u64::from(self)
    }

    fn digits() -> usize {
        10
    }

    fn bits() -> u32 {
        32
    }
}

impl CountWidth for u8 {
    ghost count = { λ n. n };

    ghost greatest = { 255 };

    ghost most_digits = { 3 };

    ghost bits = { 8 };

    fn narrow(shown: u64) -> u8 {
        shown as u8
    }

    fn to_u64(self) -> u64 {
        u64::from(self)
    }

    fn digits() -> usize {
        3
    }

    fn bits() -> u32 {
        8
    }
}
