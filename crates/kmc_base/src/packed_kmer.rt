//! Numbers that hold a packed word: 64 bits where k is at most 32, and 128 bits above.
ghost use Rattle.std.specs.Prelude.{◌≡◌, ℕ, ◌+◌, ◌-◌, ◌*◌, ◌/◌, ◌%◌, ◌^◌, ◌<◌, ◌≤◌, ◌↔◌, IsTrue, map, min};
ghost use Rattle.std.specs.List.Sorted.{IsSorted, IsPermutation};
ghost use Rattle.std.specs.Ordering.{nat_cmp};
ghost use Rattle.kmc_base.specs.Bytes.{ahead_byte, behind_byte};
ghost use Rattle.kmc_base.specs.Weights.{weighted, item_weight};

use crate::other_strand::turned;
use crate::weight::Weight;

/// The most bits that are used for how often a word is counted.
pub const MOST_WEIGHT_BITS: usize = 20;

/// An unsigned number in which k codes lie, two bits each, the last one lowest.
pub trait PackedKmer: Copy {
    ghost number: { Self → ℕ };

    ghost most: { ℕ };

    /// No code but A.
    fn zero() -> Self
        ensures { number result ≡ 0 };

    /// A packed word of at most 16 codes.
    fn of_packed(packed: u32) -> Self
        ensures { number result ≡ packed };

    /// The weight of the first of k codes.
    fn top(k: usize) -> Self
        requires some { 1 ≤ k }
        requires most { k ≤ most }
        ensures { number result ≡ 4 ^ (k - 1) };

    /// k codes T.
    fn ones(k: usize) -> Self
        requires some { 1 ≤ k }
        requires most { k ≤ most }
        ensures { number result + 1 ≡ 4 ^ k };

    /// The window with its first code dropped and one more at its end.
    fn ahead(self, code: u8, top: Self) -> Self
        requires code { code < 4 }
        requires top { (j : ℕ) × (j < most) × (number top ≡ 4 ^ j) }
        ensures { number result ≡ number self % number top * 4 + code };

    /// The reverse complement of that window, from the one before.
    fn behind(self, code: u8, top: Self) -> Self
        requires code { code < 4 }
        requires top { (j : ℕ) × (j < most) × (number top ≡ 4 ^ j) }
        requires back { number self / 4 < number top }
        ensures { number result ≡ number self / 4 + (3 - code) * number top };

    /// The window with its first four codes dropped and those of a byte at its end.
    fn ahead_byte(self, byte: u8, top: Self) -> Self
        requires top { (j : ℕ) × (3 ≤ j) × (j < most) × (number top ≡ 4 ^ j) }
        ensures { number result ≡ ahead_byte (number top) (number self) byte };

    /// The reverse complement of that window, from the one before.
    fn behind_byte(self, byte: u8, top: Self) -> Self
        requires top { (j : ℕ) × (3 ≤ j) × (j < most) × (number top ≡ 4 ^ j) }
        requires back { number self / 4 < number top }
        ensures { number result ≡ behind_byte (number top) (number self) byte };

    fn lesser(self, other: Self) -> Self
        ensures { number result ≡ min (number self) (number other) };

    fn is_same(self, other: Self) -> bool
        ensures { IsTrue result ↔ (number self ≡ number other) };

    fn to_u128(self) -> u128
        ensures { result ≡ number self };

    /// How many bits beside a word of k codes hold how often it is counted.
    fn weight_bits(k: usize) -> u32
        requires some { 1 ≤ k }
        requires most { k ≤ most }
        ensures { result ≡ min (2 * most - 2 * k) MOST_WEIGHT_BITS };

    /// The word with how often it is counted: an item.
    fn weighted(self, weight: Weight) -> Self
        requires { (k : ℕ) × (1 ≤ k) × (2 * k + weight.bits ≤ 2 * most) × (number self < 4 ^ k) }
        ensures { number result ≡ weighted weight.bits weight.times (number self) };

    /// The word of an item.
    fn without_weight(self, bits: u32) -> Self
        requires { bits ≤ MOST_WEIGHT_BITS }
        ensures { number result ≡ number self / 2 ^ bits };

    /// How often the word of an item is counted.
    fn times(self, bits: u32) -> u64
        requires { bits ≤ MOST_WEIGHT_BITS }
        ensures { result ≡ item_weight bits (number self) };

    /// Sorts in place, rising.
    fn sort(words: &mut Vec<Self>)
        ensures moved { IsPermutation (map number words.old.items) (map number words.new.items) }
        ensures sorted { IsSorted nat_cmp (map number words.new.items) };
}

impl PackedKmer for u64 {
    ghost number = { λ n. n };

    ghost most = { 32 };

    fn zero() -> u64 {
        0
    }

    fn of_packed(packed: u32) -> u64 {
        u64::from(packed)
    }

    fn top(k: usize) -> u64 {
        1 << (2 * (k - 1))
    }

    fn ones(k: usize) -> u64 {
        u64::MAX >> (64 - 2 * k)
    }

    fn ahead(self, code: u8, top: u64) -> u64 {
        ((self & (top - 1)) << 2) | u64::from(code)
    }

    fn behind(self, code: u8, top: u64) -> u64 {
        self / 4 + u64::from(3 - code) * top
    }

    fn ahead_byte(self, byte: u8, top: u64) -> u64 {
        ((self & (top / 64 - 1)) << 8) | u64::from(byte)
    }

    fn behind_byte(self, byte: u8, top: u64) -> u64 {
        (self / 256) | (u64::from(turned(byte)) * (top / 64))
    }

    fn lesser(self, other: u64) -> u64 {
        self.min(other)
    }

    fn is_same(self, other: u64) -> bool {
        self == other
    }

    fn to_u128(self) -> u128 {
        u128::from(self)
    }

    fn weight_bits(k: usize) -> u32 {
        (64 - 2 * k).min(MOST_WEIGHT_BITS) as u32
    }

    fn weighted(self, weight: Weight) -> u64 {
        (self << weight.bits) + (weight.times - 1)
    }

    fn without_weight(self, bits: u32) -> u64 {
        self >> bits
    }

    fn times(self, bits: u32) -> u64 {
        (self & ((1 << bits) - 1)) + 1
    }

    fn sort(words: &mut Vec<u64>) {
        words.sort_unstable();
    }
}

impl PackedKmer for u128 {
    ghost number = { λ n. n };

    ghost most = { 64 };

    fn zero() -> u128 {
        0
    }

    fn of_packed(packed: u32) -> u128 {
        u128::from(packed)
    }

    fn top(k: usize) -> u128 {
        1 << (2 * (k - 1))
    }

    fn ones(k: usize) -> u128 {
        u128::MAX >> (128 - 2 * k)
    }

    fn ahead(self, code: u8, top: u128) -> u128 {
        ((self & (top - 1)) << 2) | u128::from(code)
    }

    fn behind(self, code: u8, top: u128) -> u128 {
        self / 4 + u128::from(3 - code) * top
    }

    fn ahead_byte(self, byte: u8, top: u128) -> u128 {
        ((self & (top / 64 - 1)) << 8) | u128::from(byte)
    }

    fn behind_byte(self, byte: u8, top: u128) -> u128 {
        (self / 256) | (u128::from(turned(byte)) * (top / 64))
    }

    fn lesser(self, other: u128) -> u128 {
        self.min(other)
    }

    fn is_same(self, other: u128) -> bool {
        self == other
    }

    fn to_u128(self) -> u128 {
        self
    }

    fn weight_bits(k: usize) -> u32 {
        (128 - 2 * k).min(MOST_WEIGHT_BITS) as u32
    }

    fn weighted(self, weight: Weight) -> u128 {
        (self << weight.bits) + u128::from(weight.times - 1)
    }

    fn without_weight(self, bits: u32) -> u128 {
        self >> bits
    }

    fn times(self, bits: u32) -> u64 {
        (self & ((1 << bits) - 1)) as u64 + 1
    }

    fn sort(words: &mut Vec<u128>) {
        words.sort_unstable();
    }
}
