//! A line of a dump that is handed out.
ghost use Rattle.std.specs.Prelude.{◌≡◌, ◌+◌, ◌^◌, ◌<◌, ◌≤◌, [], ◌∷◌, ◌++◌, length, take, min, true, false};
ghost use Rattle.kmc_base.specs.Packed.{unpack};
ghost use Rattle.kmc_lists.specs.Line.{line_of};

use kmc_base::{Kmer, MAX_K};
use kmc_lists::{LINE, put_line};
use std::marker::Model;

/// The bytes of a line that are not yet handed out, which is what contracts see of it.
#[derive(Drop)]
pub(crate) struct LineBuffer {
    room: [u8; LINE],
    at: usize,
    end: usize,
}

impl Model for LineBuffer {
    ghost use Rattle.std.specs.Prelude.{ℕ, ◌-◌, ◌≤◌, List, take, drop, length};

    ghost Value = { List ℕ };

    ghost view = { λ b. take (b.end - b.at) (drop b.at b.room) };

    ghost invariant = { λ b. (b.at ≤ b.end) × (b.end ≤ length b.room) };
}

impl LineBuffer {
    /// A buffer that holds nothing.
    pub fn new() -> LineBuffer
        ensures { result ≡ [] }
    {
        LineBuffer {
            room: [0; LINE],
            at: 0,
            end: 0,
        }
    }

    /// Whether nothing is held.
    pub fn is_empty(&self) -> bool
        ensures empty { result ≡ true → self.now ≡ [] }
        ensures some { result ≡ false → 1 ≤ length self.now }
    {
        self.at == self.end
    }

    /// Holds nothing any more.
    pub fn clear(&mut self)
        ensures { self.new ≡ [] }
    {
        self.at = 0;
        self.end = 0;
    }

    /// Holds the line of a packed word of `k` codes and its count in place of what it held.
    pub fn hold_line(&mut self, packed: u128, k: usize, count: u64)
        requires some { 1 ≤ k }
        requires most { k ≤ MAX_K }
        requires fits { packed < 4 ^ k }
        ensures { self.new ≡ line_of (unpack k packed, count) }
    {
        let word = Kmer::of_packed(packed, k);
        self.end = put_line(&mut self.room, 0, &word, count);
        self.at = 0;
    }

    /// Holds byte 0, which stands in no dump, in place of what it held.
    pub fn hold_fault(&mut self)
        ensures { self.new ≡ 0 ∷ [] }
    {
        self.room[0] = 0;
        self.at = 0;
        self.end = 1;
    }

    /// Hands out what is held, as much as there is room for, and says how much.
    pub fn give(&mut self, out: &mut [u8]) -> usize
        ensures count { result ≡ min (length self.old) (length out.old) }
        ensures bytes { self.old ≡ take result out.new ++ self.new }
    {
        let count = (self.end - self.at).min(out.len());
        out[..count].copy_from_slice(&self.room[self.at..self.at + count]);
        self.at += count;
        count
    }
}
