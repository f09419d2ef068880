//! A line of a dump that is handed out read, or as text.
ghost use Rattle.std.specs.Prelude.{◌≡◌, ◌^◌, ◌<◌, ◌≤◌, [], ◌∷◌, ◌++◌, length, take, min, true, false, MatchOption};
ghost use Rattle.kmc_base.specs.Packed.{unpack};
ghost use Rattle.kmc_lists.specs.Line.{line_of};
ghost use Rattle.kmc_database.specs.HeldLine.{IsLineInHand};

use crate::digits::digits_of;
use crate::line_buffer::LineBuffer;
use crate::row_reading::Row;
use kmc_base::MAX_K;
use kmc_sum::Line;
use std::marker::Model;

/// A line in hand: a row of `k` codes whose text nobody asked for yet, or the text that is not yet handed out. Contracts see the text.
#[derive(Drop)]
pub(crate) struct HeldLine {
    row: Option<Row>,
    k: usize,
    text: LineBuffer,
}

impl Model for HeldLine {
    ghost use Rattle.std.specs.Prelude.{ℕ, List};
    ghost use Rattle.kmc_database.specs.HeldLine.{held_text, HoldsRow};

    ghost Value = { List ℕ };

    ghost view = { λ h. held_text h.k h.row h.text };

    ghost invariant = { λ h. HoldsRow h.k h.row h.text };
}

impl HeldLine {
    /// No line.
    pub fn new() -> HeldLine
        ensures { result ≡ [] }
    {
        HeldLine {
            row: None,
            k: 1,
            text: LineBuffer::new(),
        }
    }

    /// Whether nothing is held.
    pub fn is_empty(&self) -> bool
        ensures empty { result ≡ true → self.now ≡ [] }
        ensures some { result ≡ false → 1 ≤ length self.now }
    {
        self.row.is_none() && self.text.is_empty()
    }

    /// Holds the line of a packed word of `k` codes and its count in place of what it held.
    pub fn hold_line(&mut self, packed: u128, k: usize, count: u64)
        requires some { 1 ≤ k }
        requires most { k ≤ MAX_K }
        requires fits { packed < 4 ^ k }
        ensures { self.new ≡ line_of (unpack k packed, count) }
    {
        self.row = Some(Row { packed, count });
        self.k = k;
        self.text.clear();
    }

    /// Holds byte 0, which stands in no dump, in place of what it held.
    pub fn hold_fault(&mut self)
        ensures { self.new ≡ 0 ∷ [] }
    {
        self.row = None;
        self.text.hold_fault();
    }

    /// Hands out the text of what is held, as much as there is room for, and says how much.
    pub fn give(&mut self, out: &mut [u8]) -> usize
        ensures count { result ≡ min (length self.old) (length out.old) }
        ensures bytes { self.old ≡ take result out.new ++ self.new }
    {
        if let Some(row) = self.row.take() {
            self.text.hold_line(row.packed, self.k, row.count);
        }
        self.text.give(out)
    }

    /// Hands out the line that is held, where no part of its text was handed out and its count is not 0.
    pub fn take_line(&mut self) -> Option<Line>
        ensures { MatchOption result (self.new ≡ self.old) (IsLineInHand self.old self.new) }
    {
        let Some(Row { packed, count }) = self.row else {
            return None;
        };
        if count == 0 {
            return None;
        }
        self.row = None;
        let k = self.k;
        let end = k + 2 + digits_of(count);
        Some(Line {
            k,
            packed,
            count,
            end,
        })
    }
}
