//! The number of a word of two dumps of which each counts within limits of its own.
ghost use Rattle.std.specs.Prelude.{◌≡◌, ◌-◌, ◌^◌, min};

use crate::operation::Operation;

/// The counts that are taken of one dump: from the least to the greatest, both ends included.
#[derive(Clone, Copy, Debug, PartialEq, Eq)]
pub struct CountRange {
    pub least: u64,
    pub greatest: u64,
}

/// Each count is taken.
pub const EVERY_COUNT: CountRange = CountRange {
    least: 0,
    greatest: u64::MAX,
};

impl CountRange {
    ghost use Rattle.kmc_join.specs.Rule.{within};

    /// The count, where it is within the range, and else 0, as of a word that the dump does not list.
    pub fn within(self, count: u64) -> u64
        ensures { result ≡ within self count }
    {
        if self.least <= count && count <= self.greatest {
            count
        } else {
            0
        }
    }
}

/// How the number of a word is made of its counts in two dumps: which counts are taken of the first and of the second, and what is made of
/// them.
#[derive(Clone, Copy, Debug, PartialEq, Eq)]
pub struct JoinRule {
    pub operation: Operation,
    pub left: CountRange,
    pub right: CountRange,
}

impl JoinRule {
    ghost use Rattle.kmc_join.specs.Rule.{number_by};

    /// The number of a word with these counts in the first and in the second dump, of which 0 means that the dump does not list it: 0 where
    /// the word is left out. A sum above 2^64 - 1 stays there.
    pub fn number(self, left: u64, right: u64) -> u64
        ensures { result ≡ min (number_by self left right) (2 ^ 64 - 1) }
    {
        self.operation
            .combined(self.left.within(left), self.right.within(right))
    }
}
