//! The number of a word of two dumps, by its counts there.
ghost use Rattle.std.specs.Prelude.{◌≡◌, ◌-◌, ◌^◌, min};

/// The number of a word that both dumps list.
#[derive(Clone, Copy, Debug, PartialEq, Eq)]
pub enum Choice {
    /// The lesser count.
    Min,
    /// The greater count.
    Max,
    /// Both counts together.
    Sum,
    /// The first count less the second; none where the second is as great.
    Diff,
    /// The first dump's count.
    Left,
    /// The second dump's count.
    Right,
}

impl Choice {
    ghost use Rattle.kmc_join.specs.Operation.{chosen};

    /// The number of a word with these counts in the first and in the second dump. A sum above 2^64 - 1 stays there.
    fn number(self, left: u64, right: u64) -> u64
        ensures { result ≡ min (chosen self left right) (2 ^ 64 - 1) }
    {
        match self {
            Choice::Min => left.min(right),
            Choice::Max => left.max(right),
            Choice::Sum => left.saturating_add(right),
            Choice::Diff => left.saturating_sub(right),
            Choice::Left => left,
            Choice::Right => right,
        }
    }
}

/// What two dumps are joined to.
#[derive(Clone, Copy, Debug, PartialEq, Eq)]
pub enum Operation {
    /// The words of both.
    Intersect(Choice),
    /// The words of either, with their count where only one lists them.
    Union(Choice),
    /// The words of the first that the second does not list.
    Subtract,
    /// The words of the first, with their count where the second does not list them.
    CountersSubtract(Choice),
}

impl Operation {
    ghost use Rattle.kmc_join.specs.Operation.{combined};

    /// The number of a word with these counts in the first and in the second dump, where 0 means that the dump does not list it: 0 where
    /// the word is left out. A sum above 2^64 - 1 stays there.
    pub fn combined(self, left: u64, right: u64) -> u64
        ensures { result ≡ min (combined self left right) (2 ^ 64 - 1) }
    {
        match self {
            Operation::Intersect(choice) => {
                if left == 0 || right == 0 {
                    0
                } else {
                    choice.number(left, right)
                }
            }
            Operation::Union(choice) => {
                if left == 0 {
                    right
                } else if right == 0 {
                    left
                } else {
                    choice.number(left, right)
                }
            }
            Operation::Subtract => { if right > 0 { 0 } else { left } }
            Operation::CountersSubtract(choice) => {
                if left == 0 {
                    0
                } else if right == 0 {
                    left
                } else {
                    choice.number(left, right)
                }
            }
        }
    }
}
