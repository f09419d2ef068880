//! Numbers that look random, the same ones at each run.
ghost use Rattle.std.specs.Prelude.{◌<◌, ◌≤◌};

/// A row of numbers that look random, the same one for each first state.
#[derive(Drop)]
pub struct Dice {
    pub state: u64,
}

impl Dice {
    /// A number below `sides`.
    pub fn roll(&mut self, sides: usize) -> usize
        requires { 1 ≤ sides }
        ensures { result < sides }
    {
        self.state = self
            .state
            .wrapping_mul(6364136223846793005)
            .wrapping_add(1442695040888963407);
        (self.state >> 33) as usize % sides
    }
}
