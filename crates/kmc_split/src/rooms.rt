//! Vectors that only grow, with room behind what is looked at, so that loops go through whole rows of places.
ghost use Rattle.std.specs.Prelude.{◌+◌, ◌^◌, ◌<◌, ◌≤◌, length, OnOk};

use std::alloc::AllocError;

/// How many places vector code goes through at a time, at the most.
pub(crate) const ROW: usize = 16;

/// How many places there are in the whole rows that n places begin. A loop over so many works no place out alone; what it writes behind
/// the first n is not looked at.
pub(crate) fn whole_rows(n: usize) -> usize
    requires { n + ROW < 2 ^ 64 }
    ensures least { n ≤ result }
    ensures most { result < n + ROW }
{
    (n + (ROW - 1)) / ROW * ROW
}

/// Makes a vector at least this long. One that is long enough stays as it is, so a room that is used again is not filled again.
pub(crate) fn grow<T: Copy + Drop>(room: &mut Vec<T>, n: usize, filler: T) -> Result<(), AllocError>
    ensures { OnOk result (n ≤ length room.new.items) }
{
    if room.len() < n {
        room.resize(n, filler)?;
    }
    Ok(())
}
