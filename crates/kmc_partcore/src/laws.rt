//! The limits, as a contract. No function here does anything when it runs.
ghost use Rattle.std.specs.Prelude.{◌≡◌, ◌+◌, ◌^◌};
ghost use Rattle.kmc_partcore.specs.Laws.{LeftBeginsAccepted, LiveDetermines, LiveAdvances};

use crate::shape::{MAX_ITEMS, MAX_PER_WRITER, MAX_READERS, MAX_WRITERS};

/// The limits of a queue are these numbers: 16 writers, 64 waiting items of each, 8 readers, and 2^32 - 1 items of a writer in its life.
pub fn limits()
    ensures shape { (MAX_WRITERS ≡ 16) × (MAX_PER_WRITER ≡ 64) × (MAX_READERS ≡ 8) }
    ensures items { MAX_ITEMS + 1 ≡ 2 ^ 32 }
{}

/// What has left of each writer is the first of what was accepted of it, numbered from 0.
pub fn left_begins_accepted<T>()
    ensures { LeftBeginsAccepted T }
{}

/// The live part of a lawful state determines which entries are legal next.
pub fn live_determines<T>()
    ensures { LiveDetermines T }
{}

/// After a legal history the live part and an entry give the live part with that entry.
pub fn live_advances<T>()
    ensures { LiveAdvances T }
{}
