//! What each atomic step tells its caller, and how seats are split and joined. These types are for the proofs alone.
ghost use Rattle.kmc_partqueue.specs.Plays.{claimed_free_slot, published_part, closed_lane, read_head, saw_published_part, claimed_part, released_slot, read_end};
ghost use Rattle.kmc_partqueue.specs.Dealing.{no_writer, its_writer, no_reader, its_reader, both, spent};

use crate::views::View;
use atomic_table::{Join, Play, Split};

/// A writer loads the mark of its next slot; a free slot goes into its hand.
pub struct ClaimFreeSlot;

impl<T> Play<Option<T>, View<T>> for ClaimFreeSlot {
    ghost then = { claimed_free_slot };
}

/// A writer stores the mark; the slot goes home with the part.
pub struct PublishPart;

impl<T> Play<Option<T>, View<T>> for PublishPart {
    ghost then = { published_part };
}

/// A writer stores the end of its lane.
pub struct CloseLane;

impl<T> Play<Option<T>, View<T>> for CloseLane {
    ghost then = { closed_lane };
}

/// A reader loads the head of a lane.
pub struct ReadHead;

impl<T> Play<Option<T>, View<T>> for ReadHead {
    ghost then = { read_head };
}

/// A reader loads the mark at the head that it read.
pub struct SeePublishedPart;

impl<T> Play<Option<T>, View<T>> for SeePublishedPart {
    ghost then = { saw_published_part };
}

/// A reader exchanges the head for the next; where it succeeds the slot goes into its hand.
pub struct ClaimPart;

impl<T> Play<Option<T>, View<T>> for ClaimPart {
    ghost then = { claimed_part };
}

/// A reader stores the mark; the slot goes home empty.
pub struct ReleaseSlot;

impl<T> Play<Option<T>, View<T>> for ReleaseSlot {
    ghost then = { released_slot };
}

/// A reader loads the end of the lane that it read.
pub struct ReadEnd;

impl<T> Play<Option<T>, View<T>> for ReadEnd {
    ghost then = { read_end };
}

/// A seat for the first writer is split off.
pub struct SplitWriter;

impl<T> Split<View<T>> for SplitWriter {
    ghost left = { no_writer };

    ghost right = { its_writer };
}

/// A seat for the first reader is split off.
pub struct SplitReader;

impl<T> Split<View<T>> for SplitReader {
    ghost left = { no_reader };

    ghost right = { its_reader };
}

/// A seat takes in all that another has.
pub struct JoinSeats;

impl<T> Join<View<T>> for JoinSeats {
    ghost both = { both };

    ghost spent = { spent };
}
