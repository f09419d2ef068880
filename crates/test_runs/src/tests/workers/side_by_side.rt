//! Two workers run side by side: each of two splitters waits before its second part, and each of two storers with the first
//! part that it claims, until the other has come as far.
use super::in_turn::pass_in_turn;
use super::meeting::{HASTY, Meeting, PATIENT};
use super::outcome::passed_twice;
use super::records::assert_twice;
use super::{TWICE, one_read_a_chunk, reads_of, two_writers};
use kmc_partqueue::{Gate, Point};
use std::alloc::Global;
use std::process::Abort;
use std::sync::Wait;
use std::thread::Threads;

/// Which workers meet.
#[derive(Clone, Copy)]
pub enum Pair {
    /// Splitters, before they put part 1.
    Splitters,
    /// Storers, with their first parts in hand.
    Storers,
}

/// The two workers meet.
#[derive(Drop)]
pub struct Meets {
    pair: Pair,
    meeting: Meeting,
}

impl Meets {
    /// A gate at which each of the two waits for the other.
    pub fn new(pair: Pair) -> Meets {
        Meets {
            pair,
            meeting: Meeting::new(PATIENT),
        }
    }

    /// Both came, and each saw the other.
    pub fn is_held(&self) -> bool {
        self.meeting.is_held()
    }
}

impl Gate for Meets {
    fn pass(&self, point: Point) {
        match (self.pair, point) {
            (Pair::Splitters, Point::BeforePut(writer, 1)) => self.meeting.comes(writer),
            (Pair::Storers, Point::PartClaimed(reader, _, _)) => self.meeting.comes(reader),
            _ => {}
        }
    }
}

/// The two see each other in threads, of two splitters and so many storers.
fn they_meet<R: Abort + Threads + Wait + Sync + Alloc<A = Global>>(
    rt: &R,
    pair: Pair,
    storers: usize,
) {
    let queue = two_writers(storers).expect(rt, "a queue");
    let gate = Meets::new(pair);
    let made = passed_twice(rt, rt.alloc(), queue, &gate);
    assert!(rt; gate.is_held());
    assert_twice(rt, rt.alloc(), &made).expect(rt, "memory");
}

/// They do not where one worker runs after the other.
fn they_miss_in_turn<R: Abort + Alloc<A = Global>>(rt: &R, pair: Pair) {
    let alloc = rt.alloc();
    let plan = one_read_a_chunk().expect(rt, "a plan");
    let reads = reads_of(alloc, TWICE).expect(rt, "memory");
    let gate = Meets {
        pair,
        meeting: Meeting::new(HASTY),
    };
    pass_in_turn(rt, alloc, &reads, plan.shape, &gate);
    assert!(rt; gate.meeting.is_missed());
}

#[test]
fn two_splitters_meet(rt: HostRuntime) {
    they_meet(&rt, Pair::Splitters, 1);
}

#[test]
fn two_storers_meet(rt: HostRuntime) {
    they_meet(&rt, Pair::Storers, 2);
}

#[test]
fn splitters_in_turn_do_not_meet(rt: HostRuntime) {
    they_miss_in_turn(&rt, Pair::Splitters);
}

#[test]
fn storers_in_turn_do_not_meet(rt: HostRuntime) {
    they_miss_in_turn(&rt, Pair::Storers);
}
