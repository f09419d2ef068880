//! A splitter comes to a lane that is full: the storer holds the first part in its slot until the splitter stands before
//! its second part, and for some turns more.
use super::meeting::{Meeting, PATIENT};
use super::outcome::passed_twice;
use super::records::assert_twice_in;
use kmc_partcore::QueueShape;
use kmc_partqueue::{Gate, Point};
use std::thread;

/// The storer and the splitter meet while the only slot is taken.
#[derive(Drop)]
struct HeldSlot {
    meeting: Meeting,
}

impl Gate for HeldSlot {
    fn pass(&self, point: Point) {
        match point {
            Point::BeforePut(_, 1) => self.meeting.comes(0),
            Point::PartClaimed(_, _, 0) => {
                self.meeting.comes(1);
                for _ in 0..1000 {
                    thread::yield_now();
                }
            }
            _ => {}
        }
    }
}

#[test]
fn a_full_lane_is_tried_again(rt: HostRuntime) {
    let queue = QueueShape::new(1, 1, 1).expect(&rt, "a queue");
    let gate = HeldSlot {
        meeting: Meeting::new(PATIENT),
    };
    let made = passed_twice(&rt, rt.alloc(), queue, &gate);
    assert!(rt; gate.meeting.is_held());
    assert_eq!(rt; made.totals.of(0), Some(6));
    assert_twice_in(&rt, rt.alloc(), &made.bins).expect(&rt, "memory");
}
