//! Sixteen writers and eight readers, each in a thread of its own, pass a hundred parts of each writer, part n of chunk n, through a queue
//! whose lanes have one slot. It tells whether each part came once, in the order of its writer, and whether the totals
//! are right. bench/hostile_threads.sh runs it again and again beside other work.

mod many;
mod seen;

use crate::parts::many::pass_all;
use crate::parts::seen::{Seen, WRITERS};
use kmc_partcore::QueueShape;
use kmc_partqueue::Lanes;
use kmc_record::Part;
use std::alloc::Global;
use std::io;
use std::sync::Wait;
use std::thread::Threads;

const READERS: usize = 8;

/// Tells whether each part came once.
fn tell(rt: &impl Print, seen: &Seen) -> io::Result<()> {
    if seen.each_once() {
        rt.println("1600 parts came once each")
    } else {
        rt.println("a part was lost, came twice or came late")
    }
}

/// Passes the parts, and tells whether each came once.
pub fn pass_parts<T: Print + Threads + Wait + Sync>(rt: &T, alloc: Global) -> io::Result<()> {
    let shape = QueueShape {
        writers: WRITERS,
        per_writer: 1,
        readers: READERS,
    };
    let (lanes, writers, readers) = Lanes::<Part>::new(alloc, shape)?;
    let seen = Seen::new(alloc)?;
    match pass_all(rt, alloc, lanes, writers, readers, &seen) {
        Some(totals) => seen.ended(&totals),
        None => seen.note_strange(),
    }
    tell(rt, &seen)
}
