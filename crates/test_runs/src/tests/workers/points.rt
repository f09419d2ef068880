//! Each part passes each point of its way once.
use super::outcome::passed_twice;
use super::records::assert_twice;
use super::two_writers;
use crate::tests::passes::Passes;
use std::alloc::Global;
use std::process::Abort;
use std::sync::Wait;
use std::thread::Threads;

/// Asserts that each of six parts passes each point once, with so many readers.
fn assert_points<R: Abort + Threads + Wait + Sync + Alloc<A = Global>>(rt: &R, readers: usize) {
    let queue = two_writers(readers).expect(rt, "a queue");
    let passes = Passes::new();
    let made = passed_twice(rt, rt.alloc(), queue, &passes);
    assert_twice(rt, rt.alloc(), &made).expect(rt, "memory");
    passes.assert_each(rt, 6);
}

#[test]
fn six_parts_pass_each_point_once(rt: HostRuntime) {
    assert_points(&rt, 1);
    assert_points(&rt, 2);
}
