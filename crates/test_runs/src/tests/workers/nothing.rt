//! No reads at all.
use super::outcome::passed;
use super::{one_read_a_chunk, two_writers};
use kmc_partqueue::NoGate;

#[test]
fn no_reads_leave_empty_bins(rt: HostRuntime) {
    let alloc = rt.alloc();
    let plan = one_read_a_chunk().expect(&rt, "a plan");
    let queue = two_writers(2).expect(&rt, "a queue");
    let made = passed(&rt, alloc, &[], plan, queue, &NoGate);
    assert_eq!(rt; (made.totals.of(0), made.totals.of(1)), (Some(0), Some(0)));
    let bodies = made.bins.bodies();
    assert_eq!(rt; bodies.len(), 7);
    assert!(rt; bodies.iter().all(|body| body.is_empty()));
}
