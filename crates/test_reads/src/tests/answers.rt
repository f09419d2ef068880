//! What a feeder should answer.
use crate::tests::calls::{feed, finish};
use kmc_reads::{Feeder, ReadsError};
use std::process::Abort;

/// Asserts that the block is answered so.
pub(crate) fn assert_fed(
    rt: &impl Abort,
    feeder: &mut Feeder,
    block: &[u8],
    want: Result<(), ReadsError>,
) {
    let answer = feed(feeder, block);
    assert_eq!(rt; answer, want, "{block:?}");
}

/// Asserts that the refusal of the end is this one.
fn assert_refusal(rt: &impl Abort, refusal: Option<ReadsError>, want: ReadsError) {
    assert_eq!(rt; refusal, Some(want));
}

/// Asserts that the end of the text is refused so, and hands the feeder back.
pub(crate) fn assert_end_refused(
    rt: &impl Abort,
    feeder: Feeder,
    want: ReadsError,
) -> Option<Feeder> {
    match finish(feeder) {
        Ok(_) => {
            assert_refusal(rt, None, want);
            None
        }
        Err((e, same)) => {
            assert_refusal(rt, Some(e), want);
            Some(same)
        }
    }
}
