//! The settings of the tests.
use kmc_count::Limits;
use kmc_options::Params;
use kmc_reads::Format;
use std::process::Abort;

/// Settings for words of k symbols, all of them listed, 7 bins, so many splitters and so many reads a round for each.
pub(crate) fn settings(
    rt: &impl Abort,
    format: Format,
    k: usize,
    sp: usize,
    batch: usize,
) -> Params {
    let limits = Limits::new(1, 100_000, 100_000).expect(rt, "limits");
    let params = Params::new(format, k, 5, 7, sp, 2, limits).expect(rt, "settings");
    params.with_queue(1, 8, batch).expect(rt, "a queue")
}
