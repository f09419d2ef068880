//! Settings over FASTQ.
use kmc_count::Limits;
use kmc_options::Params;
use kmc_reads::Format;
use std::process::Abort;

pub const BILLION: u64 = 1_000_000_000;

/// The settings of these sizes within these limits, which must be in range.
pub fn sized(
    rt: &impl Abort,
    k: usize,
    p: usize,
    n: usize,
    sp: usize,
    sr: usize,
    limits: Option<Limits>,
) -> Params {
    let limits = limits.expect(rt, "limits in range");
    Params::new(Format::Fastq, k, p, n, sp, sr, limits).expect(rt, "settings in range")
}

/// The usual settings for words of k symbols within these limits.
pub fn settings(rt: &impl Abort, k: usize, ci: u64, cx: u64, cs: u64) -> Params {
    sized(rt, k, 9, 512, 2, 2, Limits::new(ci, cx, cs))
}
