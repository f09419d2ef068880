//! The bins of a round as frames behind those of the rounds before.
ghost use Rattle.std.specs.Prelude.{◌≡◌, ℕ, ◌≤◌, List, ◌++◌, length, map, Option, OnOk, OnErr, IfErr};
ghost use Rattle.kmc_device.specs.Device.{HasFailed};
ghost use Rattle.kmc_slices.specs.Rounds.{AreRounds, AreUnended};
ghost use Rattle.kmc_stage_one.specs.Rounds.{HoldsPieces};

use kmc_device::Counted;
use kmc_slice_files::write_round;
use kmc_store::Bins;
use std::io::Write;

/// Writes the records of a round's bins, each to the writer of its slice, and counts the frames. It fails by the number of
/// the first writer that fails.
pub(crate) fn write_bins<W: Write>(
    writers: &mut [Counted<W>],
    counts: &mut [u64],
    bins: &Bins,
) -> Result<(), usize>
    requires some { 1 ≤ length writers.old }
    requires counts { length counts.old ≡ length writers.old }
    ensures ok { (limit : ℕ) (taken round : List (List ℕ)) (olds : List (Option (List ℕ)))
        → AreRounds bins.now.shape limit (length writers.old) taken olds
        (map (λ w. W.contents w.inner) writers.old) counts.old
        → HoldsPieces bins.now.shape limit round bins.now.bodies
        → OnOk result
        (AreRounds bins.now.shape limit (length writers.old) (taken ++ round) olds
        (map (λ w. W.contents w.inner) writers.new) counts.new) }
    ensures kept { OnOk result
        (map (λ w. w.failures) writers.new ≡ map (λ w. w.failures) writers.old) }
    ensures failed { IfErr result (λ s. HasFailed s (map (λ w. w.failures) writers.old)
        (map (λ w. w.failures) writers.new)) }
    ensures left { (limit : ℕ) (taken : List (List ℕ)) (olds : List (Option (List ℕ)))
        → AreRounds bins.now.shape limit (length writers.old) taken olds
        (map (λ w. W.contents w.inner) writers.old) counts.old
        → OnErr result
        (AreUnended bins.now.shape (length writers.old) olds
        (map (λ w. W.contents w.inner) writers.new)) }
{
    let n = bins.shape().n();
    prove!(n == bins.bodies().len());
    write_round(writers, counts, bins.bodies())
}
