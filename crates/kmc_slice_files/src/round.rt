//! Bins on the writers of their slices.
ghost use Rattle.std.specs.Prelude.{◌≡◌, ◌<◌, ◌≤◌, length, map, OnOk, OnErr, IfErr};
ghost use Rattle.kmc_slice_files.specs.Writes.{AreFramed, AreBegun};
ghost use Rattle.kmc_device.specs.Device.{HasFailed};

use crate::frame::write_bin;
use kmc_device::Counted;
use std::io::Write;

/// Writes each bin to the writer of its slice, which is its number modulo that of the writers, and counts the frames. It
/// fails by the number of the first writer that fails.
pub fn write_round<W: Write>(
    writers: &mut [Counted<W>],
    counts: &mut [u64],
    bodies: &[Vec<u8>],
) -> Result<(), usize>
    requires some { 1 ≤ length writers.old }
    requires counts { length counts.old ≡ length writers.old }
    requires bins { length bodies.now < 65536 }
    ensures ok { OnOk result
        (AreFramed (length bodies.now) (length writers.old) (length bodies.now)
        (map (λ b. b.items) bodies.now) (map (λ w. W.contents w.inner) writers.old)
        (map (λ w. W.contents w.inner) writers.new) counts.old counts.new) }
    ensures kept { OnOk result (map (λ w. w.failures) writers.new
        ≡ map (λ w. w.failures) writers.old) }
    ensures failed { IfErr result (λ s. HasFailed s (map (λ w. w.failures) writers.old)
        (map (λ w. w.failures) writers.new)) }
    ensures begun { OnErr result (AreBegun (length bodies.now) (length writers.old)
        (map (λ w. W.contents w.inner) writers.old)
        (map (λ w. W.contents w.inner) writers.new)) }
{
    let slices = writers.len();
    for b in 0..bodies.len() {
        let s = b % slices;
        match write_bin(&mut writers[s], b as u16, &bodies[b]) {
            Ok(frames) => counts[s] = counts[s].saturating_add(frames),
            Err(_) => return Err(s),
        }
    }
    Ok(())
}
