//! A run: from the bytes of a reader to the spectrum on a writer.
ghost use Rattle.std.specs.Prelude.{◌≡◌, ℕ, ◌+◌, ◌^◌, ◌<◌, List, IfOk, string_bytes};
ghost use Rattle.kmc_lists.specs.Listed.{spelled};
ghost use Rattle.kmc_lists.specs.Lists.{lists_of};
ghost use Rattle.kmc_lists.specs.Ordered.{whole};
ghost use Rattle.kmc_join.specs.Histogram.{IsHistogram, rows_text};
ghost use Rattle.kmc_spectrum.specs.Spectrum.{IsSpectrumAnswer};

use crate::tallying::tally_of;
use kmc_device::Counted;
use kmc_join::laws::tally_is_histogram;
use kmc_join::{histogram_rows, put_text};
use kmc_lists::BinLists;
use kmc_options::{Params, RunError};
use kmc_reads::laws::memory_is_no_fault;
use kmc_tool::count_input;
use std::alloc::{AllocError, Global};
use std::io::{Read, Write};
use std::sync::Wait;
use std::thread::Threads;

/// The histogram of the pairs of the lists of bins, as text. It takes 8 KiB and some tens of bytes a count.
fn spectrum_text(alloc: Global, lists: &BinLists) -> Result<String, AllocError>
    ensures { IfOk result (λ text. (k : ℕ) → (rows : List (ℕ × ℕ))
        × IsHistogram (spelled k (whole (lists_of lists.now))) rows × (string_bytes text ≡ rows_text rows)) }
{
    tally_is_histogram();
    let tally = tally_of(alloc, lists)?;
    histogram_rows(alloc, tally)
}

/// Reads all that the reader gives, and writes how many k-mers of its direct count have each count, within the limits, and nothing else:
/// a line for each count that a k-mer has, the counts rising, with a tab between the count and how many k-mers have it. Nothing is
/// written before all was read and counted, so after every refusal but `Write` nothing was written; a faulty text is refused once its
/// first faulty line was read. The k-mers are counted by way of bins, and no dump is made.
pub fn spectrum<T: Threads + Wait + Sync, R: Read, W: Write>(
    rt: &T,
    alloc: Global,
    reader: &mut Counted<R>,
    writer: &mut Counted<W>,
    params: &Params,
) -> Result<(), RunError>
    requires reads { reader.old.reads + 2 ^ 32 < 2 ^ 64 }
    ensures { IsSpectrumAnswer R.remaining W.contents params.now reader.old reader.new writer.old writer.new result }
{
    memory_is_no_fault();
    let lists = count_input(rt, alloc, reader, params)?;
    let Ok(text) = spectrum_text(alloc, &lists) else {
        return Err(RunError::Memory);
    };
    match put_text(writer, &text) {
        Ok(()) => Ok(()),
        Err(_) => Err(RunError::Write),
    }
}
