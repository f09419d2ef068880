//! The dump of lists that share no word, on a device.
ghost use Rattle.std.specs.Prelude.{◌≡◌, ◌^◌, ◌≤◌, length, OnErr, IfOk};
ghost use Rattle.std.specs.List.{flat_map};
ghost use Rattle.kmc_lists.specs.Listed.{spelled};
ghost use Rattle.kmc_lists.specs.Ordered.{CanBeMerged, joined, packs, whole};
ghost use Rattle.kmc_dump.specs.Written.{IsDumped};
ghost use Rattle.kmc_dump.specs.declared.write.DumpError.TheVariants.{Memory};

use crate::buffers::make_buffer;
use crate::desk::Desk;
use crate::filling::Filling;
use crate::lane::make_lanes;
use crate::output::write_ranges;
use crate::pair_form::PairForm;
use crate::parting::part_words;
use crate::word_size::WordSize;
use kmc_base::PackedKmer;
use kmc_device::Counted;
use kmc_lists::{CountWidth, KmerList};
use std::alloc::{AllocError, Global};
use std::io::Write;
use std::sync::Wait;
use std::thread::Threads;
use thiserror::Error;

/// Why a dump was given up.
#[derive(Clone, Copy, Debug, PartialEq, Eq, Error)]
pub enum DumpError {
    /// A growth was refused. Nothing was written.
    #[error("out of memory")]
    Memory,
    /// A write or the flush failed, or a write took nothing of what was left. What went out before is the front of the
    /// dump.
    #[error("write failed")]
    Write,
}

impl DumpError {
    ghost use Rattle.kmc_dump.specs.RefusalNumbers.{number_of_dump_error};

    /// The number of the refusal, as docs/REFUSALS.md lists it.
    pub fn number(&self) -> u8
        ensures { result ≡ number_of_dump_error self.now }
    {
        match self {
            DumpError::Memory => 1,
            DumpError::Write => 3,
        }
    }
}

impl From<AllocError> for DumpError {
    ghost from_gives = { λ _ e. e ≡ Memory };

    fn from(_: AllocError) -> DumpError {
        DumpError::Memory
    }
}

/// How many pairs the lists have. It fails only where there are more than a number tells, which no memory could hold.
fn count_pairs<W: PackedKmer + Drop, C: CountWidth + Drop>(
    lists: &[KmerList<W, C>],
) -> Result<usize, AllocError>
    ensures total { IfOk result (λ total. total ≡ length (joined (packs lists.now))) }
    ensures most { OnErr result (2 ^ 64 ≤ length (joined (packs lists.now))) }
{
    let mut total: usize = 0;
    for list in lists {
        let Some(more) = total.checked_add(list.len()) else {
            return Err(AllocError);
        };
        total = more;
    }
    Ok(total)
}

/// How many lanes serve so many ranges, one for each thread beside the one that writes, and how many buffers each has. One thread alone
/// needs none.
fn lanes_of(threads: usize, ranges: usize) -> (usize, usize) {
    if threads <= 1 {
        return (0, 0);
    }
    let lanes = threads.min(ranges);
    (lanes, if ranges > lanes { 2 } else { 1 })
}

/// Writes the dump of lists that share no word: all their pairs in a form, in the order of the words, and nothing else.
/// The answer is the number of pairs. Ranges of words are gathered and sorted by so many threads, while the calling thread writes those
/// before; no list of all pairs is made. One thread does all in turn. All memory is had before the first write: after a refusal other
/// than `Write` nothing was written, and after `Write` a front of the dump.
pub(crate) fn write_lists<
    R: Threads + Wait + Sync,
    D: Write,
    W: PackedKmer + Drop + Send + Sync,
    C: CountWidth + Drop + Send + Sync,
    F: PairForm + Sync,
>(
    rt: &R,
    alloc: Global,
    writer: &mut Counted<D>,
    lists: &[KmerList<W, C>],
    form: &F,
    size: WordSize,
    threads: usize,
) -> Result<u64, DumpError>
    requires merge { CanBeMerged size.k lists.now }
    requires takes { F.takes form.now size.k }
    ensures { IsDumped D.contents (flat_map (F.bytes form.now) (spelled size.k (whole lists.now))) (length (whole lists.now))
        writer.old writer.new result }
{
    let total = count_pairs(lists)?;
    let ranges = part_words(rt, alloc, lists, size, total, threads)?;
    let (lanes, each) = lanes_of(threads, ranges.bounds.len().saturating_sub(1));
    let line = form.room(size.k, C::digits());
    let mut own = make_buffer(alloc, ranges.widest, line)?;
    let (mut fillers, mut trays) = make_lanes(alloc, lanes, each, ranges.widest, line)?;
    let desk = Desk::new(alloc, lanes)?;
    let filling = Filling {
        rt,
        lists,
        form,
        ranges: &ranges,
        desk: &desk,
    };
    match write_ranges(writer, &filling, &mut fillers, &mut trays, &mut own) {
        Ok(()) => Ok(total as u64),
        Err(_) => Err(DumpError::Write),
    }
}
