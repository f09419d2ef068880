//! What is written of the lists of all bins, whatever their widths, and how many of their pairs lie in each slot.
ghost use Rattle.std.specs.Prelude.{◌≡◌, ◌^◌, ◌<◌, ◌≤◌, length, OnOk, IfOk, IsErrOf};
ghost use Rattle.std.specs.List.{flat_map};
ghost use Rattle.std.specs.Io.KnownBytes.{Appends};
ghost use Rattle.kmc_device.specs.Device.{AppendsFront, RisesByOne};
ghost use Rattle.kmc_lists.specs.Line.{text_of};
ghost use Rattle.kmc_dump.specs.Ranges.{FitSlots, HaveSizes};
ghost use Rattle.kmc_dump.specs.Written.{IsDumped};
ghost use Rattle.kmc_lists.specs.Listed.{spelled};
ghost use Rattle.kmc_lists.specs.Lists.{lists_of};
ghost use Rattle.kmc_lists.specs.Ordered.{CanBeMerged, whole};

use crate::pair_form::{Lines, PairForm};
use crate::slots::slot_sizes;
use crate::word_size::WordSize;
use crate::write::{DumpError, write_lists};
use kmc_base::MAX_K;
use kmc_device::Counted;
use kmc_lists::{BinLists, SizedLists};
use std::alloc::{AllocError, Global};
use std::io::Write;
use std::sync::Wait;
use std::thread::Threads;

/// Writes the dump of the lists of bins, each in the words and counts that they have.
fn write_sized<R: Threads + Wait + Sync, D: Write, F: PairForm + Sync>(
    rt: &R,
    alloc: Global,
    writer: &mut Counted<D>,
    lists: &BinLists,
    form: &F,
    size: WordSize,
    threads: usize,
) -> Result<u64, DumpError>
    requires merge { CanBeMerged size.k (lists_of lists.now) }
    requires takes { F.takes form.now size.k }
    ensures { IsDumped D.contents (flat_map (F.bytes form.now) (spelled size.k (whole (lists_of lists.now))))
        (length (whole (lists_of lists.now))) writer.old writer.new result }
{
    match lists {
        BinLists::Narrow(SizedLists::U8(lists)) => write_lists(
            rt, alloc, writer, lists, form, size, threads,
        ),
        BinLists::Narrow(SizedLists::U32(lists)) => write_lists(
            rt, alloc, writer, lists, form, size, threads,
        ),
        BinLists::Narrow(SizedLists::U64(lists)) => write_lists(
            rt, alloc, writer, lists, form, size, threads,
        ),
        BinLists::Wide(SizedLists::U8(lists)) => write_lists(
            rt, alloc, writer, lists, form, size, threads,
        ),
        BinLists::Wide(SizedLists::U32(lists)) => write_lists(
            rt, alloc, writer, lists, form, size, threads,
        ),
        BinLists::Wide(SizedLists::U64(lists)) => write_lists(
            rt, alloc, writer, lists, form, size, threads,
        ),
    }
}

/// Writes the pairs of the lists of bins that share no word, each in a form: all of them in the order of the words, and
/// nothing else. The answer is the number of pairs. Ranges of words are made by so many threads, and written by the calling
/// one. All memory is had before the first write: after a refusal other than `Write` nothing was written, and after
/// `Write` a front of what was to be written.
pub fn write_pairs<R: Threads + Wait + Sync, D: Write, F: PairForm + Sync>(
    rt: &R,
    alloc: Global,
    writer: &mut Counted<D>,
    lists: &BinLists,
    form: &F,
    k: usize,
    threads: usize,
) -> Result<u64, DumpError>
    requires some { 1 ≤ k }
    requires most { k ≤ MAX_K }
    requires merge { CanBeMerged k (lists_of lists.now) }
    requires takes { F.takes form.now k }
    ensures ok { OnOk result (Appends (D.contents writer.old.inner) (D.contents writer.new.inner)
        (flat_map (F.bytes form.now) (spelled k (whole (lists_of lists.now))))) }
    ensures pairs { IfOk result (λ pairs. pairs ≡ length (whole (lists_of lists.now))) }
    ensures kept { OnOk result (writer.new.failures ≡ writer.old.failures) }
    ensures failed { IsErrOf result DumpError.Write
        → RisesByOne writer.old.failures writer.new.failures }
    ensures front { IsErrOf result DumpError.Write
        → AppendsFront (D.contents writer.old.inner) (D.contents writer.new.inner)
        (flat_map (F.bytes form.now) (spelled k (whole (lists_of lists.now)))) }
    ensures silent { IsErrOf result DumpError.Memory → writer.new ≡ writer.old }
{
    write_sized(rt, alloc, writer, lists, form, WordSize { k }, threads)
}

/// Writes the dump of the lists of bins that share no word: the lines of all their pairs in the order of the words, and
/// nothing else. The answer is the number of lines. Ranges of words are made by so many threads, and written by the calling
/// one. All memory is had before the first write: after a refusal other than `Write` nothing was written, and after
/// `Write` a front of the dump.
pub fn write_bins<R: Threads + Wait + Sync, D: Write>(
    rt: &R,
    alloc: Global,
    writer: &mut Counted<D>,
    lists: &BinLists,
    k: usize,
    threads: usize,
) -> Result<u64, DumpError>
    requires some { 1 ≤ k }
    requires most { k ≤ MAX_K }
    requires merge { CanBeMerged k (lists_of lists.now) }
    ensures ok { OnOk result (Appends (D.contents writer.old.inner) (D.contents writer.new.inner)
        (text_of (spelled k (whole (lists_of lists.now))))) }
    ensures lines { IfOk result (λ lines. lines ≡ length (whole (lists_of lists.now))) }
    ensures kept { OnOk result (writer.new.failures ≡ writer.old.failures) }
    ensures failed { IsErrOf result DumpError.Write
        → RisesByOne writer.old.failures writer.new.failures }
    ensures front { IsErrOf result DumpError.Write
        → AppendsFront (D.contents writer.old.inner) (D.contents writer.new.inner)
        (text_of (spelled k (whole (lists_of lists.now)))) }
    ensures silent { IsErrOf result DumpError.Memory → writer.new ≡ writer.old }
{
    write_pairs(rt, alloc, writer, lists, &Lines, k, threads)
}

/// How many pairs of the lists of bins lie in each slot below `slots`, where all lie, by at most so many threads. The slot of a word is
/// the word without its last `shift` bits. Where no thread can be made, the calling thread counts.
pub fn bin_sizes<R: Threads + Sync>(
    rt: &R,
    alloc: Global,
    lists: &BinLists,
    shift: u32,
    slots: usize,
    threads: usize,
) -> Result<Vec<usize>, AllocError>
    requires shift { shift < 128 }
    requires inside { FitSlots (2 ^ shift) slots (lists_of lists.now) }
    ensures { IfOk result (λ sizes. HaveSizes (2 ^ shift) slots sizes.items (lists_of lists.now)) }
{
    match lists {
        BinLists::Narrow(SizedLists::U8(lists)) => slot_sizes(
            rt, alloc, lists, shift, slots, threads,
        ),
        BinLists::Narrow(SizedLists::U32(lists)) => slot_sizes(
            rt, alloc, lists, shift, slots, threads,
        ),
        BinLists::Narrow(SizedLists::U64(lists)) => slot_sizes(
            rt, alloc, lists, shift, slots, threads,
        ),
        BinLists::Wide(SizedLists::U8(lists)) => slot_sizes(
            rt, alloc, lists, shift, slots, threads,
        ),
        BinLists::Wide(SizedLists::U32(lists)) => slot_sizes(
            rt, alloc, lists, shift, slots, threads,
        ),
        BinLists::Wide(SizedLists::U64(lists)) => slot_sizes(
            rt, alloc, lists, shift, slots, threads,
        ),
    }
}
