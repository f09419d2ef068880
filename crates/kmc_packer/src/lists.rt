//! Lists of bins as a database.
ghost use Rattle.kmc_lists.specs.Listed.{spelled};
ghost use Rattle.kmc_lists.specs.Lists.{lists_of};
ghost use Rattle.kmc_lists.specs.Ordered.{CanBeMerged, whole};
ghost use Rattle.kmc_sum.specs.Listed.{AreListed};
ghost use Rattle.kmc_database.specs.Layout.{IsLayout};
ghost use Rattle.kmc_packer.specs.Lists.{IsPackListsAnswer};

use crate::counts::bins_have_great;
use crate::lists_error::PackListsError;
use crate::suffix::write_suffix;
use crate::table::write_prefix;
use kmc_database::{Form, Layout};
use kmc_device::Counted;
use kmc_dump::{DumpError, bin_sizes};
use kmc_lists::BinLists;
use std::alloc::Global;
use std::io::Write;
use std::sync::Wait;
use std::thread::Threads;

/// First parts of at most so many symbols are counted in several threads, each of which has numbers of its own: 8 MiB.
const SHARED_PREFIX: usize = 10;

/// How many threads count the pairs of each first part: one where a first part is so long that a thread's numbers take much memory.
fn part_counters(layout: &Layout, threads: usize) -> usize {
    if layout.prefix <= SHARED_PREFIX {
        threads
    } else {
        1
    }
}

/// Writes lists of bins that share no word as a database: their pairs in the order of the words as rows to `suffix`, and the table that
/// leads to them, with a header, to `prefix`, and says how many rows. Ranges of words are made by so many threads, and written by the
/// calling one. The suffix file is written first and the header last, so that files that were given up are no database. Where a count is
/// too great nothing is written; where memory is refused, at most the first marker of the suffix file. The table takes eight bytes for
/// each first part, and for each thread where first parts have at most 10 symbols.
pub fn pack_lists<T: Threads + Wait + Sync, W: Write>(
    rt: &T,
    alloc: Global,
    lists: &BinLists,
    form: &Form,
    prefix: &mut Counted<W>,
    suffix: &mut Counted<W>,
    threads: usize,
) -> Result<u64, PackListsError>
    requires layout { IsLayout form.now.layout }
    requires merge { CanBeMerged form.now.layout.k (lists_of lists.now) }
    requires listed { AreListed form.now.layout.k
        (spelled form.now.layout.k (whole (lists_of lists.now))) }
    ensures { IsPackListsAnswer W.contents form.now
        (spelled form.now.layout.k (whole (lists_of lists.now)))
        (record { prefix = prefix.old; suffix = suffix.old })
        (record { prefix = prefix.new; suffix = suffix.new }) result }
{
    let layout = form.layout;
    if bins_have_great(lists, &layout) {
        return Err(PackListsError::TooGreat);
    }
    let shift = (2 * (layout.k - layout.prefix)) as u32;
    let parts = 1 << (2 * layout.prefix);
    let counters = part_counters(&layout, threads);
    let Ok(sizes) = bin_sizes(rt, alloc, lists, shift, parts, counters) else {
        return Err(PackListsError::Memory);
    };
    let rows = match write_suffix(rt, alloc, suffix, lists, &layout, threads) {
        Ok(rows) => rows,
        Err(DumpError::Memory) => return Err(PackListsError::Memory),
        Err(DumpError::Write) => return Err(PackListsError::WriteSuffix),
    };
    match write_prefix(prefix, form, &sizes, rows) {
        Ok(()) => Ok(rows),
        Err(_) => Err(PackListsError::WritePrefix),
    }
}
