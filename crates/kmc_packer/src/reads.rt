//! A run: from the bytes of a reader to the two files of a database.
ghost use Rattle.std.specs.Prelude.{◌≡◌, ◌+◌, ◌^◌, ◌<◌, MatchOption};
ghost use Rattle.kmc_database.specs.Layout.{IsLayout};
ghost use Rattle.kmc_packer.specs.Form.{counted_form};
ghost use Rattle.kmc_packer.specs.Reads.{IsPackReadsAnswer};

use crate::error::PackReadsError;
use crate::lists::pack_lists;
use kmc_database::{Form, counter_bytes, layout_for};
use kmc_device::Counted;
use kmc_options::{Params, RunError};
use kmc_reads::laws::memory_is_no_fault;
use kmc_tool::count_input;
use std::alloc::Global;
use std::io::{Read, Write};
use std::sync::Wait;
use std::thread::Threads;

/// The form of the database of a count, where words of so many symbols have such a first part.
fn form_for(params: &Params, first_part: Option<usize>) -> Option<Form>
    ensures { MatchOption result (¬ (IsLayout (counted_form params.now first_part).layout))
        (λ f. (f ≡ counted_form params.now first_part) × IsLayout f.layout) }
{
    let limits = params.limits;
    let layout = layout_for(params.k, first_part, counter_bytes(limits.cs, limits.cx))?;
    Some(Form {
        layout,
        least: limits.ci.min(u64::from(u32::MAX)) as u32,
        greatest: limits.cx,
        strands: params.strands,
    })
}

/// Reads all that the reader gives, counts its reads, and writes the database of the words that occur as often as the limits ask, in KMC
/// 1's sorted form: a row for each to `suffix`, then a table of first parts and a header to `prefix`; says how many rows. A first part has
/// `first_part` symbols or the usual number. No text of a dump is made. Nothing is written before all was read and counted, and after
/// every refusal but `WritePrefix`, `WriteSuffix` and `Memory` nothing was written. The header is written last, so that files that were
/// given up are no database.
pub fn pack_reads<T: Threads + Wait + Sync, R: Read, W: Write>(
    rt: &T,
    alloc: Global,
    params: &Params,
    first_part: Option<usize>,
    reader: &mut Counted<R>,
    prefix: &mut Counted<W>,
    suffix: &mut Counted<W>,
) -> Result<u64, PackReadsError>
    requires reads { reader.old.reads + 2 ^ 32 < 2 ^ 64 }
    ensures { IsPackReadsAnswer R.remaining W.contents params.now first_part reader.old reader.new
        prefix.old prefix.new suffix.old suffix.new result }
{
    memory_is_no_fault();
    let Some(form) = form_for(params, first_part) else {
        return Err(PackReadsError::Prefix(params.k));
    };
    let lists = match count_input(rt, alloc, reader, params) {
        Ok(lists) => lists,
        Err(error) => return Err(PackReadsError::Count(RunError::from(error))),
    };
    match pack_lists(rt, alloc, &lists, &form, prefix, suffix, params.counters) {
        Ok(rows) => Ok(rows),
        Err(error) => Err(PackReadsError::from(error)),
    }
}
