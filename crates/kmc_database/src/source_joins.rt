//! Joins, tables and histograms of texts and databases, for a user, who is told of a refusal.
ghost use Rattle.std.specs.Prelude.{◌≡◌, ◌≤◌, ℕ, List, Option, length};
ghost use Rattle.std.specs.Process.{exit_status};
ghost use Rattle.kmc_join.specs.Histogram.{IsHistogramWritten};
ghost use Rattle.kmc_join.specs.State.{IsBegun, IsJoinWritten};
ghost use Rattle.kmc_join.specs.Table.{IsTableWritten};
ghost use Rattle.kmc_join.specs.Tabulation.{IsTableCause};
ghost use Rattle.kmc_join.specs.Tally.{IsHistogramCause};
ghost use Rattle.kmc_sum.specs.Answer.{IsCause};
ghost use Rattle.kmc_sum.specs.Sources.{failures_of, left_at, lefts_of};
ghost use Rattle.kmc_database.specs.DumpSource.{rest_of_source};

use crate::dump_source::DumpSource;
use crate::unpack_error::UnpackError;
use crate::unpack_message::UnpackMessage;
use kmc_count::Limits;
use kmc_device::Counted;
use kmc_join::{JoinFault, JoinRule, Message, histogram, join, table};
use kmc_options::{ended, name_at};
use kmc_sum::{SourceError, SourceFault, SumError};
use std::alloc::Global;
use std::io::{Read, Write};
use std::process::ExitCode;

/// The fault of the database at a place.
fn fault_at<T: Read + Drop, R: Read + Drop>(
    sources: Vec<Counted<DumpSource<T, R>>>,
    place: usize,
) -> Option<UnpackError> {
    let mut sources = sources;
    if place >= sources.len() {
        return None;
    }
    sources.swap_remove(place).into_inner().fault()
}

/// The name of the database that a word names, of whose files it may name the first.
fn database_named(word: &str) -> &str {
    match word.strip_suffix(".kmc_pre") {
        Some(name) => name,
        None => word,
    }
}

/// Tells why what the sources give is not joined, a database by its row or entry, and gives the exit status.
fn told<E: Eprint, T: Read + Drop, R: Read + Drop>(
    rt: &E,
    names: &[String],
    sources: Vec<Counted<DumpSource<T, R>>>,
    error: SumError,
    pipe_closed: bool,
) -> ExitCode
    ensures { exit_status result ≡ 1 }
{
    if let SumError::Source(
        SourceError {
            source,
            fault: SourceFault::Line(_, _),
        },
    ) = error
    {
        if let Some(error) = fault_at(sources, source) {
            let database = database_named(name_at(names, source));
            return ended(rt, UnpackMessage { database, error }, pipe_closed);
        }
    }
    let fault = JoinFault::Join(error);
    ended(
        rt,
        Message {
            files: names,
            fault,
        },
        pipe_closed,
    )
}

/// Reads two sources to their ends, and writes the dump of the join of what they list, within the limits. A fault is shown in one line on
/// standard error, that of a database by the row or entry, but for a write to a pipe whose other end is closed. The exit status is 0 where
/// the dump was written and no device failed, and else 1; then a front of the dump is out.
pub fn join_sources<E: Eprint + Alloc<A = Global>, T: Read + Drop, R: Read + Drop, W: Write>(
    rt: &E,
    names: &[String],
    rule: JoinRule,
    limits: &Limits,
    sources: Vec<Counted<DumpSource<T, R>>>,
    writer: &mut Counted<W>,
) -> ExitCode
    requires two { length sources.items ≡ 2 }
    ensures done { exit_status result ≡ 0 → ((nows : List (Option (List ℕ))) × (lines : ℕ)
        × IsJoinWritten rule limits.now (lefts_of (rest_of_source T.remaining R.remaining) sources.items) nows lines
        (W.contents writer.old.inner) (W.contents writer.new.inner))
        × (writer.new.failures ≡ writer.old.failures) }
    ensures failed { exit_status result ≡ 1 → (error : SumError) × (nows : List (Option (List ℕ))) × (news : List ℕ)
        × IsCause (lefts_of (rest_of_source T.remaining R.remaining) sources.items) nows
        (failures_of sources.items) news writer.old.failures writer.new.failures error
        × (k : ℕ) × IsBegun k rule limits.now (lefts_of (rest_of_source T.remaining R.remaining) sources.items) nows
        (W.contents writer.old.inner) (W.contents writer.new.inner) }
    ensures statuses { exit_status result ≤ 1 }
{
    let mut sources = sources;
    match join(rt.alloc(), sources.as_mut_slice(), rule, limits, writer) {
        Ok(_) => ExitCode::from(0),
        Err(error) => told(rt, names, sources, error, writer.is_pipe_closed()),
    }
}

/// Reads a source to its end, and writes the histogram of what it lists. A fault is shown in one line on standard error, that of a database
/// by the row or entry, but for a write to a pipe whose other end is closed. The exit status is 0 where the histogram was written and no
/// device failed, and else 1; then nothing was written, or a write failed and a front of the histogram is out.
pub fn histogram_source<E: Eprint + Alloc<A = Global>, T: Read + Drop, R: Read + Drop, W: Write>(
    rt: &E,
    names: &[String],
    sources: Vec<Counted<DumpSource<T, R>>>,
    writer: &mut Counted<W>,
) -> ExitCode
    requires one { length sources.items ≡ 1 }
    ensures done { exit_status result ≡ 0 → ((now : Option (List ℕ))
        × IsHistogramWritten (left_at (lefts_of (rest_of_source T.remaining R.remaining) sources.items) 0) now
        (W.contents writer.old.inner) (W.contents writer.new.inner))
        × (writer.new.failures ≡ writer.old.failures) }
    ensures failed { exit_status result ≡ 1 → (error : SumError) × (nows : List (Option (List ℕ))) × (news : List ℕ)
        × IsHistogramCause W.contents (lefts_of (rest_of_source T.remaining R.remaining) sources.items) nows
        (failures_of sources.items) news writer.old writer.new error }
    ensures statuses { exit_status result ≤ 1 }
{
    let mut sources = sources;
    match histogram(rt.alloc(), sources.as_mut_slice(), writer) {
        Ok(()) => ExitCode::from(0),
        Err(error) => told(rt, names, sources, error, writer.is_pipe_closed()),
    }
}

/// Reads two sources to their ends, and writes the table of the counts of what they list, up to the cap. A fault is shown in one line on
/// standard error, that of a database by the row or entry, but for a write to a pipe whose other end is closed. The exit status is 0 where
/// the table was written and no device failed, and else 1; then nothing was written, or a write failed and a front of the table is out.
pub fn table_sources<E: Eprint + Alloc<A = Global>, T: Read + Drop, R: Read + Drop, W: Write>(
    rt: &E,
    names: &[String],
    cap: u64,
    sources: Vec<Counted<DumpSource<T, R>>>,
    writer: &mut Counted<W>,
) -> ExitCode
    requires two { length sources.items ≡ 2 }
    ensures done { exit_status result ≡ 0 → ((nows : List (Option (List ℕ)))
        × IsTableWritten cap (lefts_of (rest_of_source T.remaining R.remaining) sources.items) nows
        (W.contents writer.old.inner) (W.contents writer.new.inner))
        × (writer.new.failures ≡ writer.old.failures) }
    ensures failed { exit_status result ≡ 1 → (error : SumError) × (nows : List (Option (List ℕ))) × (news : List ℕ)
        × IsTableCause W.contents cap (lefts_of (rest_of_source T.remaining R.remaining) sources.items) nows
        (failures_of sources.items) news writer.old writer.new error }
    ensures statuses { exit_status result ≤ 1 }
{
    let mut sources = sources;
    match table(rt.alloc(), sources.as_mut_slice(), cap, writer) {
        Ok(()) => ExitCode::from(0),
        Err(error) => told(rt, names, sources, error, writer.is_pipe_closed()),
    }
}
