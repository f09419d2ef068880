//! Reads counted into a database for a user, who is told of a refusal.
ghost use Rattle.std.specs.Prelude.{◌≡◌, ◌+◌, ◌^◌, ◌<◌, ◌≤◌, ℕ};
ghost use Rattle.std.specs.Process.{exit_status};
ghost use Rattle.kmc_packer.specs.Reads.{IsPackedReads, IsPackReadsCause};

use crate::error::PackReadsError;
use crate::message::PackReadsMessage;
use crate::reads::pack_reads;
use kmc_device::Counted;
use kmc_options::{Params, ended};
use std::alloc::Global;
use std::io::{Read, Write};
use std::process::ExitCode;
use std::sync::Wait;
use std::thread::Threads;

/// Counts reads into a database as [`pack_reads`] does. A refusal is shown in one line on standard error. The exit status is 0 where the
/// database was written and no device failed, and else 1; then the files are as they were, a front of the suffix file is out, or that file
/// whole and a front of the prefix file.
pub fn pack_reads_told<T: Threads + Wait + Sync + Eprint + Alloc<A = Global>, R: Read, W: Write>(
    rt: &T,
    database: &str,
    params: &Params,
    first_part: Option<usize>,
    reader: &mut Counted<R>,
    prefix: &mut Counted<W>,
    suffix: &mut Counted<W>,
) -> ExitCode
    requires reads { reader.old.reads + 2 ^ 32 < 2 ^ 64 }
    ensures done { exit_status result ≡ 0
        → ((rows : ℕ) × IsPackedReads params.now first_part (R.remaining reader.old.inner)
        (R.remaining reader.new.inner) rows (W.contents prefix.old.inner)
        (W.contents prefix.new.inner) (W.contents suffix.old.inner) (W.contents suffix.new.inner))
        × (reader.new.failures ≡ reader.old.failures)
        × (prefix.new.failures ≡ prefix.old.failures)
        × (suffix.new.failures ≡ suffix.old.failures) }
    ensures failed { exit_status result ≡ 1
        → (error : PackReadsError) × IsPackReadsCause R.remaining W.contents params.now first_part
        reader.old reader.new prefix.old prefix.new suffix.old suffix.new error }
    ensures statuses { exit_status result ≤ 1 }
{
    match pack_reads(rt, rt.alloc(), params, first_part, reader, prefix, suffix) {
        Ok(_) => ExitCode::from(0),
        Err(error) => ended(rt, PackReadsMessage { database, error }, false),
    }
}
