//! A database unpacked for a user, who is told of a refusal.
ghost use Rattle.std.specs.Prelude.{◌≡◌, ◌≤◌, ◌⊎◌, ℕ};
ghost use Rattle.std.specs.Process.{exit_status};
ghost use Rattle.kmc_database.specs.Given.{IsUnpackBegun};
ghost use Rattle.kmc_database.specs.UnpackAnswer.{IsUnpackCause, starts_of, unpack_failures};
ghost use Rattle.kmc_database.specs.Unpacked.{IsUnpacked};

use crate::unpack_error::UnpackError;
use crate::unpack_message::UnpackMessage;
use crate::unpacking::unpack;
use kmc_device::Counted;
use kmc_options::ended;
use std::alloc::Global;
use std::io::{Read, Write};
use std::process::ExitCode;

/// Unpacks a database as [`unpack`] does. A refusal is shown in one line on standard error, with the database's name, but for a write to a
/// pipe whose other end is closed. The exit status is 0 where the dump was written and no device failed, and else 1; then the writer is
/// as it was, or a front of the dump is out.
pub fn unpack_readers<T: Eprint + Alloc<A = Global>, R: Read, W: Write>(
    rt: &T,
    database: &str,
    first: &mut Counted<R>,
    prefix: &mut Counted<R>,
    suffix: &mut Counted<R>,
    writer: &mut Counted<W>,
) -> ExitCode
    ensures done { exit_status result ≡ 0 → let s = starts_of R.remaining W.contents prefix.old
        suffix.old writer.old in ((rows : ℕ) × IsUnpacked (R.remaining first.old.inner)
        (R.remaining first.new.inner) s (R.remaining prefix.new.inner)
        (R.remaining suffix.new.inner) (W.contents writer.new.inner) rows)
        × (unpack_failures first.new.failures prefix.new suffix.new writer.new
        ≡ unpack_failures first.old.failures prefix.old suffix.old writer.old) }
    ensures failed { exit_status result ≡ 1 → let s = starts_of R.remaining W.contents prefix.old
        suffix.old writer.old in ((error : UnpackError) × IsUnpackCause R.remaining W.contents
        first.old first.new prefix.old prefix.new suffix.old suffix.new writer.old writer.new error)
        × ((writer.new ≡ writer.old) ⊎ IsUnpackBegun s (R.remaining prefix.new.inner)
        (R.remaining suffix.new.inner) (W.contents writer.new.inner)) }
    ensures statuses { exit_status result ≤ 1 }
{
    match unpack(rt.alloc(), first, prefix, suffix, writer) {
        Ok(_) => ExitCode::from(0),
        Err(error) => {
            let message = UnpackMessage { database, error };
            ended(rt, message, writer.is_pipe_closed())
        }
    }
}
