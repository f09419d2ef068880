//! A dump packed for a user, who is told of a refusal.
ghost use Rattle.std.specs.Prelude.{◌≡◌, ◌≤◌, ◌⊎◌, ℕ};
ghost use Rattle.std.specs.Process.{exit_status};
ghost use Rattle.kmc_database.specs.Answer.{failures_of, IsCause, IsPacked};
ghost use Rattle.kmc_database.specs.Begun.{IsBegun};

use crate::error::PackError;
use crate::form::PackOptions;
use crate::message::PackMessage;
use crate::packing::pack;
use kmc_device::Counted;
use kmc_options::ended;
use kmc_sum::LineRead;
use std::alloc::Global;
use std::io::Write;
use std::process::ExitCode;

/// The names of a dump and of a database, as they were given.
#[derive(Clone, Copy)]
pub struct PackNames<'a> {
    pub dump: &'a str,
    pub database: &'a str,
}

/// Packs a dump as [`pack`] does. A refusal is shown in one line on standard error. The exit status is 0 where the database was written
/// and no device failed, and else 1; then the files are as they were, or a front of each is out.
pub fn pack_reader<T: Eprint + Alloc<A = Global>, R: LineRead, W: Write>(
    rt: &T,
    names: PackNames<'_>,
    options: &PackOptions,
    reader: &mut Counted<R>,
    prefix: &mut Counted<W>,
    suffix: &mut Counted<W>,
) -> ExitCode
    ensures done { exit_status result ≡ 0
        → ((rows : ℕ) × IsPacked options.now (R.remaining reader.old.inner)
        (R.remaining reader.new.inner) rows (W.contents prefix.old.inner)
        (W.contents prefix.new.inner) (W.contents suffix.old.inner) (W.contents suffix.new.inner))
        × (failures_of reader.new prefix.new suffix.new
        ≡ failures_of reader.old prefix.old suffix.old) }
    ensures failed { exit_status result ≡ 1
        → (error : PackError) × IsCause options.now (R.remaining reader.old.inner)
        (R.remaining reader.new.inner) (failures_of reader.old prefix.old suffix.old)
        (failures_of reader.new prefix.new suffix.new) error
        × (((prefix.new ≡ prefix.old) × (suffix.new ≡ suffix.old))
        ⊎ IsBegun options.now (R.remaining reader.old.inner) (R.remaining reader.new.inner)
        (W.contents prefix.old.inner) (W.contents prefix.new.inner)
        (W.contents suffix.old.inner) (W.contents suffix.new.inner) error) }
    ensures statuses { exit_status result ≤ 1 }
{
    match pack(rt.alloc(), options, reader, prefix, suffix) {
        Ok(_) => ExitCode::from(0),
        Err(error) => {
            let PackNames { dump, database } = names;
            let message = PackMessage {
                dump,
                database,
                error,
            };
            ended(rt, message, false)
        }
    }
}
