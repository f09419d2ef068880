//! The two files of a database that is to be written.
ghost use Rattle.std.specs.Prelude.{◌≡◌, IfOk};

use kmc_device::Counted;
use std::alloc::Global;
use std::fs::File;
use std::process::ExitCode;
use std::rt::Files;
use std::{fs, io};

/// A file that is there is emptied, or else none may be there.
fn made<T: Files>(rt: &T, name: &str, over: bool) -> io::Result<T::File> {
    if over {
        fs::create(rt, name)
    } else {
        File::create_new(rt, name)
    }
}

/// A writer for the file of the database with this end, or the status, where that cannot be made and was told.
fn writer_for<T: Files + Eprint + Alloc<A = Global>>(
    rt: &T,
    database: &str,
    end: &str,
    over: bool,
) -> Result<Counted<T::File>, ExitCode>
    ensures { IfOk result (λ writer. writer.failures ≡ 0) }
{
    let Ok(name) = format!(in rt.alloc(); "{database}.{end}") else {
        let _ = rt.eprintln("kmc_db: out of memory");
        return Err(ExitCode::from(1));
    };
    match made(rt, name.as_str(), over) {
        Ok(file) => Ok(Counted::new(file)),
        Err(_) => {
            let _ = eprintln!(rt; "kmc_db: {name}: cannot be made");
            Err(ExitCode::from(1))
        }
    }
}

/// Writers for the two files of a database, which are made, or emptied where they are there and may be written over. The status, where one
/// cannot be made, which is told; where that is the second, the first is an empty file.
pub fn database_files<T: Files + Eprint + Alloc<A = Global>>(
    rt: &T,
    database: &str,
    over: bool,
) -> Result<(Counted<T::File>, Counted<T::File>), ExitCode> {
    let prefix = writer_for(rt, database, "kmc_pre", over)?;
    let suffix = writer_for(rt, database, "kmc_suf", over)?;
    Ok((prefix, suffix))
}
