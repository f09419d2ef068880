//! `kmc_db dump`: the dump of a database in two files, on standard output.

use kmc_database::unpack_readers;
use kmc_device::Counted;
use kmc_options::is_file_name;
use std::alloc::Global;
use std::fs;
use std::io::Write;
use std::process::ExitCode;
use std::rt::Files;

const USAGE: &str = "usage: kmc_db dump <name> > a.dump";

/// The name of a database, where the words behind `dump` are one.
fn dump_request(words: &[String]) -> Option<&str> {
    match words {
        [word] => {
            let name = word.as_str();
            if is_file_name(name) { Some(name) } else { None }
        }
        _ => None,
    }
}

/// A reader of the file of the database with this end, or the status, where that cannot be opened and was told.
fn reader_for<T: Files + Eprint + Alloc<A = Global>>(
    rt: &T,
    database: &str,
    end: &str,
) -> Result<Counted<T::File>, ExitCode> {
    let Ok(name) = format!(in rt.alloc(); "{database}.{end}") else {
        let _ = rt.eprintln("kmc_db: out of memory");
        return Err(ExitCode::from(1));
    };
    match fs::open(rt, name.as_str()) {
        Ok(file) => Ok(Counted::new(file)),
        Err(_) => {
            let _ = eprintln!(rt; "kmc_db: {name}: cannot be opened");
            Err(ExitCode::from(1))
        }
    }
}

/// Opens the two files, that of the table twice, and dumps the database.
fn dump_from<T: Files + Eprint + Alloc<A = Global>, W: Write>(
    rt: &T,
    database: &str,
    writer: &mut Counted<W>,
) -> Result<ExitCode, ExitCode> {
    let mut first = reader_for(rt, database, "kmc_pre")?;
    let mut prefix = reader_for(rt, database, "kmc_pre")?;
    let mut suffix = reader_for(rt, database, "kmc_suf")?;
    Ok(unpack_readers(rt, database, &mut first, &mut prefix, &mut suffix, writer))
}

/// Dumps the database that these words name. The exit status is 0 where its dump was written, 2 where the words are wrong, and else 1.
pub fn dump_files<T: Files + Eprint + Alloc<A = Global>, W: Write>(
    rt: &T,
    words: &[String],
    writer: &mut Counted<W>,
) -> ExitCode {
    let Some(database) = dump_request(words) else {
        let _ = rt.eprintln(USAGE);
        return ExitCode::from(2);
    };
    match dump_from(rt, database, writer) {
        Ok(status) => status,
        Err(status) => status,
    }
}
