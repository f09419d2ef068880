//! `kmc_db pack`: a dump on standard input as a database in two files.

use crate::making::database_files;
use crate::request::{PackRequest, pack_request};
use kmc_database::{PackNames, pack_reader};
use kmc_device::Counted;
use kmc_sum::LineRead;
use std::alloc::Global;
use std::process::ExitCode;
use std::rt::Files;

const USAGE: &str =
    "usage: kmc_db pack [-k<len>] [-prefix<len>] [-ci<n>] [-cx<n>] [-cs<n>] [-b] [--force] <name> < a.dump";

/// What stands in the place of a file's name where the dump is read from standard input.
const INPUT: &str = "standard input";

/// Makes the two files, and packs the dump into them.
fn pack_into<T: Files + Eprint + Alloc<A = Global>, R: LineRead>(
    rt: &T,
    request: PackRequest<'_>,
    reader: &mut Counted<R>,
) -> Result<ExitCode, ExitCode> {
    let (mut prefix, mut suffix) = database_files(rt, request.name, request.over)?;
    let names = PackNames {
        dump: INPUT,
        database: request.name,
    };
    Ok(pack_reader(
        rt,
        names,
        &request.options,
        reader,
        &mut prefix,
        &mut suffix,
    ))
}

/// Packs the dump that the reader gives, as these words ask. The exit status is 0 where the database was written, 2 where the words
/// are wrong, and else 1.
pub fn pack_input<T: Files + Eprint + Alloc<A = Global>, R: LineRead>(
    rt: &T,
    words: &[String],
    reader: &mut Counted<R>,
) -> ExitCode {
    let Some(request) = pack_request(words) else {
        let _ = rt.eprintln(USAGE);
        return ExitCode::from(2);
    };
    match pack_into(rt, request, reader) {
        Ok(status) => status,
        Err(status) => status,
    }
}
