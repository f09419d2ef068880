//! `kmc_db query` of a database in two files: words on standard input with their counts, on standard output.

use crate::naming::{database_named, file_of, prefix_file_named};
use kmc_base::Strands;
use kmc_database::{Sought, query_places};
use kmc_device::Counted;
use kmc_join::query_strands;
use std::alloc::Global;
use std::io::{Read, Write};
use std::process::ExitCode;
use std::rt::Files;

/// Queries the database that these words name, where they ask for a query and name one whose prefix file can be opened, or that file, and
/// no file has the very name; else nothing is done. The exit status is 0 where the counts were written, and else 1.
pub fn query_files<T: Files + Eprint + Alloc<A = Global>, I: Read + Drop, W: Write>(
    rt: &T,
    words: &[String],
    input: I,
    writer: &mut Counted<W>,
) -> Option<ExitCode> {
    let strands = query_strands(words)?;
    let word = words.last()?.as_str();
    let name = database_named(word);
    let mut prefix = Sought::new(prefix_file_named(rt, word)?);
    let Some(file) = file_of(rt, name, "kmc_suf") else {
        let _ = eprintln!(rt; "kmc_db: {name}.kmc_suf: cannot be opened");
        return Some(ExitCode::from(1));
    };
    let mut suffix = Sought::new(file);
    let mut asked = Counted::new(input);
    let apart = strands == Strands::Apart;
    Some(query_places(
        rt,
        name,
        apart,
        &mut prefix,
        &mut suffix,
        &mut asked,
        writer,
    ))
}
