//! Joins, tables and histograms of which an operand is a database in two files.

use crate::asking::{SourcesRequest, Wanted, sources_request};
use crate::naming::{database_named, file_of, prefix_file_named};
use kmc_base::Strands;
use kmc_database::{
    DatabaseReader, DumpSource, StrandsMessage, UnpackError, UnpackMessage, database_header,
    histogram_source, join_sources, judge_strands, table_sources,
};
use kmc_device::Counted;
use kmc_join::{INPUT, Operand};
use kmc_options::{arguments, ended};
use std::alloc::Global;
use std::fs;
use std::io::{Read, Write};
use std::process::ExitCode;
use std::rt::{Env, Files};

/// A database, or the text of a dump: a file, or standard input in its place.
type Source<F, I> = DumpSource<Operand<F, I>, F>;

/// The status of a fault of a database, which is told.
fn refused<T: Eprint>(rt: &T, database: &str, error: UnpackError) -> ExitCode {
    ended(rt, UnpackMessage { database, error }, false)
}

/// The status of a file that cannot be opened, which is told.
fn unopened<T: Eprint>(rt: &T, name: &str) -> ExitCode {
    let _ = eprintln!(rt; "kmc_db: {name}: cannot be opened");
    ExitCode::from(1)
}

/// The database of this name, of which the prefix file was opened: it is read once for its header, and opened again.
fn database<T: Files + Eprint + Alloc<A = Global>>(
    rt: &T,
    name: &str,
    first: T::File,
) -> Result<DatabaseReader<T::File>, ExitCode> {
    let mut counted = Counted::new(first);
    let found = match database_header(rt.alloc(), &mut counted) {
        Ok(found) => found,
        Err(error) => return Err(refused(rt, name, error)),
    };
    let Some(prefix) = file_of(rt, name, "kmc_pre") else {
        return Err(refused(rt, name, UnpackError::ReadPrefix));
    };
    let Some(suffix) = file_of(rt, name, "kmc_suf") else {
        let _ = eprintln!(rt; "kmc_db: {name}.kmc_suf: cannot be opened");
        return Err(ExitCode::from(1));
    };
    Ok(DatabaseReader::new(found, prefix, suffix))
}

/// What a word names: a database, a file, or standard input, which is read once.
fn source<T: Files + Eprint + Alloc<A = Global>, I: Read>(
    rt: &T,
    word: &str,
    unread: &mut Option<I>,
) -> Result<Source<T::File, I>, ExitCode> {
    if word == INPUT {
        return match unread.take() {
            Some(input) => Ok(DumpSource::Text(Operand::Input(input))),
            None => Err(unopened(rt, word)),
        };
    }
    if let Some(first) = prefix_file_named(rt, word) {
        let found = database(rt, database_named(word), first)?;
        return Ok(DumpSource::Database(found));
    }
    match fs::open(rt, word) {
        Ok(file) => Ok(DumpSource::Text(Operand::File(file))),
        Err(_) => Err(unopened(rt, word)),
    }
}

/// Readers for what the words name, in their order. Databases of unlike strands are refused.
fn sources<T: Files + Eprint + Alloc<A = Global>, I: Read + Drop>(
    rt: &T,
    files: &[String],
    input: I,
) -> Result<Vec<Counted<Source<T::File, I>>>, ExitCode> {
    let mut found = Vec::new(rt.alloc());
    let mut unread = Some(input);
    let mut before: (&str, Option<Strands>) = ("", None);
    for word in files {
        let it = source(rt, word.as_str(), &mut unread)?;
        let (first, told) = before;
        let second = word.as_str();
        if let Err(error) = judge_strands(told, it.strands()) {
            let message = StrandsMessage {
                first,
                second,
                error,
            };
            return Err(ended(rt, message, false));
        }
        before = (second, it.strands());
        if found.push(Counted::new(it)).is_err() {
            let _ = rt.eprintln("kmc_db: out of memory");
            return Err(ExitCode::from(1));
        }
    }
    Ok(found)
}

/// Whether one of the words names a database.
fn name_database<T: Files + Alloc<A = Global>>(rt: &T, files: &[String]) -> bool {
    for word in files {
        if word.as_str() != INPUT && prefix_file_named(rt, word.as_str()).is_some() {
            return true;
        }
    }
    false
}

/// Reads the sources and writes what is asked for; nothing is done where they are more or fewer than that takes. The exit status is 0
/// where it was written, and else 1.
fn written<T: Files + Eprint + Alloc<A = Global>, I: Read + Drop, W: Write>(
    rt: &T,
    asked: &SourcesRequest,
    input: I,
    writer: &mut Counted<W>,
) -> Option<ExitCode> {
    let files = asked.files.as_slice();
    let found = match sources(rt, files, input) {
        Ok(found) => found,
        Err(status) => return Some(status),
    };
    let count = found.len();
    match asked.wanted {
        Wanted::Histogram => {
            if count != 1 {
                return None;
            }
            Some(histogram_source(rt, files, found, writer))
        }
        Wanted::Table(cap) => {
            if count != 2 {
                return None;
            }
            Some(table_sources(rt, files, cap, found, writer))
        }
        Wanted::Join(rule, limits) => {
            if count != 2 {
                return None;
            }
            Some(join_sources(rt, files, rule, &limits, found, writer))
        }
    }
}

/// Does what the words of the process ask for, where it is a histogram, a table or a join and one of the dumps is a database; else nothing
/// is done. The exit status is 0 where it was written, and else 1.
pub fn join_databases<T: Files + Env + Eprint + Alloc<A = Global>, I: Read + Drop, W: Write>(
    rt: &T,
    input: I,
    writer: &mut Counted<W>,
) -> Option<ExitCode> {
    let words = arguments(rt).ok()??;
    let asked = sources_request(rt.alloc(), words)?;
    if !name_database(rt, &asked.files) {
        return None;
    }
    written(rt, &asked, input, writer)
}
