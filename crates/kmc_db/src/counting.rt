//! `kmc_db count`: reads on standard input as a database in two files, with no dump between.
ghost use Rattle.std.specs.Prelude.{◌+◌, ◌^◌, ◌<◌};

use crate::first_part::first_part_asked;
use crate::making::database_files;
use kmc_device::Counted;
use kmc_options::{Named, Params, ParamsError, Program, is_file_name, rest_after, settings};
use kmc_packer::pack_reads_told;
use std::alloc::Global;
use std::io::Read;
use std::process::ExitCode;
use std::rt::Files;
use std::sync::Wait;
use std::thread::Threads;

const USAGE: &str = "usage: kmc_db count [options of kmc] [-prefix<len>] [--force] <name> < reads";

/// What the words say beside what a count is told: the database's name, the symbols of its first parts, and whether files of this name may
/// be written over.
#[derive(Drop)]
struct CountWords {
    name: String,
    first_part: Option<usize>,
    over: bool,
    /// The words that `kmc` takes.
    options: Vec<String>,
}

/// The words sorted so far, with one more. One that stands twice is not taken.
fn with_word(sorted: CountWords, word: String) -> Result<CountWords, ParamsError> {
    let mut more = sorted;
    if word.as_str() == "--force" {
        more.over = true;
    } else if let Some(text) = rest_after("-prefix", word.as_str()) {
        let asked = first_part_asked(text);
        if asked.is_none() || more.first_part.is_some() {
            return Err(ParamsError::Usage);
        }
        more.first_part = asked;
    } else if more.options.push(word).is_err() {
        return Err(ParamsError::Memory);
    }
    Ok(more)
}

/// The words, sorted: the last one is the name.
fn sorted(alloc: Global, words: Vec<String>) -> Result<CountWords, ParamsError> {
    let mut words = words;
    let Some(name) = words.pop() else {
        return Err(ParamsError::Usage);
    };
    if !is_file_name(name.as_str()) {
        return Err(ParamsError::Usage);
    }
    let mut sorted = CountWords {
        name,
        first_part: None,
        over: false,
        options: Vec::new(alloc),
    };
    for word in words {
        sorted = with_word(sorted, word)?;
    }
    Ok(sorted)
}

/// The status of words that are at fault, or for which memory was refused, which is told.
fn refused<T: Eprint>(rt: &T, error: ParamsError) -> ExitCode {
    match error {
        ParamsError::Usage => {
            let _ = rt.eprintln(USAGE);
            ExitCode::from(2)
        }
        ParamsError::OutOfRange(setting) => {
            let name = setting.name();
            let _ = eprintln!(rt; "kmc_db: value of -{name} is out of range");
            ExitCode::from(2)
        }
        ParamsError::Memory => {
            let _ = rt.eprintln("kmc_db: out of memory");
            ExitCode::from(1)
        }
    }
}

/// Makes the two files, and writes the database of the reads into them.
fn count_into<T: Threads + Wait + Sync + Files + Eprint + Alloc<A = Global>, R: Read>(
    rt: &T,
    name: &str,
    words: (&Params, Option<usize>, bool),
    reader: &mut Counted<R>,
) -> Result<ExitCode, ExitCode>
    requires reads { reader.old.reads + 2 ^ 32 < 2 ^ 64 }
{
    let (params, first_part, over) = words;
    let (mut prefix, mut suffix) = database_files(rt, name, over)?;
    Ok(pack_reads_told(
        rt,
        name,
        params,
        first_part,
        reader,
        &mut prefix,
        &mut suffix,
    ))
}

/// Counts the reads that the reader gives into a database, as these words ask. The exit status is 0 where the database was written, 2 where
/// the words are wrong, and else 1.
pub fn count_input<T: Threads + Wait + Sync + Files + Eprint + Alloc<A = Global>, R: Read>(
    rt: &T,
    words: Vec<String>,
    reader: &mut Counted<R>,
) -> ExitCode
    requires reads { reader.old.reads + 2 ^ 32 < 2 ^ 64 }
{
    let CountWords {
        name,
        first_part,
        over,
        options,
    } = match sorted(rt.alloc(), words) {
        Ok(sorted) => sorted,
        Err(error) => return refused(rt, error),
    };
    let params = match settings(rt.alloc(), Program::Kmc, options) {
        Ok(params) => params,
        Err(error) => return refused(rt, error),
    };
    match count_into(rt, name.as_str(), (&params, first_part, over), reader) {
        Ok(status) => status,
        Err(status) => status,
    }
}
