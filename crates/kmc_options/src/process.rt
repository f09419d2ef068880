//! The words of a process's command line.
ghost use Rattle.std.specs.Prelude.{◌≡◌, map, string_bytes};
ghost use Rattle.kmc_options.specs.Words.{name_at};

use std::alloc::{AllocError, Global};
use std::env::{self, Args};
use std::io::ErrorKind;
use std::rt::Env;

/// The process's arguments behind the program's name, or `None` where one is no text; want of memory is told as such.
pub fn arguments<T: Env + Alloc<A = Global>>(rt: &T) -> Result<Option<Vec<String>>, AllocError> {
    match env::args(rt) {
        Ok(arguments) => Ok(Some(behind_first(rt.alloc(), arguments)?)),
        Err(error) => match error.kind() {
            ErrorKind::OutOfMemory => Err(AllocError),
            _ => Ok(None),
        },
    }
}

/// The words behind the first.
fn behind_first(alloc: Global, mut words: Args) -> Result<Vec<String>, AllocError> {
    let _first = words.next();
    words.collect(alloc)
}

/// The name of a file, as it was given; nothing where there is none.
pub fn name_at(files: &[String], i: usize) -> &str
    ensures { result.now ≡ name_at (map string_bytes files.now) i }
{
    match files.get(i) {
        Some(name) => name.as_str(),
        None => "",
    }
}
