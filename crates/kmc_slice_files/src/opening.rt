//! The files of slices, made to be written.
ghost use Rattle.std.specs.Prelude.{◌≡◌, ℕ, length, map, slice_index, MatchResult};
ghost use Rattle.kmc_slice_files.specs.Opening.{IsCreateFault};

use kmc_device::Counted;
use std::alloc::Global;
use std::fs::File;
use std::rt::Files;
use std::{fs, io};
use thiserror::Error;

/// Why the files were not made.
#[derive(Clone, Copy, Debug, PartialEq, Eq, Error)]
pub enum CreateFault {
    /// This one cannot be made.
    #[error("file {0} cannot be made")]
    File(usize),
    /// A growth was refused.
    #[error("out of memory")]
    Memory,
}

impl CreateFault {
    ghost use Rattle.kmc_slice_files.specs.RefusalNumbers.{number_of_create_fault};

    /// The number of the refusal, as docs/REFUSALS.md lists it.
    pub fn number(&self) -> u8
        ensures { result ≡ number_of_create_fault self.now }
    {
        match self {
            CreateFault::File(_) => 1,
            CreateFault::Memory => 2,
        }
    }
}

/// A file that is there is emptied, or else none may be there.
fn made<T: Files>(rt: &T, name: &str, over: bool) -> io::Result<T::File> {
    if over {
        fs::create(rt, name)
    } else {
        File::create_new(rt, name)
    }
}

/// A writer for each slice, to the file with the slice's number behind the prefix and a dot. Where files may be written over, what
/// stood in them is gone; else none of them may be there. Where one cannot be made, those before it are empty files.
pub fn create_files<T: Files + Alloc<A = Global>>(
    rt: &T,
    prefix: &str,
    slices: usize,
    over: bool,
) -> Result<Vec<Counted<T::File>>, CreateFault>
    ensures { MatchResult result
        (λ writers. (length writers.items ≡ slices)
        × ((s : ℕ) → slice_index (map (λ w. w.failures) writers.items) s ≡ 0))
        (IsCreateFault slices) }
{
    let mut writers = Vec::new(rt.alloc());
    for s in 0..slices {
        let Ok(name) = format!(in rt.alloc(); "{prefix}.{s}") else {
            return Err(CreateFault::Memory);
        };
        let Ok(file) = made(rt, name.as_str(), over) else {
            return Err(CreateFault::File(s));
        };
        match writers.push(Counted::new(file)) {
            Ok(()) => {}
            Err(_) => return Err(CreateFault::Memory),
        }
    }
    Ok(writers)
}
