//! The files of one slice, opened one after the other.
ghost use Rattle.std.specs.Prelude.{◌≡◌, ◌≤◌, ◌<◌, ◌∷◌, ◌++◌, [], ℕ, List, Option, Some, length, IfOk, IfErr, OnOk};
ghost use Rattle.kmc_slices.specs.Gathered.{AreGathered};
ghost use Rattle.kmc_slices.specs.ListProgram.{AreOpened, IsOfFiles, IsOfFirst, IsOfNext, of_files, opened_by};

use crate::gathering::{GatherError, SliceRecords};
use crate::listing::ListError;
use crate::programs::list_fault::ListFault;
use kmc_device::Counted;
use std::alloc::Global;
use std::fs;
use std::io::Read;
use std::rt::Files;

/// A reader of the file of this number; none where there is none or it cannot be opened.
pub(crate) fn opened<T: Files>(rt: &T, files: &[String], i: usize) -> Option<Counted<T::File>> {
    let name = files.get(i)?;
    match fs::open(rt, name.as_str()) {
        Ok(file) => Some(Counted::new(file)),
        Err(_) => None,
    }
}

/// The records of the slice of which the first reader tells.
fn first_records<R: Read + Drop, F: Fn(usize) -> Option<Counted<R>>>(
    alloc: Global,
    opener: &F,
) -> Result<SliceRecords, ListFault>
    requires { F.IsAlwaysCallable opener.now }
    ensures ok { IfOk result (λ records. (old new : Option (List ℕ))
        × opened_by R.remaining (F.post opener.now) 0 (Some old) × AreGathered ((old, new) ∷ []) records) }
    ensures fault { IfErr result (IsOfFirst (opened_by R.remaining (F.post opener.now))) }
{
    let Some(mut reader) = opener(0) else {
        return Err(ListFault::NotOpened(0));
    };
    match SliceRecords::begin(alloc, &mut reader) {
        Ok(records) => Ok(records),
        Err(GatherError::Memory) => Err(ListFault::Dump(ListError::Memory)),
        Err(GatherError::File(fault)) => Err(ListFault::File(0, fault)),
    }
}

/// The records of another reader, behind those of the readers before it.
fn add_records<R: Read + Drop, F: Fn(usize) -> Option<Counted<R>>>(
    opener: &F,
    i: usize,
    records: &mut SliceRecords,
) -> Result<(), ListFault>
    requires { F.IsAlwaysCallable opener.now }
    ensures ok { (readings : List (Option (List ℕ) × Option (List ℕ))) → AreGathered readings records.old
        → OnOk result ((old new : Option (List ℕ)) × opened_by R.remaining (F.post opener.now) i (Some old)
        × AreGathered (readings ++ (old, new) ∷ []) records.new) }
    ensures fault { IfErr result (IsOfNext (opened_by R.remaining (F.post opener.now)) i records.old) }
{
    let Some(mut reader) = opener(i) else {
        return Err(ListFault::NotOpened(i));
    };
    match records.add(&mut reader) {
        Ok(()) => Ok(()),
        Err(fault) => Err(ListFault::File(i, fault)),
    }
}

/// The records of one slice, from so many readers, which `opener` opens by their numbers from 0 on. They are opened, read to their ends
/// and closed one after the other. The fault is that of the first reader that has one.
pub fn gather_readers<R: Read + Drop, F: Fn(usize) -> Option<Counted<R>>>(
    alloc: Global,
    count: usize,
    opener: &F,
) -> Result<SliceRecords, ListFault>
    requires some { 1 ≤ count }
    requires opener { F.IsAlwaysCallable opener.now }
    ensures ok { IfOk result (λ records. (readings : List (Option (List ℕ) × Option (List ℕ))) × (length readings ≡ count)
        × AreOpened (opened_by R.remaining (F.post opener.now)) readings × AreGathered readings records) }
    ensures fault { IfErr result (IsOfFiles (opened_by R.remaining (F.post opener.now)) count) }
{
    let mut records = first_records(alloc, opener)?;
    for i in 1..count {
        add_records(opener, i, &mut records)?;
    }
    Ok(records)
}
