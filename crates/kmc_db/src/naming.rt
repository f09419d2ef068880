//! Words that name a database: the name itself, or that of its first file.

use std::alloc::Global;
use std::fs;
use std::rt::Files;

/// The name of the database of whose files a word names the first, or which it names itself.
pub fn database_named(word: &str) -> &str {
    match word.strip_suffix(".kmc_pre") {
        Some(name) => name,
        None => word,
    }
}

/// The file of the database with this end, where it can be opened.
pub fn file_of<T: Files + Alloc<A = Global>>(rt: &T, database: &str, end: &str) -> Option<T::File> {
    let name = format!(in rt.alloc(); "{database}.{end}").ok()?;
    fs::open(rt, name.as_str()).ok()
}

/// The prefix file of the database that a word names: it can be opened, and the word is that of the file, or no file has the very name.
pub fn prefix_file_named<T: Files + Alloc<A = Global>>(rt: &T, word: &str) -> Option<T::File> {
    let name = database_named(word);
    let file = file_of(rt, name, "kmc_pre")?;
    // looked for behind the prefix file, since who opens a pipe by its name takes its writer away
    if name.len() == word.len() && fs::open(rt, word).is_ok() {
        return None;
    }
    Some(file)
}
