//! The words of a command line by what they are.
ghost use Rattle.std.specs.Prelude.{◌≡◌, ◌≢◌, ◌∷◌, [], IfOk, MatchOption, length, map, string_bytes};
ghost use Rattle.kmc_options.specs.SliceWords.{AreSorted, joined};

use crate::prefix::is_file_name;
use crate::slices::joining::joined_words;
use crate::slices::spelling::{is_force, is_slices};
use std::alloc::{AllocError, Global};

/// Names of files, numbers of slices, and all other words, each in their order, and whether files may be written over.
#[derive(Drop)]
pub(crate) struct SortedWords {
    pub names: Vec<String>,
    pub slices: Vec<String>,
    pub others: Vec<String>,
    pub force: bool,
}

/// The words by what they are, with an option in long form and the value behind it as one word.
pub(crate) fn sorted_words(alloc: Global, words: Vec<String>) -> Result<SortedWords, AllocError>
    ensures { IfOk result (AreSorted (joined (map string_bytes words.items))) }
{
    sorted(alloc, joined_words(alloc, words)?)
}

/// The words by what they are.
fn sorted(alloc: Global, words: Vec<String>) -> Result<SortedWords, AllocError>
    ensures { IfOk result (AreSorted (map string_bytes words.items)) }
{
    let mut names = Vec::new(alloc);
    let mut slices = Vec::new(alloc);
    let mut others = Vec::new(alloc);
    let mut force = false;
    for word in words {
        if is_file_name(&word) {
            names.push(word)?;
        } else if is_slices(&word) {
            slices.push(word)?;
        } else if is_force(&word) {
            force = true;
        } else {
            others.push(word)?;
        }
    }
    Ok(SortedWords {
        names,
        slices,
        others,
        force,
    })
}

/// The word, where there is one and no other.
pub fn only(words: Vec<String>) -> Option<String>
    ensures { MatchOption result (length words.items ≢ 1)
        (λ word. map string_bytes words.items ≡ string_bytes word ∷ []) }
{
    let mut words = words;
    if words.len() != 1 {
        return None;
    }
    words.pop()
}
