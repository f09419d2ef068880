//! What the words behind `pack` ask for.

use crate::first_part::first_part_asked;
use kmc_base::Strands;
use kmc_database::{PackOptions, counter_bytes};
use kmc_options::{Setting, is_file_name, rest_after};

/// What a database is asked to be like, its name, and whether files of this name may be written over.
#[derive(Clone, Copy)]
pub struct PackRequest<'a> {
    pub options: PackOptions,
    pub name: &'a str,
    pub over: bool,
}

/// The words, sorted by what they say; none of them twice.
#[derive(Clone, Copy)]
struct PackWords<'a> {
    k: Option<u64>,
    prefix: Option<usize>,
    least: Option<u64>,
    greatest: Option<u64>,
    cap: Option<u64>,
    apart: bool,
    over: bool,
    name: Option<&'a str>,
}

/// A number for a setting that was given none before.
fn once(before: Option<u64>, setting: Setting, text: &str) -> Option<Option<u64>> {
    if before.is_some() {
        return None;
    }
    Some(Some(setting.chosen(Some(text))?))
}

/// The symbols of a first part, where none were given before.
fn prefix_once(before: Option<usize>, text: &str) -> Option<Option<usize>> {
    if before.is_some() {
        return None;
    }
    Some(Some(first_part_asked(text)?))
}

/// The words with one more; none where that one is not understood, or stands twice.
fn with_word<'a>(words: PackWords<'a>, word: &'a str) -> Option<PackWords<'a>> {
    let mut more = words;
    if word == "-b" {
        more.apart = true;
    } else if word == "--force" {
        more.over = true;
    } else if let Some(text) = rest_after("-k", word) {
        more.k = once(words.k, Setting::K, text)?;
    } else if let Some(text) = rest_after("-prefix", word) {
        more.prefix = prefix_once(words.prefix, text)?;
    } else if let Some(text) = rest_after("-ci", word) {
        more.least = once(words.least, Setting::Ci, text)?;
    } else if let Some(text) = rest_after("-cx", word) {
        more.greatest = once(words.greatest, Setting::Cx, text)?;
    } else if let Some(text) = rest_after("-cs", word) {
        more.cap = once(words.cap, Setting::Cs, text)?;
    } else if is_file_name(word) && words.name.is_none() {
        more.name = Some(word);
    } else {
        return None;
    }
    Some(more)
}

/// A number, or where none was given the setting's default.
fn or_default(given: Option<u64>, setting: Setting) -> u64 {
    match given {
        Some(number) => number,
        None => setting.bounds().default,
    }
}

/// A number of symbols, where one was given.
fn symbols(given: Option<u64>) -> Option<usize> {
    Some(given? as usize)
}

/// What the words behind `pack` ask for; none where they are not understood. The limits are told in the header, and the least of the
/// cap and the greatest count says how many bytes a count has; they are `kmc`'s where they are not given.
pub fn pack_request(words: &[String]) -> Option<PackRequest<'_>> {
    let mut sorted = PackWords {
        k: None,
        prefix: None,
        least: None,
        greatest: None,
        cap: None,
        apart: false,
        over: false,
        name: None,
    };
    for word in words {
        sorted = with_word(sorted, word.as_str())?;
    }
    let greatest = or_default(sorted.greatest, Setting::Cx);
    let options = PackOptions {
        k: symbols(sorted.k),
        prefix: sorted.prefix,
        counter: counter_bytes(or_default(sorted.cap, Setting::Cs), greatest),
        least: or_default(sorted.least, Setting::Ci).min(u64::from(u32::MAX)) as u32,
        greatest,
        strands: if sorted.apart {
            Strands::Apart
        } else {
            Strands::Joined
        },
    };
    Some(PackRequest {
        options,
        name: sorted.name?,
        over: sorted.over,
    })
}
