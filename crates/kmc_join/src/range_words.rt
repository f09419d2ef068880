//! The words of a command line that limit the counts of one dump of a join.
ghost use Rattle.std.specs.Prelude.{◌≡◌, IfOk, map, string_bytes};
ghost use Rattle.std.specs.List.{filter};
ghost use Rattle.kmc_join.specs.RangeWords.{begins_with, count_in, is_limit, left_range, limit_given, limit_of, range_given, right_range};

use crate::rule::{CountRange, EVERY_COUNT};
use kmc_options::{number, rest_after};
use std::alloc::{AllocError, Global};

/// Whether the word begins with the name of this option.
fn begins_with(name: &str, word: &str) -> bool
    ensures { result ≡ begins_with name.now word.now }
{
    rest_after(name, word).is_some()
}

/// Whether the word is an option that limits the counts of one dump.
pub(crate) fn is_limit(word: &str) -> bool
    ensures { result ≡ is_limit word.now }
{
    (begins_with("-lci", word) || begins_with("-lcx", word))
        || (begins_with("-rci", word) || begins_with("-rcx", word))
}

/// The words that begin with the name of this option, in their order.
fn words_with(alloc: Global, name: &str, words: &[String]) -> Result<Vec<String>, AllocError>
    ensures { IfOk result (λ r. map string_bytes r.items
        ≡ filter (begins_with name.now) (map string_bytes words.now)) }
{
    let mut found = Vec::new(alloc);
    for word in words {
        if begins_with(name, word) {
            found.push(word.clone()?)?;
        }
    }
    Ok(found)
}

/// The number that the text writes in decimal digits, if a `u64` holds it.
fn count_in(text: &str) -> Option<u64>
    ensures { result ≡ count_in text.now }
{
    number(text)
}

/// The number of an option by the words that begin with its name, and the default where there is none.
fn limit_of(name: &str, words: &[String], default: u64) -> Option<u64>
    ensures { result ≡ limit_of name.now (map string_bytes words.now) default }
{
    match words {
        [] => Some(default),
        [word] => count_in(rest_after(name, word.as_str())?),
        _ => None,
    }
}

/// The number that the words give an option, and the default where they do not.
fn limit_given(
    alloc: Global,
    name: &str,
    words: &[String],
    default: u64,
) -> Result<Option<u64>, AllocError>
    ensures { IfOk result (λ r. r ≡ limit_given name.now (map string_bytes words.now) default) }
{
    let found = words_with(alloc, name, words)?;
    Ok(limit_of(name, &found, default))
}

/// The counts from the number of one option to that of another.
fn range_given(
    alloc: Global,
    least: &str,
    greatest: &str,
    words: &[String],
) -> Result<Option<CountRange>, AllocError>
    ensures { IfOk result (λ r. r ≡ range_given least.now greatest.now (map string_bytes words.now)) }
{
    let Some(least) = limit_given(alloc, least, words, EVERY_COUNT.least)? else {
        return Ok(None);
    };
    let Some(greatest) = limit_given(alloc, greatest, words, EVERY_COUNT.greatest)? else {
        return Ok(None);
    };
    Ok(Some(CountRange { least, greatest }))
}

/// The counts that are taken of the first dump, by `-lci<n>` and `-lcx<n>`; none where one of them stands twice or is no number.
pub(crate) fn left_range(alloc: Global, words: &[String]) -> Result<Option<CountRange>, AllocError>
    ensures { IfOk result (λ r. r ≡ left_range (map string_bytes words.now)) }
{
    range_given(alloc, "-lci", "-lcx", words)
}

/// The counts that are taken of the second dump, by `-rci<n>` and `-rcx<n>`; none where one of them stands twice or is no number.
pub(crate) fn right_range(alloc: Global, words: &[String]) -> Result<Option<CountRange>, AllocError>
    ensures { IfOk result (λ r. r ≡ right_range (map string_bytes words.now)) }
{
    range_given(alloc, "-rci", "-rcx", words)
}
