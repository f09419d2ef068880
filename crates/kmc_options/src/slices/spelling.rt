//! What single words of a command line are.
ghost use Rattle.std.specs.Prelude.{◌≡◌, map, nat_eq, option_map};
ghost use Rattle.std.specs.List.{list_any};
ghost use Rattle.std.specs.Str.{bytes_eq};
ghost use Rattle.kmc_options.specs.Spelling.{awaits_value, is_slices, is_force, slices_text};

use crate::prefix::rest_after;

/// What the word gives as the number of slices, glued or in long form.
pub fn slices_text(word: &str) -> Option<&str>
    ensures { option_map (λ text. text.now) result ≡ slices_text word.entry.now }
{
    match rest_after("-slices", word) {
        Some(text) => Some(text),
        None => rest_after("--slices=", word),
    }
}

/// Whether the word gives a number of slices.
pub fn is_slices(word: &str) -> bool
    ensures { result ≡ is_slices word.now }
{
    slices_text(word).is_some()
}

/// Whether the word asks for files to be written over.
pub fn is_force(word: &str) -> bool
    ensures { result ≡ is_force word.now }
{
    word == "--force"
}

/// The words in long form behind which no value follows.
const PLAIN_WORDS: [&'static str; 7] = [
    "--fa",
    "--fq",
    "--fm",
    "--b",
    "--force",
    "--help",
    "--version",
];

/// Whether the word is one of these.
fn is_one_of(word: &str, all: &[&str]) -> bool
    ensures { result ≡ list_any (bytes_eq word.now) (map (λ a. a.now) all.now) }
{
    let mut found = false;
    for one in all {
        found = found || word == *one;
    }
    found
}

/// Whether the word has an equals sign.
fn has_equals_sign(word: &str) -> bool
    ensures { result ≡ list_any (nat_eq 61) word.now }
{
    let mut found = false;
    for byte in word.as_bytes() {
        found = found || *byte == b'=';
    }
    found
}

/// Whether the next word is the value of this option in long form.
pub fn awaits_value(word: &str) -> bool
    ensures { result ≡ awaits_value word.now }
{
    rest_after("--", word).is_some() && !has_equals_sign(word) && !is_one_of(word, &PLAIN_WORDS)
}
