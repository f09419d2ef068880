//! The words of a command line that ask for a histogram, those that choose the number of a word of both dumps, and the names of the
//! operations.
ghost use Rattle.std.specs.Prelude.{◌≡◌, IfOk, map, string_bytes};
ghost use Rattle.std.specs.List.{filter};
ghost use Rattle.kmc_join.specs.Words.{asks_for_histogram, choice_named, choice_of, is_choice, is_other, operation_named};

use crate::operation::{Choice, Operation};
use crate::range_words::is_limit;
use kmc_options::{is_file_name, rest_after};
use std::alloc::{AllocError, Global};

/// Whether the words are `histogram` and the name of a file.
pub(crate) fn asks_for_histogram(words: &[String]) -> bool
    ensures { result ≡ asks_for_histogram (map string_bytes words.now) }
{
    match words {
        [name, file] => name.as_str() == "histogram" && is_file_name(file.as_str()),
        _ => false,
    }
}

/// Whether the word is an option `-oc`.
fn is_choice(word: &str) -> bool
    ensures { result ≡ is_choice word.now }
{
    rest_after("-oc", word).is_some()
}

/// The words with an option `-oc`, and those with none that is read here, each in their order.
#[derive(Drop)]
pub(crate) struct ChoiceWords {
    pub choices: Vec<String>,
    pub others: Vec<String>,
}

/// The words by whether they are an option `-oc`, without those that limit the counts of one dump.
pub(crate) fn choice_words(alloc: Global, words: Vec<String>) -> Result<ChoiceWords, AllocError>
    ensures choices { IfOk result (λ r. map string_bytes r.choices.items
        ≡ filter is_choice (map string_bytes words.items)) }
    ensures others { IfOk result (λ r. map string_bytes r.others.items
        ≡ filter is_other (map string_bytes words.items)) }
{
    let mut choices = Vec::new(alloc);
    let mut others = Vec::new(alloc);
    for word in words {
        if is_choice(&word) {
            choices.push(word)?;
        } else if !is_limit(&word) {
            others.push(word)?;
        }
    }
    Ok(ChoiceWords { choices, others })
}

/// The choice of a word `-ocmin` or the like.
fn choice_named(word: &str) -> Option<Choice>
    ensures { result ≡ choice_named word.now }
{
    if word == "-ocmin" {
        Some(Choice::Min)
    } else if word == "-ocmax" {
        Some(Choice::Max)
    } else if word == "-ocsum" {
        Some(Choice::Sum)
    } else if word == "-ocdiff" {
        Some(Choice::Diff)
    } else if word == "-ocleft" {
        Some(Choice::Left)
    } else if word == "-ocright" {
        Some(Choice::Right)
    } else {
        None
    }
}

/// The choice of the only word, where there is one, and else this one.
fn choice_of(words: &[String], default: Choice) -> Option<Choice>
    ensures { result ≡ choice_of (map string_bytes words.now) default }
{
    match words {
        [] => Some(default),
        [word] => choice_named(word.as_str()),
        _ => None,
    }
}

/// The operation of this name, with what the words `-oc` choose.
pub(crate) fn operation_named(name: &str, choices: &[String]) -> Option<Operation>
    ensures { result ≡ operation_named name.now (map string_bytes choices.now) }
{
    if name == "intersect" {
        Some(Operation::Intersect(choice_of(choices, Choice::Min)?))
    } else if name == "union" {
        Some(Operation::Union(choice_of(choices, Choice::Sum)?))
    } else if name == "counters-subtract" {
        Some(Operation::CountersSubtract(choice_of(choices, Choice::Diff)?))
    } else if name == "subtract" && choices.is_empty() {
        Some(Operation::Subtract)
    } else {
        None
    }
}
