//! What words ask for of one dump or of two, whose names they are.

use kmc_count::Limits;
use kmc_join::{JoinRequest, JoinRule, asked_for, full_names, table_cap};
use kmc_options::is_file_name;
use std::alloc::Global;

/// What is asked for: the histogram of one dump, or of two the table with this cap or the join by a rule within limits.
#[derive(Clone, Copy)]
pub enum Wanted {
    Histogram,
    Table(u64),
    Join(JoinRule, Limits),
}

/// What is asked for, and the names of the dumps.
#[derive(Drop)]
pub struct SourcesRequest {
    pub wanted: Wanted,
    pub files: Vec<String>,
}

/// Whether the words are `histogram` and the name of a file.
fn is_histogram(words: &[String]) -> bool {
    match words {
        [name, file] => name.as_str() == "histogram" && is_file_name(file.as_str()),
        _ => false,
    }
}

/// So many words of the end.
fn last_words(alloc: Global, words: Vec<String>, count: usize) -> Option<Vec<String>> {
    let mut files = Vec::new(alloc);
    let before = words.len().saturating_sub(count);
    for (place, word) in words.into_iter().enumerate() {
        if place >= before {
            files.push(word).ok()?;
        }
    }
    Some(files)
}

/// What the words ask for of one dump or of two, with standard input by its full name; none where they ask for nothing of the kind, or
/// memory was refused.
pub fn sources_request(alloc: Global, words: Vec<String>) -> Option<SourcesRequest> {
    let words = full_names(alloc, words).ok()?;
    if is_histogram(&words) {
        let files = last_words(alloc, words, 1)?;
        return Some(SourcesRequest {
            wanted: Wanted::Histogram,
            files,
        });
    }
    if let Some(cap) = table_cap(&words) {
        let files = last_words(alloc, words, 2)?;
        return Some(SourcesRequest {
            wanted: Wanted::Table(cap),
            files,
        });
    }
    let JoinRequest {
        rule,
        limits,
        files,
    } = asked_for(alloc, words).ok()?;
    Some(SourcesRequest {
        wanted: Wanted::Join(rule, limits),
        files,
    })
}
