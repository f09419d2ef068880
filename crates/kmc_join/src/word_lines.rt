//! A word at the front of bytes: its letters and a line feed.
ghost use Rattle.std.specs.Prelude.{◌≡◌, ◌<◌, ◌≤◌, ℕ, List, length, map, take, slice_index, ◌++◌, MatchOption};
ghost use Rattle.kmc_base.specs.Words.{IsKmer, letter};
ghost use Rattle.kmc_sum.specs.Line.{IsLetter};
ghost use Rattle.kmc_join.specs.Asking.{BeginsNoWord, word_line};

use kmc_base::{Kmer, MAX_K};

/// The code of an upper-case letter.
fn code_of_letter(byte: u8) -> Option<u8>
    ensures { MatchOption result (¬ (IsLetter byte)) (λ c. (c < 4) × (letter c ≡ byte)) }
{
    match byte {
        b'A' => Some(0),
        b'C' => Some(1),
        b'G' => Some(2),
        b'T' => Some(3),
        _ => None,
    }
}

/// The letters at the front of the bytes, as far as a word may go: how many, and their codes.
fn letters(bytes: &[u8]) -> (usize, [u8; MAX_K])
    ensures most { result.0 ≤ MAX_K }
    ensures within { result.0 ≤ length bytes.now }
    ensures room { length result.1 ≡ MAX_K }
    ensures word { take result.0 bytes.now ≡ map letter (take result.0 result.1) }
    ensures codes { (i : ℕ) → i < result.0 → slice_index result.1 i < 4 }
    ensures each { (i : ℕ) → i < result.0 → IsLetter (slice_index bytes.now i) }
    ensures ends { result.0 < MAX_K → result.0 < length bytes.now
        → ¬ (IsLetter (slice_index bytes.now result.0)) }
{
    let mut codes = [0; MAX_K];
    let most = bytes.len().min(MAX_K);
    for i in 0..most {
        match code_of_letter(bytes[i]) {
            Some(code) => codes[i] = code,
            None => return (i, codes),
        }
    }
    (most, codes)
}

/// The word whose line is a front of the bytes, where there is one.
pub(crate) fn word_at(bytes: &[u8]) -> Option<Kmer>
    ensures { MatchOption result (BeginsNoWord bytes.now) (λ w. IsKmer w
        × ((more : List ℕ) × (bytes.now ≡ word_line w ++ more))) }
{
    let (k, codes) = letters(bytes);
    if k == bytes.len() || bytes[k] != b'\n' {
        return None;
    }
    Kmer::new(&codes[..k])
}
