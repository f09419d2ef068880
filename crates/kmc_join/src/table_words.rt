//! The words of a command line that ask for a table.
ghost use Rattle.std.specs.Prelude.{◌≡◌, ◌≤◌, IfSome, length, map, option_map, string_bytes};
ghost use Rattle.kmc_join.specs.TableWords.{cap_given, cap_text, is_table, table_cap};

use kmc_options::{Setting, is_file_name, rest_after};

/// The cap where no word gives one, as in KAT.
const USUAL_CAP: u64 = 1000;

/// What the word gives as the cap, glued or in long form.
fn cap_text(word: &str) -> Option<&str>
    ensures { option_map (λ text. text.now) result ≡ cap_text word.entry.now }
{
    match rest_after("-cs", word) {
        Some(text) => Some(text),
        None => rest_after("--cs=", word),
    }
}

/// The cap that the word gives, in the range of `-cs`.
fn cap_given(word: &str) -> Option<u64>
    ensures { result ≡ cap_given word.now }
{
    match cap_text(word) {
        Some(text) => Setting::Cs.chosen(Some(text)),
        None => None,
    }
}

/// Whether the words are `table` and the names of two files.
fn is_table(name: &str, first: &str, second: &str) -> bool
    ensures { result ≡ is_table name.now first.now second.now }
{
    name == "table" && is_file_name(first) && is_file_name(second)
}

/// The cap, where the words ask for a table: they are `table`, an option `-cs<n>` or none, and the names of two files. Without the option
/// the cap is 1000.
pub fn table_cap(words: &[String]) -> Option<u64>
    ensures cap { result ≡ table_cap (map string_bytes words.now) }
    ensures long { IfSome result (λ _. 3 ≤ length words.now) }
{
    if words.len() == 3 {
        if is_table(&words[0], &words[1], &words[2]) {
            return Some(USUAL_CAP);
        }
        return None;
    }
    if words.len() == 4 {
        if is_table(&words[0], &words[2], &words[3]) {
            return cap_given(&words[1]);
        }
        return None;
    }
    None
}
