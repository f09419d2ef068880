//! Options in long form and their values.
ghost use Rattle.std.specs.Prelude.{◌≡◌, ◌++◌, ◌∷◌, IfOk, map, string_bytes};
ghost use Rattle.kmc_options.specs.SliceWords.{joined};

use crate::slices::spelling::awaits_value;
use std::alloc::{AllocError, Global};

/// The words, with an option in long form and the value behind it as one word, as `--k=31`.
pub(crate) fn joined_words(alloc: Global, words: Vec<String>) -> Result<Vec<String>, AllocError>
    ensures { IfOk result (λ r. map string_bytes r.items ≡ joined (map string_bytes words.items)) }
{
    let mut out = Vec::new(alloc);
    let mut open: Option<String> = None;
    for word in words {
        match open {
            Some(option) => {
                out.push(with_value(option, &word)?)?;
                open = None;
            }
            None => {
                if awaits_value(&word) {
                    open = Some(word);
                } else {
                    out.push(word)?;
                }
            }
        }
    }
    if let Some(option) = open {
        out.push(option)?;
    }
    Ok(out)
}

/// The option, `=` and the value.
fn with_value(option: String, value: &str) -> Result<String, AllocError>
    ensures { IfOk result (λ r. string_bytes r ≡ string_bytes option ++ 61 ∷ value.now) }
{
    let mut long = option;
    long.push_str("=")?;
    long.push_str(value)?;
    Ok(long)
}
