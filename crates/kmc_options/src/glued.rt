//! KMC's glued words.
ghost use Rattle.std.specs.Prelude.{◌≡◌, IfOk, option_map, string_bytes};
ghost use Rattle.std.specs.Option.{option_map_or};
ghost use Rattle.kmc_options.specs.Glued.{is_flag, long_form, option_in, value_in, with_value};

use crate::named::{Named, OPTIONS};
use crate::prefix::rest_after;
use crate::setting::Setting;
use std::alloc::{AllocError, Global};

/// The word with its option or flag in long form, as `--k=31` for `-k31` and `--fa` for `-fa`;
/// every other word as it is. Fails only for want of memory.
pub fn long_form(alloc: Global, word: String) -> Result<String, AllocError>
    ensures { IfOk result (λ long. string_bytes long ≡ long_form (string_bytes word)) }
{
    match changed(alloc, &word)? {
        Some(long) => Ok(long),
        None => Ok(word),
    }
}

/// The long form of a word that is a flag or glues a value to an option; none for every other word.
fn changed(alloc: Global, word: &str) -> Result<Option<String>, AllocError>
    ensures { IfOk result (λ long.
        option_map_or string_bytes long word.now ≡ long_form word.now) }
{
    if is_flag(word) {
        return Ok(Some(["-", word].concat(alloc)?));
    }
    let Some(setting) = option_in(word) else {
        return Ok(None);
    };
    match value_in(setting, word) {
        Some(value) => Ok(Some(with_value(alloc, setting, value)?)),
        None => Ok(None),
    }
}

fn is_flag(word: &str) -> bool
    ensures { result ≡ is_flag word.now }
{
    word == "-fa" || word == "-fq" || word == "-fm" || word == "-b"
}

// The option to which the word glues a value.
fn option_in(word: &str) -> Option<Setting>
    ensures { result ≡ option_in word.now }
{
    for setting in &OPTIONS {
        if value_in(*setting, word).is_some() {
            return Some(*setting);
        }
    }
    None
}

// The value that the word glues to the option's name.
fn value_in(setting: Setting, word: &str) -> Option<&str>
    ensures { option_map (λ value. value.now) result ≡ value_in setting word.now }
{
    let option = rest_after("-", word)?;
    let value = rest_after(setting.name(), option)?;
    if value.is_empty() { None } else { Some(value) }
}

fn with_value<'a>(alloc: Global, setting: Setting, value: &'a str) -> Result<String, AllocError>
    ensures { IfOk result (λ long. string_bytes long ≡ with_value setting value.now) }
{
    let name: &'a str = setting.name();
    ["--", name, "=", value].concat(alloc)
}
