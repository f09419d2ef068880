//! The use of the program that the first word asks for.
ghost use Rattle.std.specs.Prelude.{◌≡◌, ◌<◌, drop, length, true, vec_len};

/// Whether the first word is the name of this use.
pub fn asks_for(words: &[String], name: &str) -> bool
    ensures { result ≡ true → 0 < length words.now }
{
    match words.first() {
        Some(word) => word.as_str() == name,
        None => false,
    }
}

/// The words behind the first.
pub fn words_behind(mut words: Vec<String>) -> Vec<String>
    requires { 0 < vec_len words }
    ensures { result.items ≡ drop 1 words.items }
{
    words.remove(0);
    words
}
