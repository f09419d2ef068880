//! What stands behind a prefix.
ghost use Rattle.std.specs.Prelude.{◌≡◌, option_map};
ghost use Rattle.kmc_options.specs.Words.{is_file_name, rest_after};

/// What follows the prefix in a word that begins with it.
pub fn rest_after<'a>(prefix: &str, word: &'a str) -> Option<&'a str>
    ensures { option_map (λ rest. rest.now) result ≡ rest_after prefix.now word.entry.now }
{
    word.strip_prefix(prefix)
}

/// Whether the word names a file: it does not begin with a hyphen.
pub fn is_file_name(word: &str) -> bool
    ensures { result ≡ is_file_name word.now }
{
    rest_after("-", word).is_none()
}
