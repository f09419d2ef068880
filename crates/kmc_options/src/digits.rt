//! Numbers in decimal digits.
ghost use Rattle.std.specs.Prelude.{◌≡◌, ◌≤◌, ◌^◌, ℕ, Some, MatchOption};
ghost use Rattle.std.specs.List.{list_all};
ghost use Rattle.std.specs.Char.{is_ascii_digit};
ghost use Rattle.kmc_options.specs.Words.{number_of};

/// The number that the text writes in one or more digits, if a `u64` holds it. Leading zeros are taken, and a sign is not.
pub fn number(text: &str) -> Option<u64>
    ensures { MatchOption result ((n : ℕ) → number_of text.now ≡ Some n → 2 ^ 64 ≤ n)
        (λ n. number_of text.now ≡ Some n) }
{
    if are_digits(text.as_bytes()) {
        text.parse().ok()
    } else {
        None
    }
}

fn are_digits(text: &[u8]) -> bool
    ensures { result ≡ list_all is_ascii_digit text.now }
{
    text.iter().all(|byte| byte.is_ascii_digit())
}
