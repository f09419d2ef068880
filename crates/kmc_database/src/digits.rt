//! The digits of a count.
ghost use Rattle.std.specs.Prelude.{◌≡◌, ◌≤◌, length, decimal};

/// How many digits a count is written with.
pub(crate) fn digits_of(count: u64) -> usize
    ensures is { result ≡ length (decimal count) }
    ensures most { result ≤ 20 }
{
    let mut digits = 1;
    let mut rest = count;
    while rest >= 10 {
        rest /= 10;
        digits += 1;
    }
    digits
}
