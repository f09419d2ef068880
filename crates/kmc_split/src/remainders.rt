//! Remainders without a division.
ghost use Rattle.std.specs.Prelude.{◌≡◌, ◌%◌, ◌≤◌};

/// What is left of a number that is divided by n, which is 1 or more. Where n is a power of two, as the number of bins is by
/// default, that is the lowest bits.
pub fn remainder(number: usize, n: usize) -> usize
    requires { 1 ≤ n }
    ensures { result ≡ number % n }
{
    let power = n.trailing_zeros();
    if n == 1 << power {
        number & (n - 1)
    } else {
        number % n
    }
}
