//! Numbers in bytes.
ghost use Rattle.std.specs.Prelude.{◌≡◌, ◌+◌, ◌^◌, ◌<◌, ◌≤◌, length};
ghost use Rattle.kmc_database.specs.Header.{field};
ghost use Rattle.kmc_database.specs.Numbers.{low_first};

/// The number whose bytes these are, the lowest first.
fn low_number(bytes: &[u8]) -> u64
    requires { length bytes.now ≤ 8 }
    ensures bytes { low_first (length bytes.now) result ≡ bytes.now }
    ensures fits { result < 256 ^ length bytes.now }
{
    let size = bytes.len();
    let mut number: u64 = 0;
    for i in 0..size {
        number = number * 256 + u64::from(bytes[size - 1 - i]);
    }
    number
}

/// The number of so many bytes from a place on.
pub(crate) fn number_at(bytes: &[u8], at: usize, size: usize) -> u64
    requires few { size ≤ 8 }
    requires inside { at + size ≤ length bytes.now }
    ensures bytes { low_first size result ≡ field bytes.now at size }
    ensures fits { result < 256 ^ size }
{
    low_number(&bytes[at..at + size])
}
