//! Numbers as bytes.
ghost use Rattle.std.specs.Prelude.{◌≡◌};
ghost use Rattle.std.specs.Int.{bytes_high_first};

/// The bytes of a number, the highest first. Each half is swapped and stored at once, which LLVM does not see in 128 bits.
pub fn high_bytes_first(number: u128) -> [u8; 16]
    ensures { result ≡ bytes_high_first 16 number }
{
    let mut bytes = [0; 16];
    bytes[..8].copy_from_slice(&((number >> 64) as u64).to_be_bytes());
    bytes[8..].copy_from_slice(&((number % (1 << 64)) as u64).to_be_bytes());
    bytes
}
