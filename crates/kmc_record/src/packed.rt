//! The symbols of a record as one number.
ghost use Rattle.std.specs.Prelude.{◌≡◌, ◌-◌, ◌*◌, ◌^◌, ◌<◌, ◌≤◌, length, take};
ghost use Rattle.kmc_base.specs.Packed.{pack};
ghost use Rattle.kmc_base.specs.Strands.{key};
ghost use Rattle.kmc_base.specs.Words.{rev_comp};
ghost use Rattle.kmc_base.specs.Record.{codes_in};

use kmc_base::{Strands, packed_key};

/// A one in the lowest bit of each byte of a number.
const EACH_BYTE: u128 = u128::MAX / 255;

/// The first of the four codes of each byte, and so on.
const FIRST_CODES: u128 = 192 * EACH_BYTE;

const SECOND_CODES: u128 = 48 * EACH_BYTE;

const THIRD_CODES: u128 = 12 * EACH_BYTE;

const LAST_CODES: u128 = 3 * EACH_BYTE;

/// The reverse complement of all codes of sixteen bytes. The last byte is read as the first one, and the codes of all bytes change
/// their places at once.
fn other_strand(bytes: &[u8; 16]) -> u128
    ensures { result ≡ pack (rev_comp (codes_in bytes.now)) }
{
    let back = u128::from_le_bytes(*bytes);
    let last = (back & LAST_CODES) << 6;
    let third = (back & THIRD_CODES) << 2;
    let second = (back & SECOND_CODES) >> 2;
    let first = (back & FIRST_CODES) >> 6;
    u128::MAX - (last + third + second + first)
}

/// The first sixteen of the bytes, with zeros behind them where they are fewer.
fn sixteen(bytes: &[u8]) -> [u8; 16]
    ensures { take (length bytes.now) result ≡ take 16 bytes.now }
{
    if let Some(first) = bytes.first_chunk() {
        return *first;
    }
    let mut padded = [0; 16];
    padded[..bytes.len()].copy_from_slice(bytes);
    padded
}

/// The key of the first symbols of sixteen bytes as a word, at the top of 128 bits: the lesser of the packed symbols and of their
/// reverse complement.
fn packed_first(bytes: &[u8; 16], symbols: usize, strands: Strands) -> u128
    requires some { 1 ≤ symbols }
    requires most { symbols < 64 }
    ensures { result ≡ pack (key strands (take symbols (codes_in bytes.now))) * 4 ^ (64 - symbols) }
{
    let behind = 128 - 2 * symbols;
    let front = (u128::from_be_bytes(*bytes) >> behind) << behind;
    let other = other_strand(bytes) << behind;
    packed_key(strands, front, other)
}

/// The key of the first symbols of the bytes as a word, at the top of 128 bits.
pub(crate) fn packed_record(bytes: &[u8], symbols: usize, strands: Strands) -> u128
    requires some { 1 ≤ symbols }
    requires most { symbols < 64 }
    requires inside { symbols ≤ 4 * length bytes.now }
    ensures { result ≡ pack (key strands (take symbols (codes_in bytes.now))) * 4 ^ (64 - symbols) }
{
    packed_first(&sixteen(bytes), symbols, strands)
}
