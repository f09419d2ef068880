//! Short records as numbers of 128 bits, which can be sorted.
ghost use Rattle.std.specs.Prelude.{◌≡◌, ◌*◌, ◌≤◌, length, take};
ghost use Rattle.kmc_base.specs.Strands.{key};
ghost use Rattle.kmc_base.specs.Record.{codes_in};
ghost use Rattle.kmc_record.specs.RecordKeys.{codes_of, symbols_of};

use crate::packed::packed_record;
use kmc_base::{Strands, high_bytes_first};

/// The most symbols of a record that fits 128 bits with its length.
pub const MOST_KEY_SYMBOLS: usize = 61;

/// The number of the record of the first 1 to 61 symbols of the bytes: of the lesser of it and its reverse complement, where both
/// strands are one.
pub fn record_key(bytes: &[u8], symbols: usize, strands: Strands) -> u128
    requires some { 1 ≤ symbols }
    requires most { symbols ≤ MOST_KEY_SYMBOLS }
    requires inside { symbols ≤ 4 * length bytes.now }
    ensures symbols { symbols_of result ≡ symbols }
    ensures codes { codes_of result ≡ key strands (take symbols (codes_in bytes.now)) }
{
    packed_record(bytes, symbols, strands) + symbols as u128
}

/// The bytes of the number of a record, with its symbols in front.
pub fn key_bytes(key: u128) -> [u8; 16]
    ensures { take (symbols_of key) (codes_in result) ≡ codes_of key }
{
    high_bytes_first(key)
}
