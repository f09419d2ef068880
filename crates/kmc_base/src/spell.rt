//! How codes are packed.
ghost use Rattle.std.specs.Prelude.{◌≡◌, ◌+◌, ◌*◌, ◌/◌, ◌<◌, ◌≤◌, ◌++◌, length, drop, replicate, slice_index, vec_len, vec_capacity, OnOk};
ghost use Rattle.std.specs.List.{AllByRecursion};
ghost use Rattle.kmc_base.specs.Record.{packed_codes, size_of};

use std::alloc::AllocError;

/// The code at a place, and 0 behind the last.
fn code_or_zero(codes: &[u8], i: usize) -> u8
    requires { AllByRecursion (λ c. c < 4) codes.now }
    ensures is { result ≡ slice_index codes.now i }
    ensures small { result < 4 }
{
    if i < codes.len() { codes[i] } else { 0 }
}

/// The byte of the four codes from a place on, with zeros behind the last.
fn byte_at(codes: &[u8], i: usize) -> u8
    requires inside { i < length codes.now }
    requires codes { AllByRecursion (λ c. c < 4) codes.now }
    ensures { result ≡ slice_index (packed_codes (drop i codes.now)) 0 }
{
    let a = code_or_zero(codes, i);
    let b = code_or_zero(codes, i + 1);
    let c = code_or_zero(codes, i + 2);
    let d = code_or_zero(codes, i + 3);
    a * 64 + b * 16 + c * 4 + d
}

/// What four codes in a row, a byte each, are multiplied with: the first one then lies 64 times in the fourth byte, the second
/// one 16 times, the third one 4 times, and the fourth one once.
const GATHER: u64 = 1 + (4 << 8) + (16 << 16) + (64 << 24);

/// The byte of the four codes from a place on.
fn whole_byte_at(codes: &[u8], i: usize) -> u8
    requires inside { i + 4 ≤ length codes.now }
    requires codes { AllByRecursion (λ c. c < 4) codes.now }
    ensures { result ≡ slice_index (packed_codes (drop i codes.now)) 0 }
{
    let a = u64::from(codes[i]);
    let b = u64::from(codes[i + 1]);
    let c = u64::from(codes[i + 2]);
    let d = u64::from(codes[i + 3]);
    let word = a + b * 256 + c * 65536 + d * 16777216;
    (((word * GATHER) >> 24) % 256) as u8
}

/// Appends codes, each below 4 and four to a byte, with zeros behind the last. There has to be room for them.
pub fn push_packed(codes: &[u8], out: &mut Vec<u8>)
    requires codes { AllByRecursion (λ c. c < 4) codes.now }
    requires room { vec_len out.old + size_of (length codes.now) ≤ vec_capacity out.old }
    ensures { out.new.items ≡ out.old.items ++ packed_codes codes.now }
{
    let whole = codes.len() / 4;
    for j in 0..whole {
        out.push_reserved(whole_byte_at(codes, 4 * j));
    }
    if 4 * whole < codes.len() {
        out.push_reserved(byte_at(codes, 4 * whole));
    }
}

/// Packs codes, four a byte, into a vector that is to be used again: they take the place of what it had. Sixteen zero bytes stand
/// behind them, so that sixteen bytes can be read from where any code lies.
pub fn pack_codes(codes: &[u8], packed: &mut Vec<u8>) -> Result<(), AllocError>
    requires { AllByRecursion (λ c. c < 4) codes.now }
    ensures { OnOk result (packed.new.items ≡ packed_codes codes.now ++ replicate 16 0) }
{
    packed.clear();
    packed.reserve((codes.len() + 3) / 4 + 16)?;
    push_packed(codes, packed);
    packed.extend_from_slice(&[0; 16])?;
    Ok(())
}
