//! Records that are copied out of packed codes, in which they begin at any place.
ghost use Rattle.std.specs.Prelude.{◌≡◌, ◌+◌, ◌-◌, ◌*◌, ◌<◌, ◌≤◌, ◌++◌, [], ◌∷◌, length, take, drop, slice_index, OnOk, OnErr};
ghost use Rattle.std.specs.Int.{bytes_high_first};
ghost use Rattle.kmc_base.specs.Words.{window};
ghost use Rattle.kmc_base.specs.Record.{packed_codes, spelling, codes_in, size_of};

use std::alloc::AllocError;

/// The byte at a place, and 0 behind the last.
fn byte_or_zero(bytes: &[u8], i: usize) -> u8
    ensures { result ≡ slice_index bytes.now i }
{
    if i < bytes.len() { bytes[i] } else { 0 }
}

/// The byte of the four codes of two bytes that begin behind so many codes of the first one.
fn four_codes(left: u8, right: u8, skipped: usize) -> u8
    requires { skipped < 4 }
    ensures { packed_codes (take 4 (drop skipped (codes_in (left ∷ right ∷ [])))) ≡ result ∷ [] }
{
    let pair = u16::from(left) * 256 + u16::from(right);
    ((pair >> (8 - 2 * skipped)) % 256) as u8
}

/// The byte of the four codes that begin behind so many codes of a byte which is not the last one.
fn byte_from(packed: &[u8], i: usize, skipped: usize) -> u8
    requires inside { i + 1 < length packed.now }
    requires skipped { skipped < 4 }
    ensures { packed_codes (window 4 (codes_in packed.now) (4 * i + skipped)) ≡ result ∷ [] }
{
    four_codes(packed[i], packed[i + 1], skipped)
}

/// The byte of one to four codes that begin behind so many codes of a byte, with zeros behind them.
fn last_byte_from(packed: &[u8], i: usize, skipped: usize, kept: usize) -> u8
    requires inside { 4 * i + skipped + kept ≤ 4 * length packed.now }
    requires skipped { skipped < 4 }
    requires some { 1 ≤ kept }
    requires most { kept ≤ 4 }
    ensures { packed_codes (window kept (codes_in packed.now) (4 * i + skipped)) ≡ result ∷ [] }
{
    let byte = four_codes(packed[i], byte_or_zero(packed, i + 1), skipped);
    byte - byte % (1 << (8 - 2 * kept))
}

/// The number whose bytes, the highest first, have the codes of sixteen bytes behind so many that are skipped, packed from the first
/// byte on, and zeros behind the last.
fn moved_codes(bytes: &[u8; 16], skipped: usize, symbols: usize) -> u128
    requires some { 1 ≤ symbols }
    requires inside { skipped + symbols ≤ 64 }
    ensures { take (size_of symbols) (bytes_high_first 16 result)
        ≡ packed_codes (window symbols (codes_in bytes.now) skipped) }
{
    let codes = u128::from_be_bytes(*bytes) << (2 * skipped);
    let behind = 128 - 2 * symbols;
    (codes >> behind) << behind
}

/// Appends the record of a super-k-mer whose codes stand in sixteen bytes, behind so many that are skipped; `out` stays as it was
/// where its growth is refused.
fn push_short_record(
    bytes: &[u8; 16],
    skipped: usize,
    symbols: usize,
    k: usize,
    out: &mut Vec<u8>,
) -> Result<(), AllocError>
    requires some { 1 ≤ symbols }
    requires least { k ≤ symbols }
    requires most { symbols ≤ k + 255 }
    requires inside { skipped + symbols ≤ 64 }
    ensures ok { OnOk result (out.new.items
        ≡ out.old.items ++ spelling k (window symbols (codes_in bytes.now) skipped)) }
    ensures err { OnErr result (out.new.items ≡ out.old.items) }
{
    let codes = moved_codes(bytes, skipped, symbols);
    out.reserve(17)?;
    let end = out.len() + 1 + (symbols + 3) / 4;
    out.push_reserved((symbols - k) as u8);
    // half by half: a processor waits where it loads at once what it stored in two halves
    out.extend_from_slice(&((codes >> 64) as u64).to_be_bytes())?;
    out.extend_from_slice(&((codes % (1 << 64)) as u64).to_be_bytes())?;
    out.truncate(end);
    Ok(())
}

/// Appends the record of a super-k-mer byte by byte; `out` stays as it was where its growth is refused.
fn push_long_record(
    packed: &[u8],
    start: usize,
    symbols: usize,
    k: usize,
    out: &mut Vec<u8>,
) -> Result<(), AllocError>
    requires some { 1 ≤ symbols }
    requires least { k ≤ symbols }
    requires most { symbols ≤ k + 255 }
    requires inside { start + symbols ≤ 4 * length packed.now }
    ensures ok { OnOk result (out.new.items
        ≡ out.old.items ++ spelling k (window symbols (codes_in packed.now) start)) }
    ensures err { OnErr result (out.new.items ≡ out.old.items) }
{
    let first = start / 4;
    let skipped = start % 4;
    let last = (symbols - 1) / 4;
    out.reserve(2 + last)?;
    out.push_reserved((symbols - k) as u8);
    for j in 0..last {
        out.push_reserved(byte_from(packed, first + j, skipped));
    }
    out.push_reserved(last_byte_from(packed, first + last, skipped, symbols - 4 * last));
    Ok(())
}

/// The most symbols of a record whose codes stand in sixteen bytes, in whichever place of a byte they begin.
const MOST_AT_ONCE: usize = 61;

/// Appends the record of a super-k-mer of so many symbols, whose codes begin at a place of packed codes; `out` stays as it was
/// where its growth is refused. A record of at most 61 symbols is copied at once where sixteen bytes are there from its first.
pub fn push_record_from(
    packed: &[u8],
    start: usize,
    symbols: usize,
    k: usize,
    out: &mut Vec<u8>,
) -> Result<(), AllocError>
    requires some { 1 ≤ symbols }
    requires least { k ≤ symbols }
    requires most { symbols ≤ k + 255 }
    requires inside { start + symbols ≤ 4 * length packed.now }
    ensures ok { OnOk result (out.new.items
        ≡ out.old.items ++ spelling k (window symbols (codes_in packed.now) start)) }
    ensures err { OnErr result (out.new.items ≡ out.old.items) }
{
    if symbols <= MOST_AT_ONCE
        && let Some(bytes) = packed[start / 4..].first_chunk()
    {
        return push_short_record(bytes, start % 4, symbols, k, out);
    }
    push_long_record(packed, start, symbols, k, out)
}
