//! The codes of one record.
ghost use Rattle.std.specs.Prelude.{◌≡◌, ◌≢◌, ℕ, ◌+◌, ◌-◌, ◌*◌, ◌/◌, ◌%◌, ◌^◌, ◌<◌, ◌≤◌, ◌++◌, ◌∷◌, [], length, map, take, drop, slice_index, vec_len, vec_capacity, OnOk, IfOk, IfErr, All, IsTrue};
ghost use Rattle.kmc_base.specs.Packed.{pack};
ghost use Rattle.kmc_base.specs.Strands.{keys, packed_key};
ghost use Rattle.kmc_base.specs.Weights.{weighted};
ghost use Rattle.kmc_base.specs.Record.{codes_in, size_of};
ghost use Rattle.kmc_base.specs.Lemmas.Rolling.{ahead, ahead_quarters, behind, behind_quarters};
ghost use Rattle.kmc_record.specs.Faults.{HasFault};

use crate::fault::RecordFault;
use kmc_base::{KeyRule, MAX_K, PackedKmer, Strands, Weight, packed_key};
use std::alloc::AllocError;

/// The code, 0 to 3, at a place of some bytes: each has four, the first in the highest bits.
pub fn code_at(bytes: &[u8], i: usize) -> u8
    requires { i < 4 * length bytes.now }
    ensures is { result ≡ slice_index (codes_in bytes.now) i }
    ensures small { result < 4 }
{
    (bytes[i / 4] >> (6 - 2 * (i % 4))) % 4
}

/// Whether all codes from a place on are zero, of which there are at most three: the lowest bits of the last byte.
fn rest_is_zero(bytes: &[u8], start: usize) -> bool
    requires few { length bytes.now < 1000 }
    requires within { start ≤ 4 * length bytes.now }
    requires last { 4 * length bytes.now < start + 4 }
    ensures yes { IsTrue result → All (λ c. c ≡ 0) (drop start (codes_in bytes.now)) }
    ensures no { ¬ (IsTrue result)
        → ((i : ℕ) × (start ≤ i) × (i < 4 * length bytes.now)
        × (slice_index (codes_in bytes.now) i ≢ 0)) }
{
    if bytes.len() == 0 {
        return true;
    }
    bytes[bytes.len() - 1] % (1 << (2 * (4 * bytes.len() - start))) == 0
}

/// How many bytes the codes of so many symbols fill.
pub fn code_bytes(symbols: usize) -> usize
    ensures { result ≡ size_of symbols }
{
    symbols.div_ceil(4)
}

/// The first record of some bytes, for words of k symbols: how many symbols it has, and the bytes of their codes, which begin behind the
/// first byte; the next record begins behind them. Else why the bytes do not begin with a whole record.
pub fn first_record<'a>(bytes: &'a [u8], k: usize) -> Result<(usize, &'a [u8]), RecordFault>
    requires some { 0 < length bytes.now }
    requires most { k ≤ MAX_K }
    ensures count { IfOk result (λ r. r.0 ≡ slice_index bytes.now 0 + k) }
    ensures inside { IfOk result (λ r. 1 + size_of r.0 ≤ length bytes.now) }
    ensures codes { IfOk result (λ r. r.1.now ≡ take (size_of r.0) (drop 1 bytes.now)) }
    ensures size { IfOk result (λ r. length r.1.now ≡ size_of r.0) }
    ensures rest { IfOk result (λ r. All (λ c. c ≡ 0)
        (drop r.0 (codes_in (take (size_of r.0) (drop 1 bytes.now))))) }
    ensures fault { IfErr result (λ e. HasFault k e bytes.now) }
{
    let symbols = usize::from(bytes[0]) + k;
    let size = code_bytes(symbols);
    if bytes.len() <= size {
        return Err(RecordFault::Short);
    }
    let codes = &bytes[1..1 + size];
    if !rest_is_zero(codes, symbols) {
        return Err(RecordFault::Padding);
    }
    Ok((symbols, codes))
}

/// A window over the codes and its reverse complement, both with the four codes of a byte more.
fn slide_byte<W: PackedKmer + Drop>(forward: W, back: W, byte: u8, top: W) -> (W, W)
    requires top { (j : ℕ) × (3 ≤ j) × (j < W.most) × (W.number top ≡ 4 ^ j) }
    requires back { W.number back / 4 < W.number top }
    ensures ahead { W.number result.0 ≡ ahead_quarters (W.number top) (W.number forward) byte }
    ensures behind { W.number result.1 ≡ behind_quarters (W.number top) (W.number back) byte }
{
    (forward.ahead_byte(byte, top), back.behind_byte(byte, top))
}

/// A window and its reverse complement with one code more, whose key is appended with its weight.
fn push_code<W: PackedKmer + Drop>(
    words: &mut Vec<W>,
    forward: W,
    back: W,
    code: u8,
    top: W,
    strands: Strands,
    weight: Weight,
) -> (W, W)
    requires code { code < 4 }
    requires top { (j : ℕ) × (j < W.most) × (W.number top ≡ 4 ^ j) }
    requires back { W.number back / 4 < W.number top }
    requires beside { (k : ℕ) × (1 ≤ k) × (2 * k + weight.bits ≤ 2 * W.most)
        × (4 * W.number top ≤ 4 ^ k) }
    requires room { vec_len words.old < vec_capacity words.old }
    ensures ahead { W.number result.0 ≡ ahead (W.number top) (W.number forward) code }
    ensures behind { W.number result.1 ≡ behind (W.number top) (W.number back) code }
    ensures pushed { map W.number words.new.items
        ≡ map W.number words.old.items
        ++ weighted weight.bits weight.times
        (packed_key strands (W.number result.0) (W.number result.1)) ∷ [] }
    ensures len { vec_len words.new ≡ vec_len words.old + 1 }
    ensures capacity { vec_capacity words.new ≡ vec_capacity words.old }
{
    let next = forward.ahead(code, top);
    let other = back.behind(code, top);
    words.push_reserved(packed_key(strands, next, other).weighted(weight));
    (next, other)
}

/// Appends the packed keys of the words of a record's symbols, each with its weight, in the order of their places. The bytes,
/// fewer than 1000, have the symbols, at least one word of them, and a key with its weight fits the type. Room for all keys is
/// had first; the symbols in front of the first word's last one enter the window a byte at a time.
pub fn push_record<W: PackedKmer + Drop>(
    words: &mut Vec<W>,
    rule: KeyRule,
    bytes: &[u8],
    symbols: usize,
    weight: Weight,
) -> Result<(), AllocError>
    requires most { rule.k ≤ W.most }
    requires beside { 2 * rule.k + weight.bits ≤ 2 * W.most }
    requires long { rule.k ≤ symbols }
    requires inside { symbols ≤ 4 * length bytes.now }
    requires few { length bytes.now < 1000 }
    ensures { OnOk result (map W.number words.new.items
        ≡ map W.number words.old.items
        ++ map (weighted weight.bits weight.times)
        (map pack (keys rule.strands rule.k (take symbols (codes_in bytes.now))))) }
{
    let k = rule.k;
    words.reserve(symbols + 1 - k)?;
    let top = W::top(k);
    let mut forward = W::zero();
    let mut back = W::ones(k);
    let whole = (k - 1) / 4;
    let begun = (k + 2) / 4;
    let near = symbols.min(4 * begun);
    let last = near.max(4 * (symbols / 4));
    'front: for j in 0..whole {
        (forward, back) = slide_byte(forward, back, bytes[j], top);
    }
    'head: for i in 4 * whole..k - 1 {
        let code = code_at(bytes, i);
        forward = forward.ahead(code, top);
        back = back.behind(code, top);
    }
    'near: for i in k - 1..near {
        let code = code_at(bytes, i);
        (forward, back) = push_code(words, forward, back, code, top, rule.strands, weight);
    }
    'bytes: for j in begun..symbols / 4 {
        let byte = bytes[j];
        'codes: for r in 0..4_usize {
            let code = (byte >> (6 - 2 * r)) % 4;
            (forward, back) = push_code(words, forward, back, code, top, rule.strands, weight);
        }
    }
    'rest: for i in last..symbols {
        let code = code_at(bytes, i);
        (forward, back) = push_code(words, forward, back, code, top, rule.strands, weight);
    }
    Ok(())
}
