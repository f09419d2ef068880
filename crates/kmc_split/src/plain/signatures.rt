//! Signatures of words.
ghost use Rattle.std.specs.Prelude.{◌≡◌, ◌+◌, ◌^◌, ◌<◌, ◌≤◌, length, take};
ghost use Rattle.std.specs.List.{All};
ghost use Rattle.kmc_base.specs.Words.{canonical};
ghost use Rattle.kmc_base.specs.Packed.{unpack};
ghost use Rattle.kmc_split.specs.Signature.{is_allowed, signature_of};

use crate::marking::{candidates, marks_for};
use crate::mmer::Mmer;
use crate::plain::minima::lowest;
use crate::signatures::{MAX_M, Sig};
use kmc_base::{Kmer, MAX_K};

/// Whether an m-mer may be a signature, judged by its canonical form: that begins neither AAA nor ACA, and has AA nowhere but at
/// its beginning.
pub fn allowed(mmer: &Kmer) -> bool
    requires { length mmer.now ≤ MAX_M }
    ensures { result ≡ is_allowed (canonical mmer.now) }
{
    let form = mmer.canon();
    let m = form.k();
    packed(&form).is_allowed_with(m, marks_for(m - 1))
}

/// The codes of a short word as digits to base 4, the first one highest.
fn packed(w: &Kmer) -> u32
    requires { length w.now ≤ MAX_M }
    ensures fits { result < 4 ^ length w.now }
    ensures is { unpack (length w.now) result ≡ w.now }
{
    let mut number = 0;
    for i in 0..w.k() {
        number = number * 4 + u32::from(w.code_at(i));
    }
    number
}

/// The signature of a word, from m-mers of m symbols.
pub fn signature(w: &Kmer, m: usize) -> Sig
    requires some { 1 ≤ m }
    requires most { m ≤ MAX_M }
    requires within { m ≤ length w.now }
    ensures is { result ≡ signature_of m w.now }
    ensures most { result ≤ 4 ^ m }
{
    let k = w.k();
    let codes = codes_of(w);
    let mut room = [0; MAX_K];
    signature_in(&codes[..k], m, &mut room[..k + 1 - m])
}

/// The signature of a word, worked out in room for the candidates of its m-mers.
fn signature_in(codes: &[u8], m: usize, room: &mut [u32]) -> Sig
    requires some { 1 ≤ m }
    requires most { m ≤ MAX_M }
    requires within { m ≤ length codes.now }
    requires long { length room.old + m ≡ length codes.now + 1 }
    requires codes { All (λ c. c < 4) codes.now }
    ensures is { result ≡ signature_of m codes.now }
    ensures most { result ≤ 4 ^ m }
{
    candidates(codes, m, room);
    Sig::of_least(lowest(room), m)
}

/// The codes of a word, at the front of an array.
fn codes_of(w: &Kmer) -> [u8; MAX_K]
    ensures are { take (length w.now) result ≡ w.now }
    ensures small { All (λ c. c < 4) w.now }
{
    let mut codes = [0; MAX_K];
    for i in 0..w.k() {
        codes[i] = w.code_at(i);
    }
    codes
}
