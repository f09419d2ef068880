//! One line of a dump, taken from the front of bytes.
ghost use Rattle.std.specs.Prelude.{◌≡◌, ℕ, ◌+◌, ◌*◌, ◌/◌, ◌%◌, ◌<◌, ◌≤◌, ◌^◌, ◌++◌, [], ◌∷◌, List, length, take, drop, map, slice_index, IfSome, MatchOption, decimal};
ghost use Rattle.std.specs.Str.Parse.{digits_value};
ghost use Rattle.std.specs.Int.{IsInRange};
ghost use Rattle.kmc_base.specs.Words.{letter};
ghost use Rattle.kmc_base.specs.Packed.{unpack};
ghost use Rattle.kmc_sum.specs.Line.{AreLetters, IsLetter, IsLineOf};
ghost use Rattle.kmc_sum.specs.Faults.{BeginsNoLine};

use kmc_base::{MAX_K, letter_of};

/// What a line says: a packed word of `k` codes and its count. The line takes the first `end` bytes.
#[derive(Clone, Copy)]
pub struct Line {
    pub k: usize,
    pub packed: u128,
    pub count: u64,
    pub end: usize,
}

/// The code of an upper-case letter: the second and third bit of A, C, G, T tell them apart.
fn code_of_letter(byte: u8) -> Option<u8>
    ensures { MatchOption result (¬ (IsLetter byte)) (λ c. (c < 4) × (letter c ≡ byte)) }
{
    let code = ((byte >> 1) ^ (byte >> 2)) & 3;
    if letter_of(code) == byte {
        Some(code)
    } else {
        None
    }
}

/// The letters of the four codes of each byte, the first code in the highest bits, as numbers: the first letter is the lowest
/// byte.
static QUADS: [u32; 256] = [
    1094795585, 1128350017, 1195458881, 1413562689, 1094926657, 1128481089, 1195589953, 1413693761,
    1095188801, 1128743233, 1195852097, 1413955905, 1096040769, 1129595201, 1196704065, 1414807873,
    1094796097, 1128350529, 1195459393, 1413563201, 1094927169, 1128481601, 1195590465, 1413694273,
    1095189313, 1128743745, 1195852609, 1413956417, 1096041281, 1129595713, 1196704577, 1414808385,
    1094797121, 1128351553, 1195460417, 1413564225, 1094928193, 1128482625, 1195591489, 1413695297,
    1095190337, 1128744769, 1195853633, 1413957441, 1096042305, 1129596737, 1196705601, 1414809409,
    1094800449, 1128354881, 1195463745, 1413567553, 1094931521, 1128485953, 1195594817, 1413698625,
    1095193665, 1128748097, 1195856961, 1413960769, 1096045633, 1129600065, 1196708929, 1414812737,
    1094795587, 1128350019, 1195458883, 1413562691, 1094926659, 1128481091, 1195589955, 1413693763,
    1095188803, 1128743235, 1195852099, 1413955907, 1096040771, 1129595203, 1196704067, 1414807875,
    1094796099, 1128350531, 1195459395, 1413563203, 1094927171, 1128481603, 1195590467, 1413694275,
    1095189315, 1128743747, 1195852611, 1413956419, 1096041283, 1129595715, 1196704579, 1414808387,
    1094797123, 1128351555, 1195460419, 1413564227, 1094928195, 1128482627, 1195591491, 1413695299,
    1095190339, 1128744771, 1195853635, 1413957443, 1096042307, 1129596739, 1196705603, 1414809411,
    1094800451, 1128354883, 1195463747, 1413567555, 1094931523, 1128485955, 1195594819, 1413698627,
    1095193667, 1128748099, 1195856963, 1413960771, 1096045635, 1129600067, 1196708931, 1414812739,
    1094795591, 1128350023, 1195458887, 1413562695, 1094926663, 1128481095, 1195589959, 1413693767,
    1095188807, 1128743239, 1195852103, 1413955911, 1096040775, 1129595207, 1196704071, 1414807879,
    1094796103, 1128350535, 1195459399, 1413563207, 1094927175, 1128481607, 1195590471, 1413694279,
    1095189319, 1128743751, 1195852615, 1413956423, 1096041287, 1129595719, 1196704583, 1414808391,
    1094797127, 1128351559, 1195460423, 1413564231, 1094928199, 1128482631, 1195591495, 1413695303,
    1095190343, 1128744775, 1195853639, 1413957447, 1096042311, 1129596743, 1196705607, 1414809415,
    1094800455, 1128354887, 1195463751, 1413567559, 1094931527, 1128485959, 1195594823, 1413698631,
    1095193671, 1128748103, 1195856967, 1413960775, 1096045639, 1129600071, 1196708935, 1414812743,
    1094795604, 1128350036, 1195458900, 1413562708, 1094926676, 1128481108, 1195589972, 1413693780,
    1095188820, 1128743252, 1195852116, 1413955924, 1096040788, 1129595220, 1196704084, 1414807892,
    1094796116, 1128350548, 1195459412, 1413563220, 1094927188, 1128481620, 1195590484, 1413694292,
    1095189332, 1128743764, 1195852628, 1413956436, 1096041300, 1129595732, 1196704596, 1414808404,
    1094797140, 1128351572, 1195460436, 1413564244, 1094928212, 1128482644, 1195591508, 1413695316,
    1095190356, 1128744788, 1195853652, 1413957460, 1096042324, 1129596756, 1196705620, 1414809428,
    1094800468, 1128354900, 1195463764, 1413567572, 1094931540, 1128485972, 1195594836, 1413698644,
    1095193684, 1128748116, 1195856980, 1413960788, 1096045652, 1129600084, 1196708948, 1414812756,
];

/// Four bytes from a place on, as a number: the first is the lowest byte.
fn text_at(bytes: &[u8], at: usize) -> u32
    requires { at + 4 ≤ length bytes.now }
    ensures { result ≡ (slice_index bytes.now at + slice_index bytes.now (at + 1) * 256)
        + (slice_index bytes.now (at + 2) + slice_index bytes.now (at + 3) * 256) * 65536 }
{
    let low = u32::from(bytes[at]) + u32::from(bytes[at + 1]) * 256;
    let high = u32::from(bytes[at + 2]) + u32::from(bytes[at + 3]) * 256;
    low + high * 65536
}

/// The second and third bits of four bytes, brought together: they tell which of the quads alone the bytes can be.
fn gathered(text: u32) -> u8
    ensures { result < 256 }
{
    let codes = ((text >> 1) ^ (text >> 2)) & 0x0303_0303;
    (codes.wrapping_mul(0x4010_0401) >> 24) as u8
}

/// The codes of the four letters from a place on, in a byte, where these are letters.
fn quad_at(bytes: &[u8], at: usize) -> Option<u8>
    requires { at + 4 ≤ length bytes.now }
    ensures { IfSome result (λ q. (q < 256) × (slice_index bytes.now at ≡ letter (q / 64))
        × (slice_index bytes.now (at + 1) ≡ letter (q / 16 % 4))
        × (slice_index bytes.now (at + 2) ≡ letter (q / 4 % 4))
        × (slice_index bytes.now (at + 3) ≡ letter (q % 4))) }
{
    let text = text_at(bytes, at);
    let quad = gathered(text);
    if QUADS[quad as usize] == text {
        Some(quad)
    } else {
        None
    }
}

/// The letters at the front of the four bytes from a place on, at most three or fewer than there are: how many, and these,
/// packed.
fn front_at(bytes: &[u8], at: usize) -> (usize, u64)
    requires { at + 4 ≤ length bytes.now }
    ensures most { result.0 ≤ 3 }
    ensures letters { AreLetters result.0 result.1 (drop at bytes.now) }
{
    let text = text_at(bytes, at);
    let quad = gathered(text);
    let letters = QUADS[quad as usize];
    if letters % 16777216 == text % 16777216 {
        (3, u64::from(quad / 4))
    } else if letters % 65536 == text % 65536 {
        (2, u64::from(quad / 16))
    } else if letters % 256 == text % 256 {
        (1, u64::from(quad / 64))
    } else {
        (0, 0)
    }
}

/// The most letters of half a word.
const HALF: usize = 32;

/// The letters at the front of the bytes, as far as half a word may go and in quads, or fewer: how many, and these, packed.
fn quads(bytes: &[u8]) -> (usize, u64)
    ensures most { result.0 ≤ HALF }
    ensures letters { AreLetters result.0 result.1 bytes.now }
{
    let most = bytes.len().min(HALF) / 4;
    let mut packed: u64 = 0;
    for j in 0..most {
        match quad_at(bytes, 4 * j) {
            Some(quad) => packed = packed * 256 + u64::from(quad),
            None => {
                let (more, front) = front_at(bytes, 4 * j);
                return (4 * j + more, (packed << (2 * more)) + front);
            }
        }
    }
    (4 * most, packed)
}

/// The letters at the front of the bytes, as far as half a word may go: how many, and these, packed.
fn half_letters(bytes: &[u8]) -> (usize, u64)
    ensures most { result.0 ≤ HALF }
    ensures letters { AreLetters result.0 result.1 bytes.now }
    ensures ends { result.0 < HALF → result.0 < length bytes.now
        → ¬ (IsLetter (slice_index bytes.now result.0)) }
{
    let (begun, front) = quads(bytes);
    let most = bytes.len().min(HALF);
    let mut packed = front;
    for i in begun..most {
        match code_of_letter(bytes[i]) {
            Some(code) => packed = packed * 4 + u64::from(code),
            None => return (i, packed),
        }
    }
    (most, packed)
}

/// The letters at the front of the bytes, as far as a word may go: how many, and the word, packed.
fn letters(bytes: &[u8]) -> (usize, u128)
    ensures most { result.0 ≤ MAX_K }
    ensures within { result.0 ≤ length bytes.now }
    ensures fits { result.1 < 4 ^ result.0 }
    ensures word { take result.0 bytes.now ≡ map letter (unpack result.0 result.1) }
    ensures each { (i : ℕ) → i < result.0 → IsLetter (slice_index bytes.now i) }
    ensures ends { result.0 < MAX_K → result.0 < length bytes.now
        → ¬ (IsLetter (slice_index bytes.now result.0)) }
{
    let (first, high) = half_letters(bytes);
    if first < HALF {
        return (first, u128::from(high));
    }
    let (second, low) = half_letters(&bytes[first..]);
    (
        first + second,
        (u128::from(high) << (2 * second)) + u128::from(low),
    )
}

/// The digits of the greatest count.
const DIGITS: usize = 20;

/// The digits at the front of the bytes, at most [`DIGITS`]: how many, and the number that they write.
fn digits(bytes: &[u8]) -> (usize, u128)
    ensures most { result.0 ≤ DIGITS }
    ensures within { result.0 ≤ length bytes.now }
    ensures value { result.1 ≡ digits_value 10 (take result.0 bytes.now) }
    ensures each { (i : ℕ) → i < result.0 → IsInRange 48 57 (slice_index bytes.now i) }
    ensures ends { result.0 < DIGITS → result.0 < length bytes.now
        → ¬ (IsInRange 48 57 (slice_index bytes.now result.0)) }
{
    let most = bytes.len().min(DIGITS);
    let mut value: u128 = 0;
    for i in 0..most {
        let byte = bytes[i];
        if byte < b'0' || byte > b'9' {
            return (i, value);
        }
        value = value * 10 + u128::from(byte - b'0');
    }
    (most, value)
}

/// A number from 1 to 2^64 - 1 with no leading zero and a line feed at the front of the bytes, and where they end, digit by digit.
fn long_number(bytes: &[u8]) -> Option<(u64, usize)>
    ensures { MatchOption result
        ((n : ℕ) (more : List ℕ) → 1 ≤ n → n < 2 ^ 64 → bytes.now ≡ decimal n ++ 10 ∷ more → ⊥)
        (λ r. (1 ≤ r.0) × (r.0 < 2 ^ 64) × (r.1 ≤ length bytes.now)
        × (take r.1 bytes.now ≡ decimal r.0 ++ 10 ∷ [])) }
{
    let (n, value) = digits(bytes);
    if n == 0 || n == bytes.len() {
        return None;
    }
    if bytes[0] == b'0' || bytes[n] != b'\n' || value > u128::from(u64::MAX) {
        return None;
    }
    Some((value as u64, n + 1))
}

/// The digits at the front of four bytes, at most three: how many, and the number that they write.
fn first_digits(bytes: &[u8]) -> (usize, u64)
    requires { 4 ≤ length bytes.now }
    ensures most { result.0 ≤ 3 }
    ensures value { result.1 ≡ digits_value 10 (take result.0 bytes.now) }
    ensures small { result.1 < 1000 }
    ensures each { (i : ℕ) → i < result.0 → IsInRange 48 57 (slice_index bytes.now i) }
{
    let first = bytes[0].wrapping_sub(b'0');
    let second = bytes[1].wrapping_sub(b'0');
    let third = bytes[2].wrapping_sub(b'0');
    let one = u64::from(first);
    let two = one * 10 + u64::from(second);
    let three = two * 10 + u64::from(third);
    if first > 9 {
        return (0, 0);
    }
    if second > 9 {
        return (1, one);
    }
    if third > 9 {
        return (2, two);
    }
    (3, three)
}

/// A number from 1 to 2^64 - 1 with no leading zero and a line feed at the front of the bytes, and where they end. Most counts
/// have few digits, and how many cannot be foretold: so the first three are read without a branch.
fn number(bytes: &[u8]) -> Option<(u64, usize)>
    ensures { MatchOption result
        ((n : ℕ) (more : List ℕ) → 1 ≤ n → n < 2 ^ 64 → bytes.now ≡ decimal n ++ 10 ∷ more → ⊥)
        (λ r. (1 ≤ r.0) × (r.0 < 2 ^ 64) × (r.1 ≤ length bytes.now)
        × (take r.1 bytes.now ≡ decimal r.0 ++ 10 ∷ [])) }
{
    if bytes.len() >= 4 {
        let (n, value) = first_digits(bytes);
        if n > 0 && bytes[0] != b'0' && bytes[n] == b'\n' {
            return Some((value, n + 1));
        }
    }
    long_number(bytes)
}

/// The line at the front of the bytes, where there is one.
pub fn line_at(bytes: &[u8]) -> Option<Line>
    ensures { MatchOption result (BeginsNoLine bytes.now) (λ l. IsLineOf l bytes.now) }
{
    let (k, packed) = letters(bytes);
    if k == 0 || k == bytes.len() || bytes[k] != b'\t' {
        return None;
    }
    let start = k + 1;
    match number(&bytes[start..]) {
        Some((count, end)) => Some(Line {
            k,
            packed,
            count,
            end: start + end,
        }),
        None => None,
    }
}
