//! Check words: MurmurHash64A (Austin Appleby, 2008; public domain). Of its three multiplications a word of eight bytes only one
//! waits for the word before. A number is taken by `state = (state xor number) * factor`, the factor being odd, and what makes a
//! number of a word loses nothing: for one number two states have two answers, and for one state two words have. So texts of one
//! length that differ in the bytes of one word have different check words; that one changed byte is told is a law (`laws`). Other
//! changes are told but for one in 2^64. It is no guard against who changes a file on purpose.
ghost use Rattle.std.specs.Prelude.{◌≡◌, ◌+◌, ◌*◌, ◌/◌, ◌<◌, ◌≤◌, length, take, drop};
ghost use Rattle.std.specs.Int.{w64, from_le_bytes};
ghost use Rattle.kmc_slice_files.specs.Check.{times, folded, mixed, taken, rest_taken, hashed_words, hashed};
ghost use Rattle.kmc_slice_files.specs.Frames.{check_of};

/// What a state is multiplied by.
const FACTOR: u64 = 0xc6a4_a793_5bd1_e995;

/// By how many bits the upper ones are carried down.
const SHIFT: u32 = 47;

/// The bytes of a word.
const WORD: usize = 8;

fn multiply(number: u64) -> u64
    ensures { result ≡ times number }
{
    number.wrapping_mul(FACTOR)
}

fn fold(number: u64) -> u64
    ensures { result ≡ folded number }
{
    number ^ (number >> SHIFT)
}

/// The state after one more number.
fn mix(state: u64, number: u64) -> u64
    ensures { result ≡ mixed state number }
{
    multiply(state ^ number)
}

/// The state after one more word.
fn take_word(state: u64, word: u64) -> u64
    ensures { result ≡ taken state word }
{
    mix(state, multiply(fold(multiply(word))))
}

/// The number that eight bytes spell, the first one lowest.
fn word_at(bytes: &[u8], at: usize) -> u64
    requires { at + 8 ≤ length bytes.now }
    ensures { result ≡ from_le_bytes w64 (take 8 (drop at bytes.now)) }
{
    let mut word = [0; WORD];
    word.copy_from_slice(&bytes[at..at + WORD]);
    u64::from_le_bytes(word)
}

/// The state after so many whole words.
fn hash_words(start: u64, words: usize, bytes: &[u8]) -> u64
    requires { words * 8 ≤ length bytes.now }
    ensures { rest_taken result (drop (words * 8) bytes.now)
        ≡ hashed_words start words bytes.now }
{
    let mut state = start;
    for i in 0..words {
        state = take_word(state, word_at(bytes, i * WORD));
    }
    state
}

/// The state after fewer bytes than a word has.
fn hash_rest(state: u64, rest: &[u8]) -> u64
    requires { length rest.now < 8 }
    ensures { result ≡ rest_taken state rest.now }
{
    if rest.is_empty() {
        return state;
    }
    let mut word = [0; WORD];
    word[..rest.len()].copy_from_slice(rest);
    mix(state, u64::from_le_bytes(word))
}

/// The check word of bytes, with a seed.
pub(crate) fn check_word(seed: u64, bytes: &[u8]) -> u64
    ensures { result ≡ hashed seed bytes.now }
{
    let words = bytes.len() / WORD;
    let start = seed ^ multiply(bytes.len() as u64);
    let state = hash_rest(hash_words(start, words, bytes), &bytes[words * WORD..]);
    fold(multiply(fold(state)))
}

/// The check word of a frame: that of its body, whose seed is the bin.
pub(crate) fn frame_check(bin: u16, body: &[u8]) -> u64
    ensures { result ≡ check_of bin body.now }
{
    check_word(u64::from(bin), body)
}
