//! Which bodies belong to a bin.
ghost use Rattle.std.specs.Prelude.{◌≡◌, ◌+◌, ◌*◌, ◌<◌, ◌≤◌, ◌↔◌, length, take, IfOk, IfErr, IsTrue};
ghost use Rattle.kmc_base.specs.Words.{windows};
ghost use Rattle.kmc_base.specs.Record.{codes_in, size_of};
ghost use Rattle.kmc_record.specs.Parts.{IsPart};
ghost use Rattle.kmc_record.specs.Bodies.{Belong, IsFirstError};
ghost use Rattle.kmc_record.specs.RecordKeys.{codes_of, IsRecordKey};

use crate::part_error::PartError;
use crate::record::{code_bytes, first_record};
use crate::record_keys::key_bytes;
use crate::shape::Shape;
use kmc_base::MAX_K;
use kmc_split::{BelongingRoom, words_in_bin};

/// The most codes that the bytes of a record have, with those behind its last symbol.
const MOST_CODES: usize = (MAX_K + 258) / 4 * 4;

/// The four codes of each byte take the place of what was there.
fn unpack(bytes: &[u8], codes: &mut [u8])
    requires { length codes.old ≡ 4 * length bytes.now }
    ensures { codes.new ≡ codes_in bytes.now }
{
    for j in 0..bytes.len() {
        let byte = bytes[j];
        codes[4 * j] = byte >> 6;
        codes[4 * j + 1] = (byte >> 4) % 4;
        codes[4 * j + 2] = (byte >> 2) % 4;
        codes[4 * j + 3] = byte % 4;
    }
}

/// Whether all words of the symbols in these bytes belong to the bin. The rooms are to be used again.
fn belongs(
    bytes: &[u8],
    symbols: usize,
    bin: usize,
    shape: Shape,
    codes: &mut [u8; MOST_CODES],
    room: &mut BelongingRoom,
) -> bool
    requires size { length bytes.now ≡ size_of symbols }
    requires least { shape.k ≤ symbols }
    requires most { symbols ≤ shape.k + 255 }
    ensures { IsTrue result
        ↔ Belong bin shape (windows shape.k (take symbols (codes_in bytes.now))) }
{
    let codes = &mut codes[..4 * bytes.len()];
    unpack(bytes, codes);
    words_in_bin(
        &codes[..symbols],
        shape.k(),
        shape.m(),
        shape.n(),
        bin,
        room,
    )
}

/// Room for the codes of one record and for what its signatures are found in, to be used again for the next record: what it has before
/// does not matter.
#[derive(Drop)]
pub struct JudgingRoom {
    codes: [u8; MOST_CODES],
    words: BelongingRoom,
}

impl JudgingRoom {
    /// Room that no record was judged in yet.
    pub fn new() -> JudgingRoom {
        JudgingRoom {
            codes: [0; MOST_CODES],
            words: BelongingRoom::new(),
        }
    }
}

/// Whether all words of the record of a number belong to the bin.
pub fn key_belongs(key: u128, bin: usize, shape: Shape, room: &mut JudgingRoom) -> bool
    requires { IsRecordKey shape.k key }
    ensures { IsTrue result ↔ Belong bin shape (windows shape.k (codes_of key)) }
{
    let symbols = (key % 64) as usize;
    let bytes = key_bytes(key);
    belongs(
        &bytes[..code_bytes(symbols)],
        symbols,
        bin,
        shape,
        &mut room.codes,
        &mut room.words,
    )
}

/// How many words the body has, and 2^64 - 1 where they are more, if it is whole records of the bin; else its first fault. It makes
/// nothing in memory: one record after the other is judged in the same rooms.
pub fn count_words(body: &[u8], bin: usize, shape: Shape) -> Result<u64, PartError>
    requires { bin < shape.n }
    ensures ok { IfOk result (λ words. IsPart bin shape body.now words) }
    ensures first { IfErr result (λ e. IsFirstError bin shape e body.now) }
{
    let k = shape.k();
    let mut codes = [0; MOST_CODES];
    let mut room = BelongingRoom::new();
    let mut offset = 0;
    let mut words: u64 = 0;
    while offset < body.len() {
        let (symbols, bytes) = match first_record(&body[offset..], k) {
            Ok(found) => found,
            Err(fault) => return Err(PartError::Damaged(fault, offset)),
        };
        if !belongs(bytes, symbols, bin, shape, &mut codes, &mut room) {
            return Err(PartError::WrongBin(offset));
        }
        words = words.saturating_add((symbols + 1 - k) as u64);
        offset += 1 + bytes.len();
    }
    Ok(words)
}
