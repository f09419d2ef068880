//! Records that are copied out of packed codes, and the numbers of records, against their plain forms.
use crate::tests::given::{assert_bytes, long_read, record_of, word_of};
use kmc_base::{Strands, leading_codes, pack_codes, push_record_from};
use kmc_record::{code_at, key_bytes, record_key};
use std::alloc::{AllocError, Global};
use std::process::Abort;
use std::test::Fail;

/// The packed codes of the letters, all of bases, with zero bytes behind them.
fn packed_letters(alloc: Global, letters: &[u8]) -> Result<Vec<u8>, AllocError> {
    let mut codes = Vec::new(alloc);
    leading_codes(letters, &mut codes)?;
    let mut packed = Vec::new(alloc);
    pack_codes(&codes, &mut packed)?;
    Ok(packed)
}

/// Asserts that so many symbols from a place on are copied as the plain form spells their record.
fn assert_copied(
    rt: &impl Abort,
    alloc: Global,
    letters: &[u8],
    packed: &[u8],
    (start, symbols): (usize, usize),
    k: usize,
) -> Result<(), Fail> {
    assert!(rt; start < 1000 && symbols < 1000 && packed.len() < 1000);
    assert!(rt; 1 <= symbols && k <= symbols && symbols <= k + 255);
    assert!(rt; start + symbols <= 4 * packed.len() && start + symbols <= letters.len());
    let mut made = Vec::new(alloc);
    push_record_from(packed, start, symbols, k, &mut made)?;
    let want = record_of(rt, alloc, &letters[start..start + symbols], k)?;
    assert_bytes(rt, &made, &want);
    Ok(())
}

/// Asserts it at each of the four places of a byte and at the end of the letters, with zero bytes behind their codes and without.
fn assert_copied_from_each_place(
    rt: &impl Abort,
    alloc: Global,
    letters: &[u8],
    symbols: usize,
    k: usize,
) -> Result<(), Fail> {
    let packed = packed_letters(alloc, letters)?;
    let size = letters.len() / 4;
    assert!(rt; size <= packed.len());
    let last = letters.len().saturating_sub(symbols);
    for start in [0, 1, 2, 3, last] {
        assert_copied(rt, alloc, letters, &packed, (start, symbols), k)?;
        assert_copied(rt, alloc, letters, &packed[..size], (start, symbols), k)?;
    }
    Ok(())
}

#[test]
fn records_of_one_word_are_copied(rt: HostRuntime) -> Result<(), Fail> {
    let alloc = rt.alloc();
    let read = long_read(alloc, 100)?;
    for k in 1..=64 {
        assert_copied_from_each_place(&rt, alloc, read.as_bytes(), k, k)?;
    }
    Ok(())
}

#[test]
fn records_of_some_words_are_copied(rt: HostRuntime) -> Result<(), Fail> {
    let alloc = rt.alloc();
    let read = long_read(alloc, 340)?;
    for k in [1, 2, 25, 31, 58, 61, 62, 64] {
        for more in [1, 2, 3, 4, 254, 255] {
            assert_copied_from_each_place(&rt, alloc, read.as_bytes(), k + more, k)?;
        }
    }
    Ok(())
}

/// Asserts that the record of the letters has the number of their key, whatever bytes are behind it.
fn assert_numbered(
    rt: &impl Abort,
    alloc: Global,
    letters: &[u8],
    strands: Strands,
) -> Result<(), Fail> {
    let symbols = letters.len();
    let mut record = record_of(rt, alloc, letters, 1)?;
    let key = word_of(rt, alloc, letters)?.key(strands);
    for _more in 0..20 {
        assert!(rt; record.len() >= 1 && record.len() < 1000);
        let bytes = &record[1..];
        assert!(rt; 1 <= symbols && symbols <= 61 && symbols <= 4 * bytes.len());
        let number = record_key(bytes, symbols, strands);
        assert!(rt; (number % 64) as usize == symbols && key.k() == symbols);
        for i in 0..symbols {
            assert!(rt;
                code_at(&key_bytes(number), i) == key.code_at(i),
                "{symbols}, {i}"
            );
        }
        record.push(0xB1)?;
    }
    Ok(())
}

#[test]
fn records_are_numbered_by_their_keys(rt: HostRuntime) -> Result<(), Fail> {
    let alloc = rt.alloc();
    let read = long_read(alloc, 200)?;
    let letters = read.as_bytes();
    for symbols in 1..=61_usize {
        let end = 2 * symbols;
        assert!(rt; symbols <= end && end <= letters.len());
        assert_numbered(&rt, alloc, &letters[symbols..end], Strands::Joined)?;
        assert_numbered(&rt, alloc, &letters[symbols..end], Strands::Apart)?;
    }
    Ok(())
}
