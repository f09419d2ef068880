//! Keys: those that a window rolled over codes gives, and those that records are unpacked to.
use crate::tests::given::{long_read, one_segment, record_of};
use kmc_base::{Strands, push_keys};
use kmc_record::{BodyError, RecordFault, push_body};
use std::alloc::{AllocError, Global};
use std::process::Abort;
use std::test::Fail;

/// Writes the keys that a window rolled over the letters symbol by symbol gives.
fn push_rolled(
    rt: &impl Abort,
    alloc: Global,
    keys: &mut Vec<u128>,
    letters: &[u8],
    k: usize,
    strands: Strands,
) -> Result<(), AllocError> {
    let segment = one_segment(rt, alloc, letters)?;
    assert!(rt; 1 <= k && k <= 64);
    push_keys(keys, &segment.codes, k, strands)
}

/// The keys that a window rolled over the letters symbol by symbol gives.
fn rolled_keys(
    rt: &impl Abort,
    alloc: Global,
    letters: &[u8],
    k: usize,
    strands: Strands,
) -> Result<Vec<u128>, AllocError> {
    let mut keys = Vec::new(alloc);
    push_rolled(rt, alloc, &mut keys, letters, k, strands)?;
    Ok(keys)
}

/// Keys of 64 bits as keys of 128.
fn widened(alloc: Global, narrow: &[u64]) -> Result<Vec<u128>, AllocError> {
    let mut keys = Vec::new(alloc);
    for key in narrow {
        keys.push(u128::from(*key))?;
    }
    Ok(keys)
}

/// Asserts that keys are those that were worked out.
fn assert_keys(rt: &impl Abort, made: &[u128], want: &[u128]) {
    assert_eq!(rt; made, want);
}

#[test]
fn rolls_the_keys_of_64_bits(rt: HostRuntime) -> Result<(), Fail> {
    let segment = one_segment(&rt, rt.alloc(), b"ACGTACGT")?;
    let mut narrow: Vec<u64> = Vec::new(rt.alloc());
    push_keys(&mut narrow, &segment.codes, 4, Strands::Joined)?;
    assert_keys(
        &rt,
        &widened(rt.alloc(), &narrow)?,
        &[27, 108, 177, 108, 27],
    );
    Ok(())
}

#[test]
fn rolls_the_keys_of_128_bits(rt: HostRuntime) -> Result<(), Fail> {
    let alloc = rt.alloc();
    let mut wide = rolled_keys(&rt, alloc, b"ACGTACGT", 4, Strands::Apart)?;
    assert_keys(&rt, &wide, &[27, 108, 177, 198, 27]);
    push_rolled(&rt, alloc, &mut wide, b"ACGTACGT", 9, Strands::Apart)?;
    assert!(rt; wide.len() == 5);
    Ok(())
}

/// The keys that a record is unpacked to, byte by byte.
fn unpacked_keys(
    rt: &impl Abort,
    alloc: Global,
    record: &[u8],
    k: usize,
    strands: Strands,
) -> Result<Vec<u128>, Fail> {
    assert!(rt; 1 <= k && k <= 64);
    let mut wide: Vec<u128> = Vec::new(alloc);
    push_body(&mut wide, record, k, strands)?;
    Ok(wide)
}

/// The same by keys of 64 bits.
fn unpacked_narrow_keys(
    rt: &impl Abort,
    alloc: Global,
    record: &[u8],
    k: usize,
    strands: Strands,
) -> Result<Vec<u128>, Fail> {
    assert!(rt; 1 <= k && k <= 32);
    let mut narrow: Vec<u64> = Vec::new(alloc);
    push_body(&mut narrow, record, k, strands)?;
    Ok(widened(alloc, &narrow)?)
}

#[test]
fn packs_the_words_of_a_body_in_64_bits(rt: HostRuntime) -> Result<(), Fail> {
    let body = [0x00, 0x1B, 0x01, 0x6C, 0x40];
    let keys = unpacked_narrow_keys(&rt, rt.alloc(), &body, 4, Strands::Apart)?;
    assert_keys(&rt, &keys, &[27, 108, 177]);
    Ok(())
}

#[test]
fn packs_the_words_of_a_body_in_128_bits(rt: HostRuntime) -> Result<(), Fail> {
    let body = [0x01, 0xB1, 0xC0];
    let mut keys = unpacked_keys(&rt, rt.alloc(), &body, 4, Strands::Joined)?;
    assert_keys(&rt, &keys, &[177, 44]);
    let damaged = push_body(&mut keys, &[0x00, 0x1B, 0x01, 0x6C], 4, Strands::Apart);
    assert!(rt; damaged == Err(BodyError::Damaged(RecordFault::Short, 2)));
    Ok(())
}

/// Asserts that a record is unpacked to these keys, at either width where words fit it.
fn assert_unpacked_keys(
    rt: &impl Abort,
    alloc: Global,
    record: &[u8],
    k: usize,
    strands: Strands,
    want: &[u128],
) -> Result<(), Fail> {
    let wide = unpacked_keys(rt, alloc, record, k, strands)?;
    assert_keys(rt, &wide, want);
    if k <= 32 {
        let narrow = unpacked_narrow_keys(rt, alloc, record, k, strands)?;
        assert_keys(rt, &narrow, want);
    }
    Ok(())
}

/// Asserts that a record of these letters is unpacked to the keys that a rolled window gives.
fn assert_unpacks_as_rolled(
    rt: &impl Abort,
    alloc: Global,
    letters: &[u8],
    k: usize,
    strands: Strands,
) -> Result<(), Fail> {
    let record = record_of(rt, alloc, letters, k)?;
    let rolled = rolled_keys(rt, alloc, letters, k, strands)?;
    assert_unpacked_keys(rt, alloc, &record, k, strands, &rolled)
}

/// The letters of a record of so many symbols more than k.
fn letters_of<'a>(rt: &impl Abort, read: &'a [u8], k: usize, more: usize) -> &'a [u8] {
    let start = more % 50;
    let end = start.saturating_add(k).saturating_add(more);
    assert!(rt; start <= end && end <= read.len());
    &read[start..end]
}

#[test]
fn records_are_unpacked_by_bytes_as_by_symbols(rt: HostRuntime) -> Result<(), Fail> {
    let alloc = rt.alloc();
    let read = long_read(alloc, 400)?;
    for k in [1, 2, 3, 4, 5, 6, 7, 8, 9, 25, 31, 32, 33, 63, 64] {
        for more in [0usize, 1, 2, 3, 4, 5, 6, 7, 8, 254, 255] {
            let letters = letters_of(&rt, read.as_bytes(), k, more);
            assert_unpacks_as_rolled(&rt, alloc, letters, k, Strands::Joined)?;
            assert_unpacks_as_rolled(&rt, alloc, letters, k, Strands::Apart)?;
        }
    }
    Ok(())
}
