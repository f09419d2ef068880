//! Bodies with wrong bytes, judged as a plain body does it: record by record and word by word.
use crate::tests::given::{chunk_of, mixed_reads, shape_of};
use kmc_record::{Part, PartError, RecordError, Shape, decode, parts_of};
use kmc_split::{SuperKmer, signature};
use std::alloc::{AllocError, Global};
use std::process::Abort;
use std::test::Fail;

/// Whether the signature of each word has the bin.
fn belongs(rt: &impl Abort, super_kmer: &SuperKmer, shape: Shape, bin: usize) -> bool {
    let m = shape.m();
    for i in 0..super_kmer.words() {
        let word = super_kmer.word_at(i);
        assert!(rt; 1 <= m && m <= word.k());
        if signature(&word, m).bin(shape.n()) != bin {
            return false;
        }
    }
    true
}

/// How many words the body has, or why it is none of the bin.
fn plain_words(
    rt: &impl Abort,
    alloc: Global,
    shape: Shape,
    bin: usize,
    body: &[u8],
) -> Result<u64, PartError> {
    let mut rest = body;
    let mut words: u64 = 0;
    for _ in 0..body.len() {
        if rest.is_empty() {
            break;
        }
        let offset = body.len().wrapping_sub(rest.len());
        let (super_kmer, behind) = match decode(alloc, rest, shape.k()) {
            Ok(found) => found,
            Err(RecordError::Damaged(fault)) => return Err(PartError::Damaged(fault, offset)),
            Err(RecordError::Memory) => return Err(PartError::Memory),
        };
        if !belongs(rt, &super_kmer, shape, bin) {
            return Err(PartError::WrongBin(offset));
        }
        words = words.saturating_add(super_kmer.words() as u64);
        rest = behind;
    }
    Ok(words)
}

/// Asserts that the body is judged as the plain body does it.
fn assert_judged(
    rt: &impl Abort,
    alloc: Global,
    shape: Shape,
    bin: usize,
    body: &[u8],
) -> Result<(), AllocError> {
    assert!(rt; bin < shape.n());
    let want = plain_words(rt, alloc, shape, bin, body);
    let made = match Part::from_body(0, bin, shape, body.to_vec(alloc)?) {
        Ok(part) => Ok(part.words()),
        Err((fault, _body)) => Err(fault),
    };
    assert!(rt; made == want, "{body:?} in {bin}");
    Ok(())
}

/// Asserts it of a body in each bin, and of that body with each of its bytes changed.
fn assert_each(
    rt: &impl Abort,
    alloc: Global,
    shape: Shape,
    own: usize,
    body: &[u8],
) -> Result<(), AllocError> {
    for bin in 0..shape.n() {
        assert_judged(rt, alloc, shape, bin, body)?;
    }
    let mut bytes = body.to_vec(alloc)?;
    for at in 0..bytes.len() {
        assert!(rt; at < bytes.len());
        let byte = bytes[at];
        bytes[at] = byte ^ (1 << (at % 8));
        assert_judged(rt, alloc, shape, own, &bytes)?;
        bytes[at] = byte;
    }
    Ok(())
}

#[test]
fn judges_changed_bodies_as_the_plain_body_does(rt: HostRuntime) -> Result<(), Fail> {
    let alloc = rt.alloc();
    let reads = mixed_reads(alloc)?;
    for k in [1, 4, 5, 9, 25, 33, 64] {
        let shape = shape_of(&rt, k, 5, 3);
        let chunk = chunk_of(alloc, 3, reads.as_str())?;
        for part in &parts_of(alloc, &chunk, shape)? {
            assert_each(&rt, alloc, shape, part.bin(), part.body())?;
        }
    }
    Ok(())
}
