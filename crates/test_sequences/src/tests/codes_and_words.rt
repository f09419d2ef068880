//! Codes of bases, words and segments.
use crate::tests::given::{assert_bytes, assert_number, assert_text, word_of};
use kmc_base::{Kmer, MAX_K, Segment, Strands, code, laws, leading_codes, segments};
use kmc_stage_one::{piece_count, push_pieces};
use std::alloc::{AllocError, Global};
use std::process::Abort;
use std::test::Fail;

/// The letters of a word.
fn letters_of(alloc: Global, w: Kmer) -> Result<Vec<u8>, AllocError> {
    let mut text = Vec::new(alloc);
    w.push_text(&mut text)?;
    Ok(text)
}

#[test]
fn eight_bytes_have_codes(rt: HostRuntime) {
    let bases = (0..=255).filter(|b| code(*b).is_some()).count();
    assert_number(&rt, bases, 8);
}

#[test]
fn codes_of_letters(rt: HostRuntime) {
    for (letter, want) in [
        (b'A', Some(0)),
        (b'c', Some(1)),
        (b'g', Some(2)),
        (b'T', Some(3)),
        (b'N', None),
        (b'U', None),
    ] {
        assert!(rt; code(letter) == want, "{letter}");
    }
}

/// Asserts that the text begins with these codes, written where those of another text stand.
fn assert_leading(
    rt: &impl Abort,
    codes: &mut Vec<u8>,
    text: &[u8],
    want: &[u8],
) -> Result<(), Fail> {
    leading_codes(text, codes)?;
    assert_bytes(rt, codes, want);
    Ok(())
}

#[test]
fn leading_codes_end_at_the_first_byte_that_is_no_base(rt: HostRuntime) -> Result<(), Fail> {
    let mut codes = Vec::new(rt.alloc());
    for (text, want) in [
        ("GATTACA", [2, 0, 3, 3, 0, 1, 0].as_slice()),
        ("cgNT", [1, 2].as_slice()),
        ("", [].as_slice()),
        ("TNA", [3].as_slice()),
        ("NACGT", [].as_slice()),
        ("ACGT", [0, 1, 2, 3].as_slice()),
    ] {
        assert_leading(&rt, &mut codes, text.as_bytes(), want)?;
    }
    Ok(())
}

#[test]
fn leading_codes_of_one_byte_are_its_code(rt: HostRuntime) -> Result<(), Fail> {
    let mut codes = Vec::new(rt.alloc());
    for b in 0..=255 {
        leading_codes(&[b], &mut codes)?;
        assert!(rt; codes.first().copied() == code(b), "{b}");
    }
    Ok(())
}

/// The text with a byte that is no base between its letters before a place and those from there on.
fn with_a_stop(alloc: Global, before: &[u8], behind: &[u8]) -> Result<Vec<u8>, AllocError> {
    let mut bytes = before.to_vec(alloc)?;
    bytes.push(b'N')?;
    bytes.extend_from_slice(behind)?;
    Ok(bytes)
}

/// Whether this is the code of the letter.
fn is_code_of(c: u8, letter: u8) -> bool {
    code(letter) == Some(c)
}

/// Asserts that the codes are those of the letters, one by one.
fn assert_codes(rt: &impl Abort, codes: &[u8], letters: &[u8]) {
    assert_number(rt, codes.len(), letters.len());
    for (c, letter) in codes.iter().zip(letters) {
        assert!(rt; is_code_of(*c, *letter));
    }
}

#[test]
fn leading_codes_are_those_of_single_bytes(rt: HostRuntime) -> Result<(), Fail> {
    // bytes are tested in blocks of 32: a byte that is no base, and the end, stands at each place of more than three of them
    let text =
        b"GATTACAgattacaCCGGTTAACCGGTTAATGCATGCAtgcatgcaGGGGCCCCTTTTAAAAacgtACGTacgtACGTGATTACAGATTACAACGTG";
    let mut codes = Vec::new(rt.alloc());
    for end in 0..=text.len() {
        let bytes = with_a_stop(rt.alloc(), &text[..end], &text[end..])?;
        leading_codes(&bytes, &mut codes)?;
        assert_codes(&rt, &codes, &text[..end]);
        leading_codes(&text[..end], &mut codes)?;
        assert_codes(&rt, &codes, &text[..end]);
    }
    Ok(())
}

#[test]
fn refuses_words_out_of_range(rt: HostRuntime) {
    assert!(rt; Kmer::new(&[]).is_none());
    assert!(rt; Kmer::new(&[4]).is_none());
    assert!(rt; Kmer::new(&[0; MAX_K]).is_some());
    assert!(rt; Kmer::new(&[0; 65]).is_none());
}

/// Asserts that the keys of a word are its canonical form and itself.
fn assert_keys(rt: &impl Abort, w: Kmer) {
    assert!(rt; w.canon() <= w);
    assert!(rt; w.key(Strands::Joined) == w.canon());
    assert!(rt; w.key(Strands::Apart) == w);
}

/// Asserts that the letters are a word, and the others its reverse complement.
fn assert_turned(rt: &impl Abort, alloc: Global, letters: &[u8], other: &[u8]) -> Result<(), Fail> {
    let w = word_of(rt, alloc, letters)?;
    assert_number(rt, w.k(), letters.len());
    assert_bytes(rt, &letters_of(alloc, w.rev_comp())?, other);
    assert_keys(rt, w);
    Ok(())
}

#[test]
fn reverse_complement_at_the_edges_of_the_widths(rt: HostRuntime) -> Result<(), Fail> {
    let text = b"ACGTTGCAACCGGTTAGATTACAGATTACACCGGTCATCATGGGACCATTTAACGCGTATCCGAT";
    let other = b"ATCGGATACGCGTTAAATGGTCCCATGATGACCGGTGTAATCTGTAATCTAACCGGTTGCAACGT";
    for k in [1, 2, 3, 4, 5, 8, 9, 25, 31, 32, 33, 63, 64] {
        assert_turned(&rt, rt.alloc(), &text[..k], &other[65 - k..])?;
    }
    Ok(())
}

#[test]
fn orders_words_by_length_and_then_by_symbols(rt: HostRuntime) -> Result<(), Fail> {
    let alloc = rt.alloc();
    let t = word_of(&rt, alloc, b"T")?;
    let aa = word_of(&rt, alloc, b"AA")?;
    let ac = word_of(&rt, alloc, b"AC")?;
    let ca = word_of(&rt, alloc, b"CA")?;
    assert!(rt; t < aa && aa < ac && ac < ca);
    assert!(rt; aa != t);
    Ok(())
}

/// A text of the greatest number of symbols of a word.
const LONGEST: &[u8] = b"ACGTTGCAACCGGTTAGATTACAGATTACACCGGTCATCATGGGACCATTTAACGCGTATCCGA";

/// Asserts that the word of m symbols at a place of a word has these letters.
fn assert_inner(
    rt: &impl Abort,
    alloc: Global,
    w: Kmer,
    (place, m): (usize, usize),
    letters: &[u8],
) -> Result<(), Fail> {
    assert!(rt; 1 <= m && m <= w.k() && place <= w.k() - m);
    assert_bytes(rt, &letters_of(alloc, w.sub(place, m))?, letters);
    Ok(())
}

/// Asserts that the first and the last word of m symbols of the longest word are those of its letters.
fn assert_ends(rt: &impl Abort, alloc: Global, w: Kmer, m: usize) -> Result<(), Fail> {
    assert!(rt; m <= 64 && LONGEST.len() == 64);
    assert_inner(rt, alloc, w, (64 - m, m), &LONGEST[64 - m..])?;
    assert_inner(rt, alloc, w, (0, m), &LONGEST[..m])
}

#[test]
fn takes_a_word_out_of_a_word(rt: HostRuntime) -> Result<(), Fail> {
    let alloc = rt.alloc();
    let w = word_of(&rt, alloc, LONGEST)?;
    assert_number(&rt, w.k(), 64);
    for m in [1, 5, 9, 63, 64] {
        assert_ends(&rt, alloc, w, m)?;
    }
    Ok(())
}

#[test]
fn takes_a_code_out_of_a_word(rt: HostRuntime) -> Result<(), Fail> {
    let w = word_of(&rt, rt.alloc(), LONGEST)?;
    assert!(rt; w.k() == 64);
    let codes = [w.code_at(0), w.code_at(3), w.code_at(63)];
    assert_bytes(&rt, &codes, &[0, 3, 0]);
    Ok(())
}

/// A text with stretches of four, three and five bases.
const STRETCHES: &[u8] = b"NNACGTNacgN-TTTTT";

/// Asserts that a segment begins at a place and has these codes.
fn assert_segment(rt: &impl Abort, segment: &Segment, start: usize, codes: &[u8]) {
    assert_number(rt, segment.start, start);
    assert_bytes(rt, &segment.codes, codes);
}

#[test]
fn finds_the_maximal_stretches(rt: HostRuntime) -> Result<(), Fail> {
    let found = segments(rt.alloc(), STRETCHES, 4)?;
    assert!(rt; found.len() == 2);
    assert_segment(&rt, &found[0], 2, &[0, 1, 2, 3]);
    assert_segment(&rt, &found[1], 12, &[3, 3, 3, 3, 3]);
    Ok(())
}

#[test]
fn finds_the_stretches_of_k_bases_or_more(rt: HostRuntime) -> Result<(), Fail> {
    for (k, count) in [(3, 3), (5, 1), (100, 0)] {
        let found = segments(rt.alloc(), STRETCHES, k)?;
        assert_number(&rt, found.len(), count);
    }
    Ok(())
}

/// Writes the letters behind a text.
fn push_letters(text: &mut String, letters: &[u8]) -> Result<(), AllocError> {
    for letter in letters {
        text.push(char::from(*letter))?;
    }
    Ok(())
}

/// The pieces of a read of letters, which are as many as are counted.
fn pieces_of<'a>(
    rt: &impl Abort,
    alloc: Global,
    read: &'a [u8],
    k: usize,
    l: usize,
) -> Result<Vec<&'a [u8]>, AllocError> {
    assert!(rt; 1 <= k && k <= l);
    let mut found = Vec::new(alloc);
    push_pieces(&mut found, read, k, l)?;
    assert_number(rt, found.len(), piece_count(read.len(), k, l));
    Ok(found)
}

/// The pieces as a text, a comma behind each.
fn pieces_text(alloc: Global, pieces: &[&[u8]]) -> Result<String, AllocError> {
    let mut text = String::new(alloc);
    for piece in pieces {
        push_letters(&mut text, piece)?;
        text.push(',')?;
    }
    Ok(text)
}

/// Asserts that the pieces of a read are these.
fn assert_pieces(
    rt: &impl Abort,
    alloc: Global,
    read: &[u8],
    k: usize,
    l: usize,
    want: &str,
) -> Result<(), Fail> {
    let pieces = pieces_of(rt, alloc, read, k, l)?;
    assert_text(rt, pieces_text(alloc, &pieces)?.as_str(), want);
    Ok(())
}

#[test]
fn pieces_overlap_by_one_symbol_less_than_a_word(rt: HostRuntime) -> Result<(), Fail> {
    for (read, k, l, want) in [
        ("ACGTACGT", 3, 5, "ACGTA,TACGT,"),
        ("ACGTACGT", 3, 8, "ACGTACGT,"),
        ("ACGTACGT", 3, 7, "ACGTACG,CGT,"),
        ("ACGTACGT", 8, 8, "ACGTACGT,"),
        ("ACGTACGT", 9, 9, ""),
        ("ACGN", 2, 2, "AC,CG,GN,"),
        ("ACG", 1, 1, "A,C,G,"),
        ("", 1, 5, ""),
    ] {
        assert_pieces(&rt, rt.alloc(), read.as_bytes(), k, l, want)?;
    }
    Ok(())
}

#[test]
fn laws_can_be_called() {
    laws::segments_are_counted();
    laws::segments_are_maximal();
    laws::keys_of_segments();
    laws::keys_unpack();
    laws::one_canonical_form();
    laws::pieces_are_counted();
    laws::keys_of_pieces();
}
