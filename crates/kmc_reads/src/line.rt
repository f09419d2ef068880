//! Lines of a text that comes in blocks.
ghost use Rattle.std.specs.Prelude.{◌≡◌, MatchOption, get_or};
ghost use Rattle.std.specs.Io.BufRead.{strip_last, ends_with_byte};
ghost use Rattle.kmc_reads.specs.Fasta.{is_header};
ghost use Rattle.kmc_reads.specs.Standing.{HasNoFeed, IsCutOfText};

use memchr::memchr;

/// The bytes up to the first line feed and those after it; none where there is no line feed. A line of one byte, as most plus
/// lines are, is seen without a search.
pub fn cut_line(text: &[u8]) -> Option<(&[u8], &[u8])>
    ensures { MatchOption result (HasNoFeed text.now) (λ p. IsCutOfText text.now p.0.now p.1.now) }
{
    if text.len() > 1 && text[1] == b'\n' && text[0] != b'\n' {
        return Some((&text[..1], &text[2..]));
    }
    match memchr(b'\n', text) {
        Some(i) => Some((&text[..i], &text[i + 1..])),
        None => None,
    }
}

/// The bytes without one carriage return at their end, and whether there is one.
pub fn cut_return(bytes: &[u8]) -> (&[u8], bool)
    ensures content { result.0.now ≡ strip_last 13 bytes.now }
    ensures held { result.1 ≡ ends_with_byte 13 bytes.now }
{
    match bytes {
        [content @ .., b'\r'] => (content, true),
        _ => (bytes, false),
    }
}

/// Whether these bytes begin a FASTA header.
pub fn begins_header(line: &[u8]) -> bool
    ensures { result ≡ is_header line.now }
{
    match line {
        [b'>', ..] => true,
        _ => false,
    }
}

/// The first of these bytes, or 0 where there is none.
pub fn first_of(line: &[u8]) -> u8
    ensures { result ≡ get_or line.now 0 0 }
{
    match line {
        [first, ..] => *first,
        _ => 0,
    }
}
