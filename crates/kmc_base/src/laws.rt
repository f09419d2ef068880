//! Laws over the definitions alone. Each call does nothing: its contract is the law, for the proofs of its callers.
ghost use Rattle.kmc_base.specs.Laws.{SegmentsAreCounted, SegmentsAreMaximal, KeysOfSegments, KeysUnpack, OneCanonicalForm, PiecesAreCounted, KeysOfPieces};
ghost use Rattle.kmc_base.specs.SpellingLaws.{NoSpellingBeginsAnother, BodyHasOneList, SpellingIsLaidOut};

/// The places of the segments, with their words, are the counted places of the read, in order.
pub fn segments_are_counted()
    ensures { SegmentsAreCounted }
{}

/// Each segment is a maximal stretch of bases of the read: none stands right before it or right behind.
pub fn segments_are_maximal()
    ensures { SegmentsAreMaximal }
{}

/// The keys of the segments' words, one after another, are those of the words at the counted places.
pub fn keys_of_segments()
    ensures { KeysOfSegments }
{}

/// The keys of a list of codes, packed, fit 2 k bits and unpack to themselves.
pub fn keys_unpack()
    ensures { KeysUnpack }
{}

/// A word and its reverse complement have one canonical form.
pub fn one_canonical_form()
    ensures { OneCanonicalForm }
{}

/// The counted places of the pieces of a read, each moved on by where its piece begins, are those of the read, in order.
pub fn pieces_are_counted()
    ensures { PiecesAreCounted }
{}

/// The keys of the words at the counted places of the pieces, one after another, are those of the read.
pub fn keys_of_pieces()
    ensures { KeysOfPieces }
{}

/// The record of a super-k-mer, byte by byte: its length, the number that its first byte tells, the two bits of each
/// symbol, and zeros behind the last.
pub fn spelling_is_laid_out()
    ensures { SpellingIsLaidOut }
{}

/// No spelling begins another: bytes that begin with the records of two super-k-mers begin with one.
pub fn no_spelling_begins_another()
    ensures { NoSpellingBeginsAnother }
{}

/// A body is the records of one list of super-k-mers.
pub fn body_has_one_list()
    ensures { BodyHasOneList }
{}
