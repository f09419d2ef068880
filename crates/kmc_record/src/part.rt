//! The records of one chunk for one bin.
ghost use Rattle.std.specs.Prelude.{◌≡◌, ◌+◌, ◌*◌, ◌%◌, ◌<◌, ◌≤◌, nat_lt, [], ◌∷◌, length, OnOk, OnErr, IfOk, IfErr};
ghost use Rattle.std.specs.List.{All};
ghost use Rattle.kmc_base.specs.Words.{window, windows};
ghost use Rattle.kmc_split.specs.Signature.{bin_of};
ghost use Rattle.kmc_base.specs.Record.{IsSpelled, codes_in};
ghost use Rattle.kmc_record.specs.Bodies.{IsFirstError};
ghost use Rattle.kmc_record.specs.Parts.{Parcel, grown, empty_part, IsPart};

use crate::belong::count_words;
use crate::part_error::PartError;
use crate::shape::Shape;
use kmc_base::push_record_from;
use std::alloc::{AllocError, Global};
use std::marker::Model;

/// The records of one chunk whose words belong to one bin, and how many words they have.
#[derive(Drop)]
pub struct Part {
    chunk: u64,
    bin: usize,
    shape: Shape,
    body: Vec<u8>,
    words: u64,
}

impl Model for Part {
    ghost use Rattle.kmc_record.specs.Parts.{Parcel, IsPart};

    ghost Value = { Parcel };

    ghost view = { λ a. record { chunk = a.chunk; bin = a.bin; shape = a.shape; body = a.body.items; words = a.words } };

    ghost invariant = { λ a. IsPart a.bin a.shape a.body.items a.words };
}

impl Part {
    /// The part of a body that is whole records whose words belong to the bin, with how many words they have, or 2^64 - 1 where
    /// they are more. [`Part::from_body`] makes one of a body that is not known to be so.
    pub fn of_body(chunk: u64, bin: usize, shape: Shape, body: Vec<u8>, words: u64) -> Part
        requires { IsPart bin shape body.items words }
        ensures { result ≡ record { chunk = chunk; bin = bin; shape = shape; body = body.items; words = words } }
    {
        Part {
            chunk,
            bin,
            shape,
            body,
            words,
        }
    }

    /// The part of a body, where that is whole records whose words belong to the bin; else the first fault in the order
    /// of the body, damage before a wrong bin within one record, with the same body.
    pub fn from_body(
        chunk: u64,
        bin: usize,
        shape: Shape,
        body: Vec<u8>,
    ) -> Result<Part, (PartError, Vec<u8>)>
        requires { bin < shape.n }
        ensures chunk { IfOk result (λ p. p.chunk ≡ chunk) }
        ensures bin { IfOk result (λ p. p.bin ≡ bin) }
        ensures shape { IfOk result (λ p. p.shape ≡ shape) }
        ensures body { IfOk result (λ p. p.body ≡ body.items) }
        ensures part { IfOk result (λ p. IsPart bin shape body.items p.words) }
        ensures first { IfErr result (λ e. IsFirstError bin shape e.0 body.items) }
        ensures back { IfErr result (λ e. e.1.items ≡ body.items) }
    {
        match count_words(&body, bin, shape) {
            Ok(words) => Ok(Part::of_body(chunk, bin, shape, body, words)),
            Err(e) => Err((e, body)),
        }
    }

    /// The number of the chunk that it comes from.
    pub fn chunk(&self) -> u64
        ensures { result ≡ self.now.chunk }
    {
        self.chunk
    }

    /// The bin of its words, below the number of bins of its shape.
    pub fn bin(&self) -> usize
        ensures is { result ≡ self.now.bin }
        ensures kept { IsPart self.now.bin self.now.shape self.now.body self.now.words }
    {
        self.bin
    }

    /// How it was cut.
    pub fn shape(&self) -> Shape
        ensures { result ≡ self.now.shape }
    {
        self.shape
    }

    /// Its records, one after the other.
    pub fn body(&self) -> &[u8]
        ensures are { result.now ≡ self.now.body }
        ensures kept { IsPart self.now.bin self.now.shape self.now.body self.now.words }
    {
        &self.body
    }

    /// How many words its records have, and 2^64 - 1 where they are more.
    pub fn words(&self) -> u64
        ensures is { result ≡ self.now.words }
        ensures kept { IsPart self.now.bin self.now.shape self.now.body self.now.words }
    {
        self.words
    }

    /// Whether it has a record.
    pub(crate) fn has_records(&self) -> bool
        ensures { result ≡ nat_lt 0 (length self.now.body) }
    {
        self.body.len() > 0
    }

    /// The part with no record.
    pub(crate) fn empty(alloc: Global, chunk: u64, bin: usize, shape: Shape) -> Part
        requires { bin < shape.n }
        ensures { result ≡ empty_part chunk shape bin }
    {
        Part {
            chunk,
            bin,
            shape,
            body: Vec::new(alloc),
            words: 0,
        }
    }

    /// Appends the record of a super-k-mer of the bin of so many symbols and words, whose codes begin at a place of packed codes.
    pub(crate) fn push(
        &mut self,
        packed: &[u8],
        start: usize,
        symbols: usize,
        words: usize,
    ) -> Result<(), AllocError>
        requires inside { start + symbols ≤ 4 * length packed.now }
        requires spelled { IsSpelled self.old.shape.k (window symbols (codes_in packed.now) start) }
        requires belong { All (λ w. bin_of self.old.shape.m self.old.shape.n w
            ≡ self.old.bin) (windows self.old.shape.k (window symbols (codes_in packed.now) start)) }
        requires words { words
            ≡ length (windows self.old.shape.k (window symbols (codes_in packed.now) start)) }
        ensures ok { OnOk result (self.new ≡ grown self.old.shape.k
            (window symbols (codes_in packed.now) start ∷ []) self.old) }
        ensures err { OnErr result (self.new ≡ self.old) }
    {
        push_record_from(packed, start, symbols, self.shape.k(), &mut self.body)?;
        self.words = self.words.saturating_add(words as u64);
        Ok(())
    }
}
