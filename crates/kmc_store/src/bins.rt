//! Bins in memory.
ghost use Rattle.std.specs.Prelude.{◌≡◌, ◌<◌, map, slice_index, OnOk, OnErr, IfOk, IfErr};
ghost use Rattle.kmc_store.specs.Bins.{BinList, AreBins, body_at, empty_bins, Absorbed, Merged};

use crate::growth::{add_words, append_bodies, make_room};
use kmc_record::{Part, Shape};
use std::alloc::{AllocError, Global};
use std::marker::Model;

/// For each bin of a shape the records that came to it, and how many words they have.
#[derive(Drop)]
pub struct Bins {
    shape: Shape,
    bodies: Vec<Vec<u8>>,
    words: Vec<u64>,
}

impl Model for Bins {
    ghost use Rattle.std.specs.Prelude.{map};
    ghost use Rattle.kmc_store.specs.Bins.{BinList, AreBins};

    ghost Value = { BinList };

    ghost view = { λ a. record { shape = a.shape; bodies = map (λ v. v.items) a.bodies.items; words = a.words.items } };

    ghost invariant = { λ a. AreBins a.shape (map (λ v. v.items) a.bodies.items) a.words.items };
}

impl Bins {
    /// Bins of this shape with no record.
    pub fn new(alloc: Global, shape: Shape) -> Result<Bins, AllocError>
        ensures { IfOk result (λ b. b ≡ empty_bins shape) }
    {
        let mut bodies = Vec::new(alloc);
        let mut words = Vec::new(alloc);
        for _ in 0..shape.n() {
            bodies.push(Vec::new(alloc))?;
            words.push(0)?;
        }
        Ok(Bins {
            shape,
            bodies,
            words,
        })
    }

    /// Bins of a shape with these bodies, one for each bin: each is whole records whose words belong to its bin, with how many words
    /// they have, or 2^64 - 1 where they are more. Who has bodies from outside judges them first.
    pub fn of_bodies(shape: Shape, bodies: Vec<Vec<u8>>, words: Vec<u64>) -> Bins
        requires { AreBins shape (map (λ v. v.items) bodies.items) words.items }
        ensures { result ≡ record { shape = shape; bodies = map (λ v. v.items) bodies.items; words = words.items } }
    {
        Bins {
            shape,
            bodies,
            words,
        }
    }

    /// Appends the records of a part of the same shape to its bin. Where that growth is refused, the part comes back and
    /// the bins stay as they were.
    pub fn absorb(&mut self, part: Part) -> Result<(), Part>
        requires { part.shape ≡ self.old.shape }
        ensures ok { OnOk result (Absorbed self.old part self.new) }
        ensures back { IfErr result (λ p. p ≡ part) }
        ensures err { OnErr result (self.new ≡ self.old) }
    {
        let bin = part.bin();
        let body = &mut self.bodies[bin];
        match body.extend_from_slice(part.body()) {
            Ok(()) => {}
            Err(AllocError) => return Err(part),
        }
        self.words[bin] = self.words[bin].saturating_add(part.words());
        Ok(())
    }

    /// Appends each bin of others of the same shape to the same bin. All growth comes first: where one is refused, the
    /// others come back and the bins stay as they were. An empty bin takes the other's records over, with no copy.
    pub fn merge(&mut self, other: Bins) -> Result<(), Bins>
        requires { other.shape ≡ self.old.shape }
        ensures ok { OnOk result (Merged self.old other self.new) }
        ensures back { IfErr result (λ b. b ≡ other) }
        ensures err { OnErr result (self.new ≡ self.old) }
    {
        match make_room(&mut self.bodies, &other.bodies) {
            Ok(()) => {}
            Err(AllocError) => return Err(other),
        }
        let Bins {
            mut bodies,
            words,
            ..
        } = other;
        append_bodies(&mut self.bodies, &mut bodies);
        add_words(&mut self.words, &words);
        Ok(())
    }

    /// The records of a bin, one after the other.
    pub fn bin(&self, i: usize) -> &[u8]
        requires { i < self.now.shape.n }
        ensures are { result.now ≡ body_at self.now.bodies i }
        ensures kept { AreBins self.now.shape self.now.bodies self.now.words }
    {
        &self.bodies[i]
    }

    /// How many words the records of a bin have, and 2^64 - 1 where they are more.
    pub fn words(&self, i: usize) -> u64
        requires { i < self.now.shape.n }
        ensures is { result ≡ slice_index self.now.words i }
        ensures kept { AreBins self.now.shape self.now.bodies self.now.words }
    {
        self.words[i]
    }

    /// How the parts were cut.
    pub fn shape(&self) -> Shape
        ensures is { result ≡ self.now.shape }
        ensures kept { AreBins self.now.shape self.now.bodies self.now.words }
    {
        self.shape
    }

    /// The records of each bin.
    pub fn bodies(&self) -> &[Vec<u8>]
        ensures are { map (λ v. v.items) result.now ≡ self.now.bodies }
        ensures kept { AreBins self.now.shape self.now.bodies self.now.words }
    {
        self.bodies.as_slice()
    }

    /// The records of each bin, which the bins give up.
    pub fn into_bodies(self) -> Vec<Vec<u8>>
        ensures are { map (λ v. v.items) result.items ≡ self.bodies }
        ensures kept { AreBins self.shape self.bodies self.words }
    {
        let Bins { bodies, .. } = self;
        bodies
    }
}
