//! Signatures of words.
ghost use Rattle.std.specs.Prelude.{◌≡◌, ◌^◌, ◌%◌, ◌<◌, ◌≤◌};
ghost use Rattle.kmc_split.specs.Signature.{bin_of_signature};
ghost use Rattle.kmc_split.specs.Candidates.{unmarked};

use crate::marking::none_of;
use crate::remainders::remainder;
use std::marker::Model;

/// The most symbols of the m-mers that signatures are made of; every limit on m is this one.
pub const MAX_M: usize = 11;

/// The signature of a word, which contracts see as a number: the least value of the allowed canonical forms of
/// its m-mers, and 4^m where there is none (KMC 2, Bioinformatics 2015; which m-mers are allowed is this project's
/// rule).
#[derive(Clone, Copy)]
pub struct Sig {
    value: u32,
}

impl Model for Sig {
    ghost use Rattle.std.specs.Prelude.{ℕ, ◌≤◌, ◌^◌};
    ghost use Rattle.kmc_split.specs.declared.signatures.TheConstants.{MAX_M};

    ghost Value = { ℕ };

    ghost view = { λ a. a.value };

    ghost invariant = { λ a. a.value ≤ 4 ^ MAX_M };

    ghost inverse = { λ n. record { value = n } };
}

impl Sig {
    /// The signature that is this number.
    pub fn of_value(value: u32) -> Sig
        requires { value ≤ 4 ^ MAX_M }
        ensures { result ≡ value }
    {
        Sig { value }
    }

    /// The signature of a word whose least candidate is this: 4^m where that is the mark 4^m - 1 of none that is allowed.
    pub fn of_least(least: u32, m: usize) -> Sig
        requires most { m ≤ MAX_M }
        requires fits { least < 4 ^ m }
        ensures { result ≡ unmarked m least }
    {
        let none = none_of(m);
        if least == none {
            Sig::of_value(none + 1)
        } else {
            Sig::of_value(least)
        }
    }

    /// The number, from 0 to 4^m.
    pub fn value(self) -> u32
        ensures is { result ≡ self }
        ensures most { result ≤ 4 ^ MAX_M }
    {
        self.value
    }

    /// The bin of the signature, of n bins.
    pub fn bin(self, n: usize) -> usize
        requires { 1 ≤ n }
        ensures is { result ≡ bin_of_signature n self }
        ensures within { result < n }
    {
        remainder(self.value as usize, n)
    }
}
